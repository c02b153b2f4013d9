ghost use Rattle.std.specs.Prelude.{◌≡◌, ◌≤◌, ◌-◌, ◌++◌, ◌||◌, true, length, nat_lt};
ghost use Rattle.std.specs.Prelude.{is_err, IfOk, OnOk, OnErr};
ghost use Rattle.sb_shelf.specs.World.{one_more};
ghost use Rattle.sb_shelf.specs.Counting.{is_among, count_after};

use crate::page::Page;
use crate::shelf::Failed;
use sb_list::Listed;

/// Numbers of calls, the first of a shelf being 1.
pub type Calls = Listed<u64>;

/// Adds one to a count, which stays at its last value.
pub(crate) fn raise(count: &mut u64)
    ensures raised { count.new ≡ one_more count.old }
    ensures no_fall { count.old ≤ count.new }
{
    *count = count.saturating_add(1);
}

/// Counts the next call, and answers whether it is one of those that are to fail.
pub(crate) fn is_next_listed(calls: &mut u64, failing: &Calls) -> bool
    ensures counted { calls.new ≡ one_more calls.old }
    ensures listed { result ≡ is_among failing.now (one_more calls.old) }
{
    raise(calls);
    failing.as_slice().contains(calls)
}

/// Counts the next call, which fails where it is listed. Its fault is counted then.
pub(crate) fn begin_call(calls: &mut u64, failing: &Calls, faults: &mut u64) -> Result<(), Failed>
    ensures counted { calls.new ≡ one_more calls.old }
    ensures fails { is_err result ≡ is_among failing.now (one_more calls.old) }
    ensures faults { faults.new ≡ count_after result faults.old }
    ensures no_fall { faults.old ≤ faults.new }
{
    if is_next_listed(calls, failing) {
        raise(faults);
        return Err(Failed);
    }
    Ok(())
}

/// Appends these bytes, or fails and counts the fault: where the call is listed, and where the
/// page has no room for all of them.
pub(crate) fn append_unless(
    is_listed: bool,
    page: &mut Page,
    bytes: &[u8],
    faults: &mut u64,
) -> Result<usize, Failed>
    requires { page.old.is_created ≡ true }
    ensures fails { is_err result ≡ (is_listed || nat_lt page.old.room (length bytes.now)) }
    ensures faults { faults.new ≡ count_after result faults.old }
    ensures no_fall { faults.old ≤ faults.new }
    ensures created { page.new.is_created ≡ true }
    ensures count { IfOk result (λ n. n ≡ length bytes.now) }
    ensures bytes { OnOk result (page.new.bytes.items ≡ page.old.bytes.items ++ bytes.now) }
    ensures room { OnOk result (page.new.room ≡ page.old.room - length bytes.now) }
    ensures same_bytes { OnErr result (page.new.bytes.items ≡ page.old.bytes.items) }
    ensures same_room { OnErr result (page.new.room ≡ page.old.room) }
{
    if is_listed || bytes.len() > page.room {
        raise(faults);
        return Err(Failed);
    }
    page.append(bytes);
    Ok(bytes.len())
}
