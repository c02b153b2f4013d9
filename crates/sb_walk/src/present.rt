//! Which products are present, edge after edge.

ghost use Rattle.std.specs.Prelude.{◌≡◌, ◌<◌, ◌≤◌, ℕ, length, get_or, IfOk, IfErr, OnOk};
ghost use Rattle.sb_walk.specs.Present.{Rise, IsTurned, IsPlaceFor, IsPlaceOf};

use std::alloc::AllocError;

/// Turns a number: it stands among the others exactly where it did not before.
pub(crate) fn turn(list: &mut Vec<u32>, number: u32) -> Result<(), AllocError>
    requires { Rise list.old.items }
    ensures { OnOk result (IsTurned number list.old.items list.new.items) }
{
    match place_of(list.as_slice(), number) {
        Ok(at) => {
            list.remove(at);
            Ok(())
        }
        Err(at) => Ok(list.insert(at, number)?),
    }
}

/// Where a number stands among rising ones, or where it would.
fn place_of(list: &[u32], number: u32) -> Result<usize, usize>
    requires { Rise list.now }
    ensures there { IfOk result (IsPlaceOf number list.now) }
    ensures absent { IfErr result (IsPlaceFor number list.now) }
{
    list.binary_search(&number)
}
