// The lowest of some numbers.
ghost use Rattle.std.specs.Prelude.{◌≡◌, nat_lt, filter};
ghost use Rattle.sb_profile.specs.Lowest as spec;

/// The lower of a number and another, if there is another.
pub(crate) fn lower(number: u32, found: Option<u32>) -> Option<u32>
    ensures { result ≡ spec.lower_of number found }
{
    match found {
        Some(other) if other < number => Some(other),
        _ => Some(number),
    }
}

/// The lowest of the numbers, or `None` exactly where there is no number.
pub(crate) fn lowest(numbers: &[u32]) -> Option<u32>
    ensures { result ≡ spec.lowest_of numbers.now }
{
    let mut found = None;
    'numbers: for number in numbers {
        found = lower(*number, found);
    }
    found
}

/// The lowest of those above another.
pub(crate) fn lowest_above(numbers: &[u32], bound: u32) -> Option<u32>
    ensures { result ≡ spec.lowest_of (filter (nat_lt bound) numbers.now) }
{
    let mut found = None;
    'numbers: for number in numbers {
        found = lower_above(*number, bound, found);
    }
    found
}

/// The lower of the two, if the number is above the bound.
fn lower_above(number: u32, bound: u32, found: Option<u32>) -> Option<u32>
    ensures { result ≡ spec.lower_if (nat_lt bound number) number found }
{
    if bound < number {
        lower(number, found)
    } else {
        found
    }
}
