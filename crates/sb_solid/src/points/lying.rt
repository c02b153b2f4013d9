// Points whose coordinates can be added and compared.
ghost use Rattle.std.specs.Prelude.{◌≡◌, ◌≤◌, ◌^◌, unsigned_abs};
ghost use Rattle.sb_solid.specs.Sizes.{is_small, is_wide};
ghost use Rattle.sb_solid.specs.Steps as spec;

use crate::points::axes::Coordinate;
use crate::points::sizes::{Lying, Wide};

/// The point of these coordinates; `None` exactly where one is more than 10^18 in size.
pub(crate) fn small_point(p: [i128; 3]) -> Option<Lying>
    ensures { spec.IsLyingAt p result }
{
    let [x, y, z] = p;
    if is_small(x) && is_small(y) && is_small(z) {
        Some(Lying { x, y, z })
    } else {
        None
    }
}

fn is_small(number: i128) -> bool
    ensures { result ≡ is_small number }
{
    number.unsigned_abs() <= 1_000_000_000_000_000_000
}

/// The three numbers; `None` exactly where one is more than 2^61 in size.
pub(crate) fn wide(p: [i128; 3]) -> Option<Wide>
    ensures { spec.IsWideAt p result }
{
    let [x, y, z] = p;
    if is_wide(x) && is_wide(y) && is_wide(z) {
        Some(Wide { x, y, z })
    } else {
        None
    }
}

fn is_wide(number: i128) -> bool
    ensures { result ≡ is_wide number }
{
    number.unsigned_abs() <= 2_305_843_009_213_693_952
}

/// A coordinate of a point.
pub(crate) fn coordinate(at: Lying, along: Coordinate) -> i128
    ensures value { result ≡ spec.coordinate_of along (spec.vector_at at) }
    ensures small { unsigned_abs result ≤ 10 ^ 18 }
{
    match along {
        Coordinate::X => at.x,
        Coordinate::Y => at.y,
        Coordinate::Z => at.z,
    }
}
