// Whole millimetres counted from an anchor.
ghost use Rattle.std.specs.Prelude.{◌≡◌, ◌≤◌, ◌+ℤ◌, ◌-ℤ◌, ◌^◌, ◌&&◌, pos, not, true, int_lt, int_le, unsigned_abs, IsTrue};
ghost use Rattle.sb_fraction.specs.Plane.{is_coordinate};
ghost use Rattle.sb_solid.specs.Grid.{nearest_millimetre};
ghost use Rattle.sb_solid.specs.Sizes.{is_wide};
ghost use Rattle.sb_solid.specs.Solids.{lower_of};
ghost use Rattle.sb_solid.specs.Judged as spec;

use crate::spans::nearest;

/// The number from which whole millimetres are counted: the least at both ends.
pub(crate) fn anchor(low: i128, way: i128) -> i128
    requires low_in { unsigned_abs low ≤ 10 ^ 18 }
    requires way_in { unsigned_abs way ≤ 10 ^ 18 }
    ensures value { result ≡ spec.anchor_of low way }
    ensures small { IsTrue (is_wide result) }
{
    if low + way < low { low + way } else { low }
}

/// How many whole millimetres a number lies from 500 m below its anchor; `None` exactly where it lies below the
/// anchor, or more than 1 km and 20 µm above it.
pub(crate) fn base(anchor: i128, number: i128) -> Option<i32>
    requires anchor_in { unsigned_abs anchor ≤ 2 ^ 61 }
    requires number_in { unsigned_abs number ≤ 2 ^ 61 }
    ensures { spec.IsBase anchor number result }
{
    let distance = distance(anchor, number);
    if is_within(distance) {
        Some(counted(distance))
    } else {
        None
    }
}

fn distance(anchor: i128, number: i128) -> i128
    requires anchor_in { unsigned_abs anchor ≤ 2 ^ 61 }
    requires number_in { unsigned_abs number ≤ 2 ^ 61 }
    ensures { result ≡ number -ℤ anchor }
{
    number - anchor
}

fn is_within(distance: i128) -> bool
    ensures { result ≡ (not (int_lt distance (pos 0)) && int_le distance (pos 1000000020000)) }
{
    !(distance < 0) && distance <= 1_000_000_020_000
}

/// The nearest whole millimetre, less 500 m.
fn counted(distance: i128) -> i32
    requires { (not (int_lt distance (pos 0)) && int_le distance (pos 1000000020000)) ≡ true }
    ensures value { result ≡ nearest_millimetre distance -ℤ pos 500000 }
    ensures small { IsTrue (is_coordinate result) }
{
    ((distance as u64 + 500_000) / 1_000_000) as i32 - 500_000
}

/// How many whole millimetres a solid is moved, from where it was judged.
pub(crate) fn step(anchor: i128, shift: i128) -> i128
    requires anchor_in { unsigned_abs anchor ≤ 2 ^ 61 }
    requires shift_in { unsigned_abs shift ≤ 2 ^ 61 }
    ensures value { result ≡ spec.step_of anchor shift }
    ensures small { unsigned_abs result ≤ 2 ^ 67 }
{
    raised(nearest(total(anchor, shift)))
}

fn total(anchor: i128, shift: i128) -> i128
    requires anchor_in { unsigned_abs anchor ≤ 2 ^ 61 }
    requires shift_in { unsigned_abs shift ≤ 2 ^ 61 }
    ensures value { result ≡ anchor +ℤ shift }
    ensures small { unsigned_abs result ≤ 2 ^ 66 }
{
    anchor + shift
}

fn raised(mm: i128) -> i128
    requires { unsigned_abs mm ≤ 2 ^ 66 }
    ensures value { result ≡ mm +ℤ pos 500000 }
    ensures small { unsigned_abs result ≤ 2 ^ 67 }
{
    mm + 500_000
}
