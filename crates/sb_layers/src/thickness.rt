//! The length of a crossing in whole micrometres (µm).

ghost use Rattle.std.specs.Prelude.{◌≡◌, ◌≤◌, ◌<◌, ◌+◌, ◌*◌, ◌/◌, ◌^◌, ◌<ℤ◌, ◌-ℤ◌, pos, unsigned_abs};
ghost use Rattle.sb_fraction.specs.Bounds.{greatest_cross};
ghost use Rattle.sb_fraction.specs.Spots.{inner};
ghost use Rattle.sb_model.specs.Labels.{axis_vector};
ghost use Rattle.theory_sight.specs.Bands.{rounded_thickness};

use crate::axis::inner_product;
use sb_model::Axis;

/// `1000·(to - from)/√N` with `N = n·n`, rounded, half away from zero.
///
/// It is the greatest m that is 0 or has `(2m - 1)²·N <= 4·10^6·(to - from)²`; so `2m - 1` is at most the
/// square root of the quotient, rounded down.
pub(crate) fn rounded_micrometres(n: Axis, from: i64, to: i64) -> i128
    requires some { pos 0 <ℤ inner (axis_vector n) (axis_vector n) }
    requires from_in { unsigned_abs from ≤ greatest_cross }
    requires to_in { unsigned_abs to ≤ greatest_cross }
    ensures value { result ≡ pos (rounded_thickness (inner (axis_vector n) (axis_vector n)) (to -ℤ from)) }
    ensures size { unsigned_abs result ≤ 2 ^ 64 }
{
    let root = root_of(scaled_square(length_of(from, to)), unit_of(n));
    half_of(root)
}

/// The product of a normal with itself.
#[tactic(auto, using(crate::proofs::ProductsFit::products))]
fn unit_of(n: Axis) -> u128
    ensures { result ≡ unsigned_abs (inner (axis_vector n) (axis_vector n)) }
{
    inner_product(n, n).unsigned_abs()
}

/// The length of a crossing.
fn length_of(from: i64, to: i64) -> i64
    requires from_in { unsigned_abs from ≤ greatest_cross }
    requires to_in { unsigned_abs to ≤ greatest_cross }
    ensures value { result ≡ to -ℤ from }
    ensures size { unsigned_abs result ≤ 2 * greatest_cross }
{
    to - from
}

/// The square root of a quotient, rounded down.
fn root_of(square: u128, unit: u128) -> u128
    requires { 0 < unit }
    ensures low { result * result ≤ square / unit }
    ensures high { square / unit < (result + 1) * (result + 1) }
    ensures size { result < 2 ^ 64 }
{
    (square / unit).isqrt()
}

/// Half of the number after, rounded down.
fn half_of(root: u128) -> i128
    requires { root < 2 ^ 64 }
    ensures value { result ≡ pos ((root + 1) / 2) }
    ensures size { unsigned_abs result ≤ 2 ^ 64 }
{
    ((root + 1) / 2) as i128
}

/// `4·10^6·k²`.
fn scaled_square(length: i64) -> u128
    requires { unsigned_abs length ≤ 2 * greatest_cross }
    ensures { result ≡ 4000000 * (unsigned_abs length * unsigned_abs length) }
{
    let size = u128::from(length.unsigned_abs());
    4_000_000 * (size * size)
}
