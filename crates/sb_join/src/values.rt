//! Which of two sides is the lower one just after an abscissa, within 128 bits.

ghost use Rattle.std.specs.Prelude.{◌≡◌, ◌≤◌, ◌*ℤ◌, ◌-ℤ◌, ◌+ℤ◌, unsigned_abs, true};
ghost use Rattle.theory_plane.specs.Sides.{line};
ghost use Rattle.sb_fraction.specs.Plane.{longest_step};
ghost use Rattle.sb_model.specs.Surfaces.Sides.{is_abscissa_size};
ghost use Rattle.sb_model.specs.Surfaces.Sides.{greatest_offset, greatest_abscissa_num, greatest_abscissa_den};
ghost use Rattle.sb_join.specs.Sizes.{greatest_part, greatest_shift, greatest_turn, greatest_slope};
ghost use Rattle.sb_join.specs.Sizes.{greatest_first, greatest_second, HasSizes};
ghost use Rattle.theory_faces.specs.Strips.{strip_of};
ghost use Rattle.sb_join.specs.Listing.{order_of_starts as starts_order};

use crate::alike::{SideNumbers, numbers};
use sb_fraction::Fraction;
use sb_model::Cell;
use std::cmp::Ordering;

/// The order in v of two cells that begin at one abscissa: by the values of their lower sides there,
/// and where these meet by their slopes.
pub(crate) fn order_of_starts(a: &Cell, b: &Cell) -> Ordering
    requires { a.now.patch.low ≡ b.now.patch.low }
    ensures { result ≡ starts_order (strip_of a.now) (strip_of b.now) }
{
    let first = numbers(a.patch.lower);
    let second = numbers(b.patch.lower);
    let slope = slope_of(first, second);
    let gap = gap_at(shift_of(first, second), slope, &a.patch.low);
    0_i128.cmp(&gap).then(0_i128.cmp(&slope))
}

/// How the second line rises from the first.
fn slope_of(first: SideNumbers, second: SideNumbers) -> i128
    requires first_in { HasSizes (line first.dx first.dy first.off) }
    requires second_in { HasSizes (line second.dx second.dy second.off) }
    ensures value { result ≡ (second.dy *ℤ first.dx) -ℤ (first.dy *ℤ second.dx) }
    ensures size { unsigned_abs result ≤ greatest_slope }
{
    slope_between(turn(second.dy, first.dx), turn(first.dy, second.dx))
}

/// How far the second line lies above the first at the abscissa 0.
fn shift_of(first: SideNumbers, second: SideNumbers) -> i128
    requires first_in { HasSizes (line first.dx first.dy first.off) }
    requires second_in { HasSizes (line second.dx second.dy second.off) }
    ensures value { result ≡ (second.off *ℤ first.dx) -ℤ (first.off *ℤ second.dx) }
    ensures size { unsigned_abs result ≤ greatest_shift }
{
    shift_between(part(second.off, first.dx), part(first.off, second.dx))
}

/// How far it lies above it at this abscissa, times the denominator.
#[tactic(auto, using(crate::proofs::ProductsFit::products))]
fn gap_at(shift: i128, slope: i128, at: &Fraction) -> i128
    requires shift_in { unsigned_abs shift ≤ greatest_shift }
    requires slope_in { unsigned_abs slope ≤ greatest_slope }
    requires size { is_abscissa_size at.now ≡ true }
    ensures { result ≡ (shift *ℤ at.now.den) +ℤ (slope *ℤ at.now.num) }
{
    sum(shifted(shift, at.den()), sloped(slope, at.num()))
}

/// An offset times a part of a direction.
#[tactic(auto, using(crate::proofs::ProductsFit::products))]
fn part(off: i64, part: i32) -> i128
    requires off_in { unsigned_abs off ≤ greatest_offset }
    requires part_in { unsigned_abs part ≤ longest_step }
    ensures value { result ≡ off *ℤ part }
    ensures size { unsigned_abs result ≤ greatest_part }
{
    off as i128 * part as i128
}

/// The product of two parts of directions.
#[tactic(auto, using(crate::proofs::ProductsFit::products))]
fn turn(a: i32, b: i32) -> i128
    requires a_in { unsigned_abs a ≤ longest_step }
    requires b_in { unsigned_abs b ≤ longest_step }
    ensures value { result ≡ a *ℤ b }
    ensures size { unsigned_abs result ≤ greatest_turn }
{
    a as i128 * b as i128
}

/// A shift times the denominator of an abscissa.
#[tactic(auto, using(crate::proofs::ProductsFit::products))]
fn shifted(shift: i128, den: i128) -> i128
    requires shift_in { unsigned_abs shift ≤ greatest_shift }
    requires den_in { unsigned_abs den ≤ greatest_abscissa_den }
    ensures value { result ≡ shift *ℤ den }
    ensures size { unsigned_abs result ≤ greatest_first }
{
    shift * den
}

/// A slope times the numerator of an abscissa.
#[tactic(auto, using(crate::proofs::ProductsFit::products))]
fn sloped(slope: i128, num: i128) -> i128
    requires slope_in { unsigned_abs slope ≤ greatest_slope }
    requires num_in { unsigned_abs num ≤ greatest_abscissa_num }
    ensures value { result ≡ slope *ℤ num }
    ensures size { unsigned_abs result ≤ greatest_second }
{
    slope * num
}

#[tactic(auto, using(crate::proofs::ProductsFit::products))]
fn shift_between(a: i128, b: i128) -> i128
    requires a_in { unsigned_abs a ≤ greatest_part }
    requires b_in { unsigned_abs b ≤ greatest_part }
    ensures value { result ≡ a -ℤ b }
    ensures size { unsigned_abs result ≤ greatest_shift }
{
    a - b
}

#[tactic(auto, using(crate::proofs::ProductsFit::products))]
fn slope_between(a: i128, b: i128) -> i128
    requires a_in { unsigned_abs a ≤ greatest_turn }
    requires b_in { unsigned_abs b ≤ greatest_turn }
    ensures value { result ≡ a -ℤ b }
    ensures size { unsigned_abs result ≤ greatest_slope }
{
    a - b
}

#[tactic(auto, using(crate::proofs::ProductsFit::products))]
fn sum(a: i128, b: i128) -> i128
    requires a_in { unsigned_abs a ≤ greatest_first }
    requires b_in { unsigned_abs b ≤ greatest_second }
    ensures { result ≡ a +ℤ b }
{
    a + b
}
