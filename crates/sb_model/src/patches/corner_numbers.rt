//! The coordinates of corners, as fractions within 128 bits.

ghost use Rattle.std.specs.Prelude.{◌≡◌, ◌≤◌, ◌<ℤ◌, ◌+ℤ◌, ◌-ℤ◌, ◌*ℤ◌, pos, unsigned_abs, IsTrue};
ghost use Rattle.theory_numbers.specs.Fractions.{reduced, whole as whole_number};
ghost use Rattle.sb_fraction.specs.Plane.{is_coordinate, is_plan_point, longest_step};
ghost use Rattle.sb_fraction.specs.Bounds.{greatest_cross, greatest_square};
ghost use Rattle.sb_fraction.specs.Lines.{arrow_along, flat};
ghost use Rattle.sb_fraction.specs.Spots.{inner};
ghost use Rattle.sb_model.specs.Surfaces.Sides.{is_abscissa_size, greatest_offset};
ghost use Rattle.sb_model.specs.Surfaces.SideLines.{greatest_part, greatest_sum};
ghost use Rattle.sb_model.specs.Surfaces.Corners.{corner_along};

use crate::faces::side_line::SideLine;
use crate::patches::corner::Corner;
use sb_fraction::{Direction, Fraction, Line, Point};

/// A whole number as a fraction.
#[tactic(auto, using(crate::proofs::PointsOfPatches::CornersFit::corner_sizes))]
pub(crate) fn whole(z: i64) -> Fraction
    ensures { result ≡ whole_number z }
{
    Fraction::new(z as i128, 1)
}

/// The value of a side at u.
#[tactic(auto, using(crate::proofs::PointsOfPatches::CornersFit::corner_sizes))]
pub(crate) fn level_value(side: SideLine, u: &Fraction) -> Fraction
    requires { IsTrue (is_abscissa_size u.now) }
    ensures { result ≡ reduced ((side.dy *ℤ u.now.num) +ℤ (side.off *ℤ u.now.den)) (side.dx *ℤ u.now.den) }
{
    Fraction::new(
        sum(times_step(u.num(), side.dy), times_den(side.off, u.den())),
        scale(side.dx as i64, u.den()),
    )
}

/// The point at u along a line, at the height z.
#[tactic(auto, using(crate::proofs::PointsOfPatches::CornersFit::corner_sizes))]
pub(crate) fn placed_along(line: Line, u: &Fraction, z: i64) -> Corner
    requires offset_in { unsigned_abs line.off ≤ greatest_offset }
    requires u_in { IsTrue (is_abscissa_size u.now) }
    ensures { result ≡ corner_along (flat (arrow_along line.dir)) line.off u.now z }
{
    Corner {
        x: x_along(line, u),
        y: y_along(line, u),
        z: whole(z),
    }
}

/// The x at u along a line.
#[tactic(auto, using(crate::proofs::PointsOfPatches::CornersFit::corner_sizes))]
fn x_along(line: Line, u: &Fraction) -> Fraction
    requires offset_in { unsigned_abs line.off ≤ greatest_offset }
    requires u_in { IsTrue (is_abscissa_size u.now) }
    ensures { result ≡ (corner_along (flat (arrow_along line.dir)) line.off u.now (pos 0)).x }
{
    let across = times_den(line.off, u.den());
    Fraction::new(
        less(
            times_step(u.num(), line.dir.x),
            times_step(across, line.dir.y),
        ),
        scale(square(line.dir), u.den()),
    )
}

/// The y at u along a line.
#[tactic(auto, using(crate::proofs::PointsOfPatches::CornersFit::corner_sizes))]
fn y_along(line: Line, u: &Fraction) -> Fraction
    requires offset_in { unsigned_abs line.off ≤ greatest_offset }
    requires u_in { IsTrue (is_abscissa_size u.now) }
    ensures { result ≡ (corner_along (flat (arrow_along line.dir)) line.off u.now (pos 0)).y }
{
    let across = times_den(line.off, u.den());
    Fraction::new(
        sum(
            times_step(u.num(), line.dir.y),
            times_step(across, line.dir.x),
        ),
        scale(square(line.dir), u.den()),
    )
}

/// The line of this direction through a plan point.
#[tactic(auto, using(crate::proofs::PointsOfPatches::CornersFit::corner_sizes))]
pub(crate) fn line_through(a: Point, dir: Direction) -> Line
    requires { IsTrue (is_plan_point a) }
    ensures dir { result.dir ≡ dir }
    ensures off { result.off ≡ (a.y *ℤ dir.x) -ℤ (a.x *ℤ dir.y) }
    ensures size { unsigned_abs result.off ≤ greatest_offset }
{
    Line {
        dir,
        off: coordinate_times(a.y, dir.x) - coordinate_times(a.x, dir.y),
    }
}

/// A coordinate times a number of a direction.
#[tactic(auto, using(crate::proofs::PointsOfPatches::CornersFit::corner_sizes))]
fn coordinate_times(a: i32, by: i32) -> i64
    requires a_in { IsTrue (is_coordinate a) }
    requires by_in { unsigned_abs by ≤ longest_step }
    ensures value { result ≡ a *ℤ by }
    ensures size { unsigned_abs result ≤ 500000000000 }
{
    a as i64 * by as i64
}

/// A numerator times a number of a direction.
#[tactic(auto, using(crate::proofs::PointsOfPatches::CornersFit::corner_sizes))]
fn times_step(a: i128, by: i32) -> i128
    requires a_in { unsigned_abs a ≤ greatest_square }
    requires by_in { unsigned_abs by ≤ longest_step }
    ensures value { result ≡ a *ℤ by }
    ensures size { unsigned_abs result ≤ greatest_part }
{
    a * by as i128
}

/// A number times a denominator.
#[tactic(auto, using(crate::proofs::PointsOfPatches::CornersFit::corner_sizes))]
pub(crate) fn times_den(a: i64, den: i128) -> i128
    requires a_in { unsigned_abs a ≤ greatest_cross }
    requires den_in { unsigned_abs den ≤ greatest_cross }
    ensures value { result ≡ a *ℤ den }
    ensures size { unsigned_abs result ≤ greatest_square }
{
    a as i128 * den
}

/// A positive number times a denominator.
#[tactic(auto, using(crate::proofs::PointsOfPatches::CornersFit::corner_sizes))]
fn scale(a: i64, den: i128) -> i128
    requires a_positive { pos 0 <ℤ a }
    requires a_in { unsigned_abs a ≤ greatest_cross }
    requires den_positive { pos 0 <ℤ den }
    requires den_in { unsigned_abs den ≤ greatest_cross }
    ensures value { result ≡ a *ℤ den }
    ensures positive { pos 0 <ℤ result }
    ensures size { unsigned_abs result ≤ greatest_square }
{
    times_den(a, den)
}

/// The square of the length of a direction.
#[tactic(auto, using(crate::proofs::PointsOfPatches::CornersFit::corner_sizes))]
fn square(d: Direction) -> i64
    ensures value { result ≡ inner (flat (arrow_along d)) (flat (arrow_along d)) }
    ensures size { unsigned_abs result ≤ greatest_cross }
    ensures positive { pos 0 <ℤ result }
{
    step_times(d.x, d.x) + step_times(d.y, d.y)
}

/// The product of two numbers of directions.
#[tactic(auto, using(crate::proofs::PointsOfPatches::CornersFit::corner_sizes))]
fn step_times(a: i32, b: i32) -> i64
    requires a_in { unsigned_abs a ≤ longest_step }
    requires b_in { unsigned_abs b ≤ longest_step }
    ensures value { result ≡ a *ℤ b }
    ensures size { unsigned_abs result ≤ 1000000000000 }
{
    a as i64 * b as i64
}

/// The sum of two parts of a numerator.
fn sum(a: i128, b: i128) -> i128
    requires a_in { unsigned_abs a ≤ greatest_part }
    requires b_in { unsigned_abs b ≤ greatest_part }
    ensures value { result ≡ a +ℤ b }
    ensures size { unsigned_abs result ≤ greatest_sum }
{
    a + b
}

/// The difference of two parts of a numerator.
fn less(a: i128, b: i128) -> i128
    requires a_in { unsigned_abs a ≤ greatest_part }
    requires b_in { unsigned_abs b ≤ greatest_part }
    ensures value { result ≡ a -ℤ b }
    ensures size { unsigned_abs result ≤ greatest_sum }
{
    a - b
}
