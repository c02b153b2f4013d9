//! The sides of cells of Bottom and Top.

ghost use Rattle.std.specs.Prelude.{◌≡◌, ◌≤◌, ◌-ℤ◌, ◌*ℤ◌, unsigned_abs, IsTrue};
ghost use Rattle.sb_fraction.specs.Directions.{direction_of, offset_of};
ghost use Rattle.sb_fraction.specs.Edges.{edge_of, is_in_range};
ghost use Rattle.sb_fraction.specs.Lines.{arrow_along, flat};
ghost use Rattle.sb_fraction.specs.Plane.{is_plan_point, greatest_coordinate, longest_step};
ghost use Rattle.sb_model.specs.Surfaces.Sides.{greatest_offset};

use sb_fraction::{Direction, Line, Point, Segment};
use sb_points::heading_of;

/// The line that an edge lies on.
pub(crate) fn line_through(s: &Segment) -> Line
    requires { IsTrue (is_in_range (edge_of s.now)) }
    ensures direction { flat (arrow_along result.dir) ≡ direction_of (edge_of s.now) }
    ensures offset { result.off ≡ offset_of (edge_of s.now) }
    ensures size { unsigned_abs result.off ≤ greatest_offset }
{
    let dir = heading_of(s.a, s.b).direction;
    Line {
        dir,
        off: offset(s.a, dir),
    }
}

/// The offset of the line of this direction through a plan point.
#[tactic(auto, using(crate::proofs::Ranges::OffsetsFit::offsets))]
fn offset(a: Point, d: Direction) -> i64
    requires { IsTrue (is_plan_point a) }
    ensures value { result ≡ (a.y *ℤ d.x) -ℤ (a.x *ℤ d.y) }
    ensures size { unsigned_abs result ≤ greatest_offset }
{
    part(a.y, d.x) - part(a.x, d.y)
}

/// A coordinate times a number of a direction.
#[tactic(auto, using(crate::proofs::Ranges::OffsetsFit::offsets))]
fn part(a: i32, step: i32) -> i64
    requires coordinate_in { unsigned_abs a ≤ greatest_coordinate }
    requires step_in { unsigned_abs step ≤ longest_step }
    ensures value { result ≡ a *ℤ step }
    ensures size { unsigned_abs result ≤ 500000000000 }
{
    a as i64 * step as i64
}
