//! On which side of a line a point lies.

ghost use Rattle.std.specs.Prelude.{◌≡◌, IsTrue};
ghost use Rattle.sb_fraction.specs.Plane.{is_plan_point};
ghost use Rattle.sb_fraction.specs.Spots.{spot_at};
ghost use Rattle.sb_fraction.specs.Edges.{edge_of, is_in_range, side_of};

use crate::span::Span;
use crate::{Point, Segment};
use std::cmp::Ordering;

/// Where `p` lies beside the line from `s.a` to `s.b`: `Less` right of it, `Equal` on it, `Greater`
/// left of it.
#[tactic(auto, using(crate::proofs::SidesOfPoints::sides))]
pub fn orient(s: &Segment, p: Point) -> Ordering
    requires segment_in { IsTrue (is_in_range (edge_of s.now)) }
    requires point_in { IsTrue (is_plan_point p) }
    ensures side { result ≡ side_of (edge_of s.now) (spot_at p) }
{
    let to_a = Span::between(p, s.a);
    let to_b = Span::between(p, s.b);
    to_a.cross(to_b).cmp(&0)
}
