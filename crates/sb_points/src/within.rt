//! Whether a point of the plan lies inside loops.

ghost use Rattle.std.specs.Prelude.{◌≡◌, ◌&&◌, pos, int_le, if◌then◌else◌, IsTrue, None, Some};
ghost use Rattle.std.specs.Ordering.{int_eq};
ghost use Rattle.std.specs.List.{list_all};
ghost use Rattle.theory_lists.specs.Parity.{differ};
ghost use Rattle.theory_numbers.specs.Arrows.{cross, dot};
ghost use Rattle.sb_fraction.specs.Plane.{is_plan_point};
ghost use Rattle.sb_fraction.specs.Bounds.{is_crossing_size};
ghost use Rattle.sb_fraction.specs.Spots.{spot_of};
ghost use Rattle.theory_plans.specs.LoopEdges.{edges_back, edges_of_loop};
ghost use Rattle.theory_plans.specs.Inside.{is_in_plan};
ghost use Rattle.sb_points.specs.Places.{is_passed, parity_after};

use crate::seen::{Seen, is_crossed, is_on};
use sb_fraction::{HPoint, Point};
use sb_list::Listed;

/// Whether the point of the plan lies inside loops: on no edge, and an odd number of edges cross
/// the ray to its right. It goes once over the points.
pub fn is_inside(loops: &Listed<Listed<Point>>, p: &HPoint) -> bool
    requires loops_in { IsTrue (list_all (list_all is_plan_point) loops.now) }
    requires point_in { IsTrue (is_crossing_size (spot_of p.now)) }
    ensures { result ≡ is_in_plan loops.now (spot_of p.now) }
{
    let mut odd = false;
    'loops: for points in loops.as_slice() {
        match pass_loop(p, points.as_slice(), odd) {
            Some(after) => odd = after,
            None => return false,
        }
    }
    odd
}

/// Whether an odd number of edges cross the ray from `p` to the right, this loop taken in; `None`
/// where `p` lies on one of its edges.
fn pass_loop(p: &HPoint, points: &[Point], odd: bool) -> Option<bool>
    requires points_in { IsTrue (list_all is_plan_point points.now) }
    requires point_in { IsTrue (is_crossing_size (spot_of p.now)) }
    ensures { result ≡ parity_after (spot_of p.now) odd (edges_of_loop points.now) }
{
    match points.split_first() {
        Some((first, rest)) => pass_from(p, *first, rest, odd),
        None => Some(odd),
    }
}

/// The same for a loop from its first point over the others and back.
fn pass_from(p: &HPoint, first: Point, rest: &[Point], odd: bool) -> Option<bool>
    requires first_in { IsTrue (is_plan_point first) }
    requires rest_in { IsTrue (list_all is_plan_point rest.now) }
    requires point_in { IsTrue (is_crossing_size (spot_of p.now)) }
    ensures { result ≡ parity_after (spot_of p.now) odd (edges_back first rest.now first) }
{
    let start = Seen::from(p, first);
    let mut odd = odd;
    let mut last = first;
    'points: for point in rest {
        odd = pass_edge(Seen::from(p, last), Seen::from(p, *point), odd)?;
        last = *point;
    }
    pass_edge(Seen::from(p, last), start, odd)
}

/// The same for an edge between the ends of two ways.
fn pass_edge(a: Seen, b: Seen, odd: bool) -> Option<bool>
    ensures { result ≡ (if int_eq (cross a b) (pos 0) && int_le (dot a b) (pos 0) then None else Some (differ (is_passed a b) odd)) }
{
    if is_on(a, b) {
        None
    } else {
        Some(is_crossed(a, b) != odd)
    }
}
