//! What is present in the gaps of a slab's order.

ghost use Rattle.std.specs.Prelude.{◌≡◌, ◌<◌, ◌∷◌, length, IsTrue};
ghost use Rattle.std.specs.List.{AllByRecursion};
ghost use Rattle.std.specs.Ordering.{is_eq};
ghost use Rattle.sb_fraction.specs.Edges.{edge_of, is_in_range, side_of, are_collinear as are_on_one_line};
ghost use Rattle.sb_fraction.specs.Plane.{is_plan_point};
ghost use Rattle.sb_fraction.specs.Spots.{spot_at};
ghost use Rattle.theory_gaps.specs.Gaps.{edges_at};
ghost use Rattle.sb_walk.specs.Shared.{share_gap};

use sb_fraction::{Point, Segment, orient};
use sb_frame::PlanEdges;
use std::cmp::Ordering;

/// Whether two products are present together in a gap between two lines of the order.
pub(crate) fn share_a_gap(edges: &PlanEdges, order: &[usize], a: u32, b: u32) -> bool
    requires { AllByRecursion (λ k. k < length edges.now.edges) order.now }
    ensures { result ≡ share_gap a b (edges_at edges.now.edges order.now) }
{
    match order.split_first() {
        None => false,
        Some((first, behind)) => share_behind(edges, *first, behind, a, b),
    }
}

/// The same of an order with a first edge.
fn share_behind(edges: &PlanEdges, first: usize, behind: &[usize], a: u32, b: u32) -> bool
    requires first_in { first < length edges.now.edges }
    requires behind_in { AllByRecursion (λ k. k < length edges.now.edges) behind.now }
    ensures { result ≡ share_gap a b (edges_at edges.now.edges (first ∷ behind.now)) }
{
    let mut last = edges.edge(first);
    let mut has_a = last.product == a;
    let mut has_b = last.product == b;
    let mut rest = behind;
    'order: while let Some((place, others)) = rest.split_first() {
        let edge = edges.edge(*place);
        if has_a && has_b && !are_collinear(&last.segment, &edge.segment) {
            return true;
        }
        has_a = has_a != (edge.product == a);
        has_b = has_b != (edge.product == b);
        last = edge;
        rest = others;
    }
    has_a && has_b
}

/// Whether both ends of the second segment lie on the line of the first.
pub(crate) fn are_collinear(s: &Segment, other: &Segment) -> bool
    requires first_in { IsTrue (is_in_range (edge_of s.now)) }
    requires second_in { IsTrue (is_in_range (edge_of other.now)) }
    ensures { result ≡ are_on_one_line (edge_of s.now) (edge_of other.now) }
{
    is_on_line(s, other.a) && is_on_line(s, other.b)
}

fn is_on_line(s: &Segment, p: Point) -> bool
    requires segment_in { IsTrue (is_in_range (edge_of s.now)) }
    requires point_in { IsTrue (is_plan_point p) }
    ensures { result ≡ is_eq (side_of (edge_of s.now) (spot_at p)) }
{
    match orient(s, p) {
        Ordering::Equal => true,
        Ordering::Less | Ordering::Greater => false,
    }
}
