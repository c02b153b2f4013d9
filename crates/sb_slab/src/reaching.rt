//! The plan edges over which a line stands.

ghost use Rattle.std.specs.Prelude.{◌≡◌, ◌≤◌, ◌*ℤ◌, ◌+ℤ◌, IfOk, IsTrue, unsigned_abs, pos, int_lt};
ghost use Rattle.sb_fraction.specs.Bounds.{is_abscissa_size, greatest_cross};
ghost use Rattle.sb_fraction.specs.Crossings.{abscissa_at};
ghost use Rattle.sb_fraction.specs.Edges.{edge_of, is_in_range};
ghost use Rattle.sb_fraction.specs.Lines.{arrow_along, flat, lies_after as is_after, reaches_past};
ghost use Rattle.sb_fraction.specs.Numbers.{number};
ghost use Rattle.sb_fraction.specs.Plane.{is_plan_point, greatest_coordinate, longest_step};
ghost use Rattle.sb_frame.specs.Network.{plan_edge_of};
ghost use Rattle.sb_slab.specs.Reaching.{AreReaching};

use crate::item::Reaching;
use sb_fraction::{Direction, Fraction, Point, Segment};
use sb_frame::{PlanEdge, PlanEdges};
use std::alloc::{AllocError, Global};

/// The plan edges with one end at or before the abscissa and the other after it, by their places.
pub(crate) fn reaching(
    alloc: Global,
    edges: &PlanEdges,
    d: Direction,
    at: &Fraction,
) -> Result<Vec<Reaching>, AllocError>
    requires { IsTrue (is_abscissa_size at.now) }
    ensures { IfOk result (λ list. AreReaching (arrow_along d) (number at.now) edges.now.edges list.items) }
{
    let mut list = Vec::new(alloc);
    'edges: for place in 0..edges.len() {
        let edge = edges.edge(place);
        if reaches(&edge.segment, d, at) {
            list.push(at_place(place, edge))?;
        }
    }
    Ok(list)
}

/// A plan edge with its place.
fn at_place(place: usize, edge: PlanEdge) -> Reaching
    ensures place { result.place ≡ place }
    ensures segment { edge_of result.segment ≡ (plan_edge_of edge).edge }
{
    Reaching {
        place,
        segment: edge.segment,
    }
}

/// Whether one end lies at or before the abscissa, and the other after it.
fn reaches(s: &Segment, d: Direction, at: &Fraction) -> bool
    requires segment_in { IsTrue (is_in_range (edge_of s.now)) }
    requires size { IsTrue (is_abscissa_size at.now) }
    ensures { result ≡ reaches_past (arrow_along d) (number at.now) (edge_of s.now) }
{
    lies_after(s.a, d, at) != lies_after(s.b, d, at)
}

/// Whether the point lies after the abscissa.
fn lies_after(p: Point, d: Direction, at: &Fraction) -> bool
    requires point_in { IsTrue (is_plan_point p) }
    requires size { IsTrue (is_abscissa_size at.now) }
    ensures { result ≡ is_after (arrow_along d) (number at.now) p }
{
    at.num() < times(along(p, d), at.den())
}

/// `p·d`.
#[tactic(auto, using(crate::proofs::ProductsFit::products))]
fn along(p: Point, d: Direction) -> i64
    requires { IsTrue (is_plan_point p) }
    ensures value { result ≡ abscissa_at p (flat (arrow_along d)) }
    ensures size { unsigned_abs result ≤ greatest_cross }
{
    part(p.x, d.x) + part(p.y, d.y)
}

#[tactic(auto, using(crate::proofs::ProductsFit::products))]
fn part(a: i32, step: i32) -> i64
    requires coordinate_in { unsigned_abs a ≤ greatest_coordinate }
    requires step_in { unsigned_abs step ≤ longest_step }
    ensures value { result ≡ a *ℤ step }
    ensures size { unsigned_abs result ≤ 500000000000 }
{
    a as i64 * step as i64
}

#[tactic(auto, using(crate::proofs::ProductsFit::products))]
fn times(a: i64, den: i128) -> i128
    requires abscissa_in { unsigned_abs a ≤ greatest_cross }
    requires denominator_in { unsigned_abs den ≤ greatest_cross }
    ensures { result ≡ a *ℤ den }
{
    a as i128 * den
}
