//! The spaces that overlap over a slab.

ghost use Rattle.std.specs.Prelude.{◌≡◌, ◌&&◌, ◌<◌, int_lt, length, IfSome, IfNone, IsTrue, None, Some};
ghost use Rattle.std.specs.Option.{option_map};
ghost use Rattle.std.specs.List.{find, AllByRecursion};
ghost use Rattle.sb_fraction.specs.Lines.{arrow_along};
ghost use Rattle.sb_fraction.specs.Numbers.{number};
ghost use Rattle.sb_frame.specs.Directions.{along_x};
ghost use Rattle.sb_frame.specs.Network.{IsNetwork};
ghost use Rattle.sb_walk.specs.Overlaps.{IsSlabOf, IsLeastOverlap, HaveNoOverlapOver};
ghost use Rattle.sb_walk.specs.Shared.{share_over, least_pair};

use crate::gaps::share_a_gap;
use sb_frame::{PlanEdges, Slab};
use sb_model::{Model, Prism, Space};

/// The least pair of spaces that have a common inner point over a slab of (1, 0), by the first number and
/// then by the second.
///
/// - `Some((a, b))`: the spaces a and b, a < b, have one; of all such pairs it is the least.
/// - `None`: exactly where no two spaces have one.
///
/// It takes no memory. For each two spaces whose heights overlap it goes once over the order of the
/// slab.
pub fn overlap(model: &Model, edges: &PlanEdges, slab: &Slab) -> Option<(u32, u32)>
    requires edges { IsNetwork model.now edges.now }
    requires slab { IsSlabOf model.now slab.now }
    requires direction { arrow_along slab.now.direction ≡ along_x }
    ensures some { IfSome result (λ pair. IsLeastOverlap model.now (number slab.now.low) (number slab.now.high) pair.0 pair.1) }
    ensures none { IfNone result (HaveNoOverlapOver model.now (number slab.now.low) (number slab.now.high)) }
{
    least_of(model.spaces().as_slice(), edges, slab.order.as_slice())
}

/// The first of the spaces that shares a gap with a later one, and the first of these.
fn least_of(spaces: &[Space], edges: &PlanEdges, order: &[usize]) -> Option<(u32, u32)>
    requires { AllByRecursion (λ k. k < length edges.now.edges) order.now }
    ensures { result ≡ least_pair edges.now.edges order.now spaces.now }
{
    let mut rest = spaces;
    'spaces: while let Some((first, others)) = rest.split_first() {
        if let Some(other) = first_with(first, others, edges, order) {
            return Some((first.number, other));
        }
        rest = others;
    }
    None
}

/// The first of these spaces that shares a gap with this one.
fn first_with(first: &Space, others: &[Space], edges: &PlanEdges, order: &[usize]) -> Option<u32>
    requires { AllByRecursion (λ k. k < length edges.now.edges) order.now }
    ensures { result ≡ option_map (λ s. s.number) (find (share_over edges.now.edges order.now first.now) others.now) }
{
    let mut rest = others;
    'others: while let Some((other, behind)) = rest.split_first() {
        if are_over(first, other, edges, order) {
            return Some(other.number);
        }
        rest = behind;
    }
    None
}

/// Whether the heights of two spaces overlap and both are present in a gap between two lines.
fn are_over(s: &Space, t: &Space, edges: &PlanEdges, order: &[usize]) -> bool
    requires { AllByRecursion (λ k. k < length edges.now.edges) order.now }
    ensures { result ≡ share_over edges.now.edges order.now s.now t.now }
{
    have_common_heights(&s.prism, &t.prism) && share_a_gap(edges, order, s.number, t.number)
}

fn have_common_heights(p: &Prism, q: &Prism) -> bool
    ensures { result ≡ (int_lt p.now.z0 q.now.z1 && int_lt q.now.z0 p.now.z1) }
{
    p.z0() < q.z1() && q.z0() < p.z1()
}
