//! Which plan edges have a crossing strictly inside.

ghost use Rattle.std.specs.Prelude.{◌≡◌, map, IfOk, IsTrue};
ghost use Rattle.sb_fraction.specs.Spots.{spot_of};
ghost use Rattle.sb_fraction.specs.Edges.{edge_of, is_in_range, is_within};
ghost use Rattle.sb_frame.specs.Network.{plan_edges_of};
ghost use Rattle.sb_frame.specs.Through.{places_through, IsCellOf};

use crate::cell::Cell;
use crate::crossing::Crossing;
use crate::edge::PlanEdge;
use crate::seen::{Seen, is_amid};
use crate::slab::Indices;
use sb_fraction::Segment;
use sb_list::Listed;
use std::alloc::{AllocError, Global};

/// For each crossing the places of the plan edges that have it strictly inside.
pub(crate) fn through_each(
    alloc: Global,
    edges: &[PlanEdge],
    list: &[Crossing],
) -> Result<Listed<Indices>, AllocError>
    ensures { IfOk result (λ places. places ≡ map (λ c. places_through (plan_edges_of edges.now) (spot_of c.point)) list.now) }
{
    let mut places = Listed::new(alloc);
    'crossings: for crossing in list {
        places.push(through(alloc, edges, *crossing)?)?;
    }
    Ok(places)
}

/// The places of the plan edges that have the crossing strictly inside. Of the edges beside its square
/// millimetre alone this is worked out.
fn through(alloc: Global, edges: &[PlanEdge], c: Crossing) -> Result<Indices, AllocError>
    ensures { IfOk result (λ list. list ≡ places_through (plan_edges_of edges.now) (spot_of c.point)) }
{
    let cell = Cell::of(&c.point);
    let mut list = Listed::new(alloc);
    'edges: for place in 0..edges.len() {
        let edge = edges[place];
        if is_inside(&edge.segment, c, cell) {
            list.push(place)?;
        }
    }
    Ok(list)
}

/// Whether the crossing in this square millimetre lies strictly inside the segment.
fn is_inside(s: &Segment, c: Crossing, cell: Cell) -> bool
    requires segment_in { IsTrue (is_in_range (edge_of s.now)) }
    requires cell { IsCellOf (spot_of c.point) cell.x cell.y }
    ensures { result ≡ is_within (spot_of c.point) (edge_of s.now) }
{
    cell.is_by(s) && is_amid(Seen::from(&c.point, s.a), Seen::from(&c.point, s.b))
}
