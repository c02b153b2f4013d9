//! The directions in which a model is gone through.

ghost use Rattle.std.specs.Prelude.{◌≡◌, ◌∷◌, [], map, length, IfOk, IsPermutation};
ghost use Rattle.sb_fraction.specs.Lines.{arrow_along};
ghost use Rattle.std.specs.Ordering.{is_eq};
ghost use Rattle.sb_frame.specs.Network.{plan_edge_of, plan_edges_of};
ghost use Rattle.sb_frame.specs.Directions.{AreDirections, space_edges, axis_and_headings, heading};
ghost use Rattle.sb_frame.specs.Directions.{order_of_directions as directions_order};
ghost use Rattle.sb_frame.specs.Rising.{IsRisingOf};

use crate::edge::PlanEdge;
use crate::reading::append;
use sb_fraction::Direction;
use sb_list::Listed;
use sb_model::{Model, Space};
use sb_points::heading_of;
use std::alloc::{AllocError, Global};
use std::cmp::Ordering;

/// Directions in plan.
pub type Directions = Listed<Direction>;

/// The directions in which a model is gone through: (1, 0) and those of the sides of its spaces, each
/// once, by rising x and then y.
pub fn directions(alloc: Global, model: &Model) -> Result<Directions, AllocError>
    ensures { IfOk result (AreDirections model.now) }
{
    let edges = edges_of_spaces(alloc, model.spaces().as_slice())?;
    let list = each_once(headings(alloc, edges.as_slice())?);
    Listed::from_slice(alloc, list.as_slice())
}

/// The directions by x and then by y, each once.
fn each_once(list: Vec<Direction>) -> Vec<Direction>
    ensures { IsRisingOf directions_order list.items result.items }
{
    let mut list = list;
    list.sort_unstable_by(|a, b| order_of_directions(*a, *b));
    list.dedup_by(|a, b| is_same(*a, *b));
    list
}

/// The edges of spaces.
fn edges_of_spaces(alloc: Global, spaces: &[Space]) -> Result<Vec<PlanEdge>, AllocError>
    ensures { IfOk result (λ list. plan_edges_of list.items ≡ space_edges spaces.now) }
{
    let mut list = Vec::new(alloc);
    'spaces: for space in spaces {
        append(&mut list, space.number, space.prism.loops().points())?;
    }
    Ok(list)
}

/// (1, 0), and the direction of each edge.
fn headings(alloc: Global, edges: &[PlanEdge]) -> Result<Vec<Direction>, AllocError>
    ensures { IfOk result (λ list. map arrow_along list.items ≡ axis_and_headings (plan_edges_of edges.now)) }
{
    let mut list = Vec::new(alloc);
    list.push(Direction { x: 1, y: 0 })?;
    'edges: for edge in edges {
        list.push(direction_of(*edge))?;
    }
    Ok(list)
}

fn direction_of(edge: PlanEdge) -> Direction
    ensures { arrow_along result ≡ heading (plan_edge_of edge).edge }
{
    heading_of(edge.segment.a, edge.segment.b).direction
}

/// By x, then by y.
fn order_of_directions(a: Direction, b: Direction) -> Ordering
    ensures { result ≡ directions_order a b }
{
    a.x.cmp(&b.x).then(a.y.cmp(&b.y))
}

fn is_same(a: Direction, b: Direction) -> bool
    ensures { result ≡ is_eq (directions_order a b) }
{
    match order_of_directions(a, b) {
        Ordering::Equal => true,
        Ordering::Less | Ordering::Greater => false,
    }
}
