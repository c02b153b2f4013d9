//! The plan edges of a model in their order.

ghost use Rattle.std.specs.Prelude.{◌≡◌, ◌++◌, ◌≤◌, ◌<◌, ◌+◌, None, map, length, IfSome, IfOk, OnOk, IsTrue};
ghost use Rattle.std.specs.Prelude.{IfNone};
ghost use Rattle.std.specs.List.{list_all};
ghost use Rattle.sb_fraction.specs.Edges.{edge};
ghost use Rattle.theory_plans.specs.LoopEdges.{edges_back, edges_of_loop, edges_of};
ghost use Rattle.theory_plans.specs.Plans.{is_plan};
ghost use Rattle.sb_model.specs.PlanEdges.{plan_edges as edges_of_model};
ghost use Rattle.sb_frame.specs.Network.{plan_edge_of, plan_edges_of, product_beyond, most_edges};
ghost use Rattle.sb_frame.specs.Owners.{edge_in, own_edges, is_proper_edge};

use crate::edge::PlanEdge;
use crate::owners::{Owner, Queue};
use sb_fraction::{Point, Segment};
use sb_model::{Model, PointLists, Points};
use std::alloc::{AllocError, Global};

/// How many plan edges a model may have.
const MOST_EDGES: usize = 2048;

/// The number of the product whose edges pass the limit; `None` where no product's do. No edge is
/// looked at: they are counted as the points of loops.
pub(crate) fn first_beyond(model: &Model) -> Option<u32>
    ensures { result ≡ product_beyond most_edges (edges_of_model model.now) }
{
    let mut queue = Queue::of(model);
    let mut count = 0;
    'owners: while let Some(owner) = queue.take_first() {
        match counted(count, owner.loops.as_slice(), MOST_EDGES) {
            Some(more) => count = more,
            None => return Some(owner.number),
        }
    }
    None
}

/// So many edges and those of these loops, unless they are more than `most`.
fn counted(before: usize, loops: &[Points], most: usize) -> Option<usize>
    requires { before ≤ most }
    ensures some { IfSome result (λ count. count ≡ before + length (edges_of loops.now)) }
    ensures within { IfSome result (λ count. count ≤ most) }
    ensures none { IfNone result (most < before + length (edges_of loops.now)) }
{
    let mut count = before;
    'loops: for points in loops {
        let len = points.len();
        if len > most - count {
            return None;
        }
        count += len;
    }
    Some(count)
}

/// The plan edges of a model.
pub(crate) fn plan_edges(alloc: Global, model: &Model) -> Result<Vec<PlanEdge>, AllocError>
    ensures { IfOk result (λ list. plan_edges_of list.items ≡ edges_of_model model.now) }
{
    let mut list = Vec::new(alloc);
    let mut queue = Queue::of(model);
    'owners: while let Some(owner) = queue.take_first() {
        append(&mut list, owner.number, owner.loops)?;
    }
    Ok(list)
}

/// Appends the edges of a product.
pub(crate) fn append(
    list: &mut Vec<PlanEdge>,
    number: u32,
    loops: &PointLists,
) -> Result<(), AllocError>
    requires { IsTrue (is_plan loops.now) }
    ensures { OnOk result (plan_edges_of list.new.items ≡ plan_edges_of list.old.items ++ map (edge_in number) (edges_of loops.now)) }
{
    append_loops(list, number, loops.as_slice())
}

fn append_loops(list: &mut Vec<PlanEdge>, number: u32, loops: &[Points]) -> Result<(), AllocError>
    requires { IsTrue (list_all is_proper_edge (edges_of loops.now)) }
    ensures { OnOk result (plan_edges_of list.new.items ≡ plan_edges_of list.old.items ++ map (edge_in number) (edges_of loops.now)) }
{
    'loops: for points in loops {
        append_loop(list, number, points.as_slice())?;
    }
    Ok(())
}

fn append_loop(list: &mut Vec<PlanEdge>, number: u32, points: &[Point]) -> Result<(), AllocError>
    requires { IsTrue (list_all is_proper_edge (edges_of_loop points.now)) }
    ensures { OnOk result (plan_edges_of list.new.items ≡ plan_edges_of list.old.items ++ map (edge_in number) (edges_of_loop points.now)) }
{
    match points.split_first() {
        None => Ok(()),
        Some((first, others)) => append_from(list, number, *first, others),
    }
}

/// The edges from the first point on, and back to it.
fn append_from(
    list: &mut Vec<PlanEdge>,
    number: u32,
    first: Point,
    others: &[Point],
) -> Result<(), AllocError>
    requires { IsTrue (list_all is_proper_edge (edges_back first others.now first)) }
    ensures { OnOk result (plan_edges_of list.new.items ≡ plan_edges_of list.old.items ++ map (edge_in number) (edges_back first others.now first)) }
{
    let mut at = first;
    'points: for next in others {
        list.push(plan_edge(number, at, *next))?;
        at = *next;
    }
    list.push(plan_edge(number, at, first))?;
    Ok(())
}

fn plan_edge(number: u32, a: Point, b: Point) -> PlanEdge
    requires { IsTrue (is_proper_edge (edge a b)) }
    ensures { plan_edge_of result ≡ edge_in number (edge a b) }
{
    PlanEdge {
        segment: Segment { a, b },
        product: number,
    }
}
