//! The walks of Bottom and Top.

ghost use Rattle.std.specs.Prelude.{◌≡◌, ◌≤◌, ◌<◌, length, take, IfOk, IsTrue};
ghost use Rattle.std.specs.List.{AllByRecursion};
ghost use Rattle.sb_fraction.specs.Lines.{arrow_along};
ghost use Rattle.sb_model.specs.Building.{is_building};
ghost use Rattle.sb_model.specs.Walks.{course_of};
ghost use Rattle.theory_gaps.specs.Borders.{ground_along};
ghost use Rattle.theory_gaps.specs.Gaps.{edges_at};
ghost use Rattle.sb_frame.specs.Directions.{along_x};
ghost use Rattle.sb_frame.specs.Network.{IsNetwork};
ghost use Rattle.sb_walk.specs.Overlaps.{IsSlabOf};
ghost use Rattle.sb_walk.specs.Present.{ArePresent};
ghost use Rattle.sb_walk.specs.Behind.{HaveNoLayers};
ghost use Rattle.sb_walk.specs.Ways.{normal_of};
ghost use Rattle.sb_walk.specs.WalksInGaps.{IsWalkInGap, positions_after, read_for};

use crate::heights::positions;
use crate::present::turn;
use crate::reading::walk_from;
use crate::way::Way;
use sb_frame::{PlanEdges, Slab};
use sb_model::{Model, Space, Walk};
use std::alloc::{AllocError, Global};

/// The walk of all plain points of Bottom or Top of a space that lie in a gap of a slab of (1, 0): in gap
/// j lie the points above the first j edges of the slab's order and below the others.
///
/// - `Ok(walk)`: each of these points has this walk.
/// - `Err(AllocError)`: there is no memory.
///
/// No element may have layers along an axis. It goes once over the edges below the gap; then at each
/// height at which a product that is present there begins or ends it looks at these products, up to the
/// end of the walk.
pub fn level_walk(
    alloc: Global,
    model: &Model,
    edges: &PlanEdges,
    slab: &Slab,
    gap: usize,
    space: &Space,
    way: Way,
) -> Result<Walk, AllocError>
    requires edges { IsNetwork model.now edges.now }
    requires slab { IsSlabOf model.now slab.now }
    requires direction { arrow_along slab.now.direction ≡ along_x }
    requires gap { gap ≤ length slab.now.order }
    requires no_layers { HaveNoLayers model.now }
    ensures { IfOk result (IsWalkInGap model.now slab.now gap space.now way) }
{
    let ground = ground_position(model, way);
    let present = present_behind(alloc, edges, first(slab.order.as_slice(), gap))?;
    let positions = positions(alloc, model, present.as_slice(), way, ground)?;
    walk_of_space(
        alloc,
        model,
        present.as_slice(),
        positions.as_slice(),
        space,
        way,
    )
}

/// The walk of a face of a space, by the products that are present in a gap and their positions.
pub(crate) fn walk_of_space(
    alloc: Global,
    model: &Model,
    present: &[u32],
    positions: &[i32],
    space: &Space,
    way: Way,
) -> Result<Walk, AllocError>
    requires no_layers { HaveNoLayers model.now }
    ensures { IfOk result (λ walk. course_of walk ≡ read_for model.now (normal_of way) present.now positions.now space.now.prism) }
{
    let from = way.exit(&space.prism);
    walk_from(alloc, model, present, after(positions, from), way, from)
}

/// The position of the ground.
#[tactic(auto, using(crate::proofs::Ranges::HeightsFit::heights))]
pub(crate) fn ground_position(model: &Model, way: Way) -> i32
    ensures value { result ≡ ground_along (normal_of way) model.now.ground_height }
    ensures is_building { IsTrue (is_building model.now) }
{
    way.ground(model.ground())
}

/// The first `n` places of an order.
fn first(order: &[usize], n: usize) -> &[usize]
    requires { n ≤ length order.now }
    ensures { result.now ≡ take n order.now }
{
    order.split_at(n).0
}

/// The positions behind one, of rising ones.
fn after(positions: &[i32], from: i32) -> &[i32]
    ensures { result.now ≡ positions_after from positions.now }
{
    let mut rest = positions;
    'positions: while let Some((first, others)) = rest.split_first() {
        if from < *first {
            return rest;
        }
        rest = others;
    }
    rest
}

/// The numbers of the products that are present behind these edges, rising.
fn present_behind(
    alloc: Global,
    edges: &PlanEdges,
    places: &[usize],
) -> Result<Vec<u32>, AllocError>
    requires { AllByRecursion (λ k. k < length edges.now.edges) places.now }
    ensures { IfOk result (λ list. ArePresent (edges_at edges.now.edges places.now) list.items) }
{
    let mut list = Vec::new(alloc);
    let mut rest = places;
    'places: while let Some((place, others)) = rest.split_first() {
        turn(&mut list, edges.edge(*place).product)?;
        rest = others;
    }
    Ok(list)
}
