//! The cells of Bottom and Top in a gap of a slab's order.

ghost use Rattle.std.specs.Prelude.{◌≡◌, ◌&&◌, false, IfOk, IsTrue};
ghost use Rattle.sb_fraction.specs.Edges.{are_collinear};
ghost use Rattle.sb_fraction.specs.Lines.{arrow_along};
ghost use Rattle.sb_model.specs.PlanEdges.{plan_edges};
ghost use Rattle.sb_model.specs.Surfaces.Sides.{is_abscissa_size};
ghost use Rattle.theory_gaps.specs.Gaps.{edges_at, edges_before};
ghost use Rattle.sb_frame.specs.Directions.{along_x};
ghost use Rattle.sb_frame.specs.Network.{plan_edge_of};
ghost use Rattle.sb_walk.specs.Overlaps.{IsSlabOf};
ghost use Rattle.sb_walk.specs.Present.{ArePresent};
ghost use Rattle.sb_walk.specs.Behind.{HaveNoLayers};
ghost use Rattle.sb_walk.specs.GapsBetween.{IsBetween};
ghost use Rattle.sb_walk.specs.CellsOfGaps.{IsCellIn, AreForEach};
ghost use Rattle.sb_walk.specs.Strips.{IsOn, IsMade, are_made, HasStrip};

use crate::heights::positions;
use crate::levels::{ground_position, walk_of_space};
use crate::sides::line_through;
use crate::strip::Strip;
use crate::way::Way;
use sb_frame::{PlanEdge, Slab};
use sb_model::{Cell, Face, FaceKind, Model, Patch, Side, Space};
use std::alloc::{AllocError, Global};

/// The cells of Bottom and Top of the spaces that are present in a gap of a slab of (1, 0), by the
/// numbers of the spaces. `below` and `above` are the edges on the two sides of the gap, and do not lie
/// on one line; `present` are the numbers of the products that are present there.
///
/// - `Ok(cells)`: for each of these spaces the cell of Bottom and then that of Top. Each is a fine cell
///   over the slab, all its points are points of its face, and its plain points have its walk. It has no
///   key.
/// - `Err(AllocError)`: there is no memory.
pub(crate) fn cells_of_gap(
    alloc: Global,
    model: &Model,
    slab: &Slab,
    gap: usize,
    below: PlanEdge,
    above: PlanEdge,
    present: &[u32],
) -> Result<Vec<Cell>, AllocError>
    requires slab { IsSlabOf model.now slab.now }
    requires direction { arrow_along slab.now.direction ≡ along_x }
    requires ends { IsTrue (is_abscissa_size slab.now.low && is_abscissa_size slab.now.high) }
    requires between { IsBetween (edges_at (plan_edges model.now) slab.now.order) gap (plan_edge_of below) (plan_edge_of above) }
    requires apart { are_collinear (plan_edge_of below).edge (plan_edge_of above).edge ≡ false }
    requires present { ArePresent (edges_before (plan_edges model.now) slab.now.order gap) present.now }
    requires no_layers { HaveNoLayers model.now }
    ensures { IfOk result (λ list. AreForEach model.now (IsCellIn model.now slab.now (plan_edge_of below) (plan_edge_of above)) present.now list.items) }
{
    let strip = strip_between(model, slab, gap, below, above);
    let down = positions(
        alloc,
        model,
        present,
        Way::Down,
        ground_position(model, Way::Down),
    )?;
    let up = positions(
        alloc,
        model,
        present,
        Way::Up,
        ground_position(model, Way::Up),
    )?;
    cells_of_spaces(
        alloc,
        model,
        &strip,
        present,
        down.as_slice(),
        up.as_slice(),
    )
}

/// The part of a slab between the lines of two edges.
fn strip_between(model: &Model, slab: &Slab, gap: usize, below: PlanEdge, above: PlanEdge) -> Strip
    requires slab { IsSlabOf model.now slab.now }
    requires direction { arrow_along slab.now.direction ≡ along_x }
    requires ends { IsTrue (is_abscissa_size slab.now.low && is_abscissa_size slab.now.high) }
    requires between { IsBetween (edges_at (plan_edges model.now) slab.now.order) gap (plan_edge_of below) (plan_edge_of above) }
    requires apart { are_collinear (plan_edge_of below).edge (plan_edge_of above).edge ≡ false }
    ensures { HasStrip slab.now (plan_edge_of below) (plan_edge_of above) result }
{
    let _ground = model.ground();
    let lower = line_through(&below.segment);
    let upper = line_through(&above.segment);
    Strip {
        low: slab.low,
        high: slab.high,
        lower,
        upper,
    }
}

/// The cells of Bottom and Top of the spaces with these numbers.
fn cells_of_spaces(
    alloc: Global,
    model: &Model,
    strip: &Strip,
    present: &[u32],
    down: &[i32],
    up: &[i32],
) -> Result<Vec<Cell>, AllocError>
    requires no_layers { HaveNoLayers model.now }
    ensures { IfOk result (λ list. AreForEach model.now (are_made model.now strip.now present.now down.now up.now) present.now list.items) }
{
    let mut list = Vec::new(alloc);
    let mut rest = present;
    'numbers: while let Some((number, others)) = rest.split_first() {
        if let Some(space) = model.space(*number) {
            let bottom = cell_of(alloc, model, strip, present, down, space, Way::Down)?;
            let top = cell_of(alloc, model, strip, present, up, space, Way::Up)?;
            list.push(bottom)?;
            list.push(top)?;
        }
        rest = others;
    }
    Ok(list)
}

/// The cell of a face of a space.
fn cell_of(
    alloc: Global,
    model: &Model,
    strip: &Strip,
    present: &[u32],
    positions: &[i32],
    space: &Space,
    way: Way,
) -> Result<Cell, AllocError>
    requires no_layers { HaveNoLayers model.now }
    ensures { IfOk result (IsMade model.now strip.now present.now positions.now space.now way) }
{
    let walk = walk_of_space(alloc, model, present, positions, space, way)?;
    Ok(Cell {
        patch: patch_of(strip, space.number, way),
        walk,
        key: None,
    })
}

/// The patch of a face of a space.
fn patch_of(strip: &Strip, space: u32, way: Way) -> Patch
    ensures { IsOn strip.now space way result }
{
    match way {
        Way::Down => bottom_of(strip, space),
        Way::Up => top_of(strip, space),
    }
}

fn bottom_of(strip: &Strip, space: u32) -> Patch
    ensures { IsOn strip.now space Way.Down result }
{
    Patch {
        face: Face {
            space,
            kind: FaceKind::Bottom,
        },
        low: strip.low,
        high: strip.high,
        lower: Side::OnLine(strip.lower),
        upper: Side::OnLine(strip.upper),
    }
}

fn top_of(strip: &Strip, space: u32) -> Patch
    ensures { IsOn strip.now space Way.Up result }
{
    Patch {
        face: Face {
            space,
            kind: FaceKind::Top,
        },
        low: strip.low,
        high: strip.high,
        lower: Side::OnLine(strip.lower),
        upper: Side::OnLine(strip.upper),
    }
}
