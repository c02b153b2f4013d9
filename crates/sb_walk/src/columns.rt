//! The cells of Bottom and Top over a slab, gap after gap.

ghost use Rattle.std.specs.Prelude.{◌≡◌, ◌&&◌, ◌++◌, OnOk, IsTrue};
ghost use Rattle.sb_fraction.specs.Lines.{arrow_along};
ghost use Rattle.sb_model.specs.PlanEdges.{plan_edges};
ghost use Rattle.sb_model.specs.Surfaces.Sides.{is_abscissa_size};
ghost use Rattle.theory_gaps.specs.Gaps.{edges_at, edges_before};
ghost use Rattle.sb_frame.specs.Directions.{along_x};
ghost use Rattle.sb_frame.specs.Network.{plan_edge_of};
ghost use Rattle.sb_walk.specs.Overlaps.{IsSlabOf};
ghost use Rattle.sb_walk.specs.Present.{ArePresent};
ghost use Rattle.sb_walk.specs.Behind.{HaveNoLayers};
ghost use Rattle.sb_walk.specs.GapsBetween.{IsBetween};
ghost use Rattle.sb_walk.specs.Appended.{AppendsGap};

use crate::cells::cells_of_gap;
use crate::gaps::are_collinear;
use sb_frame::{PlanEdge, Slab};
use sb_model::{Cell, Model};
use std::alloc::AllocError;

/// Appends the cells of a gap; none where the edges beside it are collinear.
pub(crate) fn append_gap(
    list: &mut Vec<Cell>,
    model: &Model,
    slab: &Slab,
    gap: usize,
    below: PlanEdge,
    above: PlanEdge,
    present: &[u32],
) -> Result<(), AllocError>
    requires slab { IsSlabOf model.now slab.now }
    requires direction { arrow_along slab.now.direction ≡ along_x }
    requires ends { IsTrue (is_abscissa_size slab.now.low && is_abscissa_size slab.now.high) }
    requires between { IsBetween (edges_at (plan_edges model.now) slab.now.order) gap (plan_edge_of below) (plan_edge_of above) }
    requires present { ArePresent (edges_before (plan_edges model.now) slab.now.order gap) present.now }
    requires no_layers { HaveNoLayers model.now }
    ensures { OnOk result (AppendsGap model.now slab.now gap (plan_edge_of below) (plan_edge_of above) list.old.items list.new.items) }
{
    if are_collinear(&below.segment, &above.segment) {
        return Ok(());
    }
    let alloc = *list.allocator();
    let own = cells_of_gap(alloc, model, slab, gap, below, above, present)?;
    append(list, own)
}

/// Appends these cells.
fn append(list: &mut Vec<Cell>, own: Vec<Cell>) -> Result<(), AllocError>
    ensures { OnOk result (list.new.items ≡ list.old.items ++ own.items) }
{
    let mut own = own;
    list.append(&mut own)?;
    Ok(())
}
