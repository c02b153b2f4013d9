//! The walks of Bottom and Top in the first slab of (1, 0).

ghost use Rattle.std.specs.Prelude.{◌≡◌, ◌<◌};
ghost use Rattle.std.specs.List.{list_all};
ghost use Rattle.sb_frame.specs.Network.{IsNetwork};
ghost use Rattle.sb_walk.specs.Behind.{has_no_axis};

use crate::rooms::{Room, model_of};
use crate::told::along_x;
use sb_fraction::Steps;
use sb_frame::PlanEdges;
use sb_model::{Element, End, Item, Layering, Model, Walk};
use sb_slab::SlabOrders;
use sb_walk::{Way, level_walk};
use std::alloc::{AllocError, Global};
use std::marker::Brand;
use std::sync::ledger::{Blank, Ledger};

/// What is wanted of a walk: how many items it has, the element and the thickness in micrometres (µm) of
/// the first, if any, its depth and its end.
#[derive(Clone, Copy)]
pub struct Wanted {
    pub items: usize,
    pub element: u32,
    pub thickness: i128,
    pub depth: i64,
    pub end: End,
}

/// Whether the walk of a room, counted from 0, in a gap of the first slab is as wanted.
pub fn is_told(
    alloc: Global,
    rooms: &[Room],
    solids: &[Room],
    gap: usize,
    room: usize,
    way: Way,
    wanted: Wanted,
) -> Result<bool, AllocError> {
    let Some(model) = model_of(alloc, rooms, solids)? else {
        return Ok(false);
    };
    match PlanEdges::new(alloc, &model) {
        Ok(edges) => {
            match walk_in::<Brand>(alloc, Blank::new(1), &model, &edges, gap, room, way)? {
                Some(walk) => Ok(is_wanted(&walk, wanted)),
                None => Ok(false),
            }
        }
        Err(_) => Ok(false),
    }
}

/// The walk in the first slab.
fn walk_in<L: Ledger>(
    alloc: Global,
    blank: Blank,
    model: &Model,
    edges: &PlanEdges,
    gap: usize,
    room: usize,
    way: Way,
) -> Result<Option<Walk>, AllocError>
    requires name { blank.name ≡ L.name }
    requires parts { blank.parts ≡ L.parts }
    requires some_part { 0 < L.parts }
    requires network { IsNetwork model.now edges.now }
{
    if !have_no_layers(model.elements().as_slice()) {
        return Ok(None);
    }
    let mut steps: Steps<L> = Steps::new(blank);
    let mut slabs = SlabOrders::new(alloc, edges, along_x())?;
    let Some(slab) = slabs.next(&mut steps)? else {
        return Ok(None);
    };
    if gap > slab.order.len() {
        return Ok(None);
    }
    match model.spaces().get(room) {
        None => Ok(None),
        Some(space) => {
            let walk = level_walk(alloc, model, edges, &slab, gap, space, way)?;
            Ok(Some(walk))
        }
    }
}

fn have_no_layers(elements: &[Element]) -> bool
    ensures { result ≡ list_all (λ e. has_no_axis e.layering) elements.now }
{
    let mut rest = elements;
    'elements: while let Some((first, others)) = rest.split_first() {
        if !is_bare(&first.layering) {
            return false;
        }
        rest = others;
    }
    true
}

fn is_bare(layering: &Layering) -> bool
    ensures { result ≡ has_no_axis layering.now }
{
    match layering {
        Layering::Plain | Layering::Single(_) => true,
        Layering::Layered(_, _) => false,
    }
}

fn is_wanted(walk: &Walk, wanted: Wanted) -> bool {
    let items = walk.items.as_slice();
    let first = match items.first() {
        Some(item) => is_item(item, wanted),
        None => true,
    };
    first && items.len() == wanted.items && walk.depth == wanted.depth && walk.end == wanted.end
}

fn is_item(item: &Item, wanted: Wanted) -> bool {
    item.element == wanted.element
        && item.layer == 0
        && item.thickness.num() == wanted.thickness
        && item.thickness.den() == 1
}
