//! Which spaces overlap over the slabs of (1, 0), one slab after another.

ghost use Rattle.std.specs.Prelude.{◌≡◌, ◌<◌};
ghost use Rattle.sb_fraction.specs.Lines.{arrow_along};
ghost use Rattle.sb_frame.specs.Directions.{along_x as way_x};
ghost use Rattle.sb_frame.specs.Network.{IsNetwork};

use crate::rooms::{Room, model_of};
use sb_fraction::{Direction, Steps};
use sb_frame::PlanEdges;
use sb_model::Model;
use sb_slab::SlabOrders;
use sb_walk::overlap;
use std::alloc::{AllocError, Global};
use std::marker::Brand;
use std::sync::ledger::{Blank, Ledger};

/// Stands for a slab over which no two spaces overlap.
pub const NONE: (u32, u32) = (0, 0);

/// Whether over the slabs of (1, 0) just these pairs of rooms overlap, the least pair of each slab.
pub fn are_overlaps(
    alloc: Global,
    rooms: &[Room],
    wanted: &[(u32, u32)],
) -> Result<bool, AllocError> {
    let Some(model) = model_of(alloc, rooms, &[])? else {
        return Ok(false);
    };
    match PlanEdges::new(alloc, &model) {
        Ok(edges) => {
            let told = told_by::<Brand>(alloc, Blank::new(1), &model, &edges)?;
            Ok(are_same(told.as_slice(), wanted))
        }
        Err(_) => Ok(false),
    }
}

fn are_same(told: &[(u32, u32)], wanted: &[(u32, u32)]) -> bool {
    told.len() == wanted.len() && told.iter().zip(wanted).all(|(a, b)| *a == *b)
}

/// The least pair of each slab.
fn told_by<L: Ledger>(
    alloc: Global,
    blank: Blank,
    model: &Model,
    edges: &PlanEdges,
) -> Result<Vec<(u32, u32)>, AllocError>
    requires name { blank.name ≡ L.name }
    requires parts { blank.parts ≡ L.parts }
    requires some_part { 0 < L.parts }
    requires network { IsNetwork model.now edges.now }
{
    let mut steps: Steps<L> = Steps::new(blank);
    let mut slabs = SlabOrders::new(alloc, edges, along_x())?;
    let mut told = Vec::new(alloc);
    'slabs: for _ in 0..100u16 {
        let Some(slab) = slabs.next(&mut steps)? else {
            return Ok(told);
        };
        told.push(pair_or_none(overlap(model, edges, &slab)))?;
    }
    Ok(told)
}

pub(crate) fn along_x() -> Direction
    ensures { arrow_along result ≡ way_x }
{
    Direction { x: 1, y: 0 }
}

fn pair_or_none(pair: Option<(u32, u32)>) -> (u32, u32) {
    match pair {
        Some(pair) => pair,
        None => NONE,
    }
}
