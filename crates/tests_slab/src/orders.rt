//! What the slabs of a direction are told to be, one after another.

ghost use Rattle.std.specs.Prelude.{◌≡◌, ◌<◌};

use sb_fraction::{Direction, Steps};
use sb_frame::{PlanEdges, Slab};
use sb_model::Model;
use sb_slab::SlabOrders;
use std::alloc::{AllocError, Global};
use std::marker::Brand;
use std::sync::ledger::{Blank, Ledger};

/// Stands after the places of each slab.
pub const END: usize = 9998;

/// Stands where there is no slab.
pub const NONE: usize = 9999;

/// Whether so many calls tell just these places, those of each slab followed by `END`.
pub fn are_orders(
    alloc: Global,
    model: Option<Model>,
    d: Direction,
    calls: u16,
    wanted: &[usize],
) -> Result<bool, AllocError> {
    let Some(model) = model else {
        return Ok(false);
    };
    match PlanEdges::new(alloc, &model) {
        Ok(edges) => {
            let told = told_by::<Brand>(alloc, Blank::new(1), &edges, d, calls)?;
            Ok(are_same(told.as_slice(), wanted))
        }
        Err(_) => Ok(false),
    }
}

fn are_same(told: &[usize], wanted: &[usize]) -> bool {
    told.len() == wanted.len() && told.iter().zip(wanted).all(|(a, b)| *a == *b)
}

/// What so many calls tell.
fn told_by<L: Ledger>(
    alloc: Global,
    blank: Blank,
    edges: &PlanEdges,
    d: Direction,
    calls: u16,
) -> Result<Vec<usize>, AllocError>
    requires name { blank.name ≡ L.name }
    requires parts { blank.parts ≡ L.parts }
    requires some_part { 0 < L.parts }
{
    let mut steps: Steps<L> = Steps::new(blank);
    let mut slabs = SlabOrders::new(alloc, edges, d)?;
    let mut told = Vec::new(alloc);
    for _ in 0..calls {
        let slab = slabs.next(&mut steps)?;
        tell(&mut told, slab)?;
    }
    Ok(told)
}

/// Puts the places of a slab and `END`, or `NONE`.
fn tell(told: &mut Vec<usize>, slab: Option<Slab>) -> Result<(), AllocError> {
    let Some(slab) = slab else {
        told.push(NONE)?;
        return Ok(());
    };
    for place in slab.order.as_slice() {
        told.push(*place)?;
    }
    told.push(END)?;
    Ok(())
}
