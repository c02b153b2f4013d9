//! How much the slabs of a direction tell.

ghost use Rattle.std.specs.Prelude.{◌≡◌, ◌<◌};

use sb_fraction::{Direction, Steps};
use sb_frame::PlanEdges;
use sb_slab::SlabOrders;
use std::alloc::{AllocError, Global};
use std::marker::Brand;
use std::sync::ledger::{Blank, Ledger};

/// How many slabs there are, and how many places they have in all.
#[derive(Clone, Copy)]
pub(crate) struct Told {
    pub(crate) slabs: u64,
    pub(crate) places: u64,
}

pub(crate) fn count_slabs(
    alloc: Global,
    edges: &PlanEdges,
    d: Direction,
) -> Result<Told, AllocError> {
    count_by::<Brand>(alloc, Blank::new(1), edges, d)
}

fn count_by<L: Ledger>(
    alloc: Global,
    blank: Blank,
    edges: &PlanEdges,
    d: Direction,
) -> Result<Told, AllocError>
    requires name { blank.name ≡ L.name }
    requires parts { blank.parts ≡ L.parts }
    requires some_part { 0 < L.parts }
{
    let mut steps: Steps<L> = Steps::new(blank);
    let mut slabs = SlabOrders::new(alloc, edges, d)?;
    let mut told = Told {
        slabs: 0,
        places: 0,
    };
    for _ in 0..10_000u16 {
        let Some(slab) = slabs.next(&mut steps)? else {
            return Ok(told);
        };
        told = Told {
            slabs: told.slabs.saturating_add(1),
            places: told.places.saturating_add(slab.order.len() as u64),
        };
    }
    Ok(told)
}
