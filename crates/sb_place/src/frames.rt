// The frame of a product.
ghost use Rattle.std.specs.Prelude.{◌≡◌, ◌≤◌, ◌<◌, ℕ, Bool, List, length, IfOk};
ghost use Rattle.sb_place.specs.Chains as chain;
ghost use Rattle.sb_place.specs.Judgement.{IsFrameOf};
ghost use Rattle.sb_place.specs.Kept as spec;

use crate::error::PlaceError;
use crate::kept::Placed;
use crate::placed::{MOST, placed_on};
use crate::reading::placement_seen;
use crate::sight::Seen;
use sb_fraction::Unit;
use sb_model::Frame;
use sb_step::StepFile;
use std::alloc::{AllocError, Global};

/// The frame of a product whose placement (ObjectPlacement) has this number: it takes a point p of the
/// product to `turn(p) + shift` in the frame of the building, whose placement has the number `building`.
/// It is composed of the placements from the product's up to, and without, the building's, or to the
/// chain's end where the building has none. Lengths are read in this unit.
///
/// The first that holds is answered:
/// - `Fields(n)`: exactly where an instance of the chain is not of the row of its entity; n is one.
/// - `Missing(n)`: exactly where an instance of the chain is absent; n is the number of one.
/// - `Chain`: exactly where the chain ends before it meets the building's placement, has more than 64
///   placements, or has an instance of another entity.
/// - `Turned`: exactly where a direction snaps to no axis, or Axis and RefDirection to the same or to
///   opposite ones.
/// - `Range`: exactly where a coordinate is out of range (10^15 nm), or the whole shift more than
///   10^12 nm in size. A part of it may be beyond that, and come back.
///
/// The entities are those of ISO 16739; limits and order are this project's own.
pub fn frame_of(
    alloc: Global,
    file: &StepFile<'_>,
    placement: Option<u32>,
    building: Option<u32>,
    unit: Unit,
) -> Result<Frame, PlaceError>
    ensures { IsFrameOf file.now placement building unit result }
{
    placed_at(alloc, file, placement, building, unit, MOST)?.frame()
}

/// What is kept of the chain from this reference upwards, of which so many placements are read at most.
fn placed_at(
    alloc: Global,
    file: &StepFile<'_>,
    from: Option<u32>,
    building: Option<u32>,
    unit: Unit,
    left: u32,
) -> Result<Placed, AllocError>
    requires { left ≤ chain.most_placements }
    ensures { IfOk result (spec.IsPlaced file.now building unit left from) }
{
    let Some(number) = from else {
        return Ok(Placed::end(building.is_none()));
    };
    if is_at(building, number) {
        return Ok(Placed::end(true));
    }
    if left == 0 {
        return Ok(Placed::end(false));
    }
    match placement_seen(file, number)? {
        Seen::Absent(n) => Ok(Placed::absent(n)),
        Seen::Broken(n) => Ok(Placed::broken(n)),
        Seen::Other => Ok(Placed::other()),
        Seen::Shown(placement) => {
            let above = placed_at(alloc, file, placement.a1, building, unit, left - 1)?;
            placed_on(alloc, file, &above, placement.a2, unit)
        }
    }
}

/// Whether the building's placement has this number.
fn is_at(building: Option<u32>, number: u32) -> bool
    ensures { result ≡ chain.is_at building number }
{
    match building {
        Some(at) => at == number,
        None => false,
    }
}
