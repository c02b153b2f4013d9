// The frames of products: each placement is read once.
ghost use Rattle.std.specs.Prelude.{◌≢◌, ◌≡◌, ℕ, nat_eq, Option, Some, Err, IfOk, OnOk, if◌then◌else◌};
ghost use Rattle.sb_fraction.specs.declared.unit.Unit as units;
ghost use Rattle.sb_step.specs.Indexed.{Indexed};
ghost use Rattle.std.specs.Ordering.{nat_cmp};
ghost use Rattle.std.specs.BTreeMap.{get};
ghost use Rattle.sb_place.specs.Chains as chain;
ghost use Rattle.sb_place.specs.Judgement.{IsFrameOf};
ghost use Rattle.sb_place.specs.Sight.{IsSeen};
ghost use Rattle.sb_schema.specs.Rows as rows;
ghost use Rattle.sb_building.specs.Frames as spec;

use sb_fraction::Unit;
use sb_model::Frame;
use sb_place::{PlaceError, Placed, Seen, frame_of, placed_on, sighted};
use sb_schema::{LocalPlacement, local_placement};
use sb_step::StepFile;
use std::alloc::{AllocError, Global};
use std::collections::BTreeMap;

/// What is kept of placements (IfcLocalPlacement), by their numbers.
pub type Placements = BTreeMap<u32, Placed>;

/// How many placements of a chain are read.
const MOST: u32 = 64;

/// Nothing is known yet.
pub fn no_placements(alloc: Global) -> Placements
    ensures { (indexed : Indexed) (building : Option ℕ) (unit : units.Unit)
        → spec.AreKnown indexed building unit (get nat_cmp result) }
{
    BTreeMap::new(alloc)
}

/// The frame of a product on this placement (its attribute ObjectPlacement), exactly as `frame_of` of
/// `sb_place` answers it: `Chain`, `Turned`, `Range`, or an instance that is not of its row or is absent.
/// Shifts are in nanometres (nm).
///
/// What is read of placements is kept in `known`, so that each is read once however many products stand
/// on it. It begins with [`no_placements`], and serves one file, one unit and one placement of the building.
pub fn frame_in(
    alloc: Global,
    file: &StepFile<'_>,
    known: &mut Placements,
    placement: Option<u32>,
    building: Option<u32>,
    unit: Unit,
) -> Result<Frame, PlaceError>
    requires { spec.AreKnown file.now building unit (get nat_cmp known.now) }
    ensures frame { IsFrameOf file.now placement building unit result }
    ensures known { result ≢ Err PlaceError.NoMemory
        → spec.AreKnown file.now building unit (get nat_cmp known.new) }
{
    match placed_from(alloc, file, known, placement, building, unit, MOST)? {
        Some(placed) => placed.frame(),
        None => frame_of(alloc, file, placement, building, unit),
    }
}

/// What is kept of the chain from this reference upwards; `None` where it is longer than so many
/// placements.
fn placed_from(
    alloc: Global,
    file: &StepFile<'_>,
    known: &mut Placements,
    from: Option<u32>,
    building: Option<u32>,
    unit: Unit,
    left: u32,
) -> Result<Option<Placed>, AllocError>
    requires { spec.AreKnown file.now building unit (get nat_cmp known.now) }
    ensures kept { IfOk result (spec.IsKeptWhere file.now building unit from) }
    ensures known { OnOk result (spec.AreKnown file.now building unit (get nat_cmp known.new)) }
{
    let Some(number) = from else {
        return Ok(Some(Placed::end(building.is_none())));
    };
    if is_at(building, number) {
        return Ok(Some(Placed::end(true)));
    }
    if let Some(placed) = known_at(known, number) {
        return Ok(Some(placed));
    }
    if left == 0 {
        return Ok(None);
    }
    match placement_seen(file, number)? {
        Seen::Absent(n) => keep(known, number, Placed::absent(n)),
        Seen::Broken(n) => keep(known, number, Placed::broken(n)),
        Seen::Other => keep(known, number, Placed::other()),
        Seen::Shown(placement) => {
            match placed_from(alloc, file, known, placement.a1, building, unit, left - 1)? {
                None => Ok(None),
                Some(above) => {
                    let placed = placed_on(alloc, file, &above, placement.a2, unit)?;
                    keep(known, number, placed)
                }
            }
        }
    }
}

/// What is kept of this placement, if it is known.
fn known_at(known: &Placements, number: u32) -> Option<Placed>
    ensures { result ≡ get nat_cmp known.now number }
{
    known.get(&number).copied()
}

/// Keeps what is known of a placement.
fn keep(known: &mut Placements, number: u32, placed: Placed) -> Result<Option<Placed>, AllocError>
    ensures value { IfOk result (λ kept. kept ≡ Some placed) }
    ensures known { OnOk result ((q : ℕ) → get nat_cmp known.new q
        ≡ (if nat_eq q number then Some placed else get nat_cmp known.old q)) }
{
    known.insert(number, placed)?;
    Ok(known_at(known, number))
}

/// What is seen of an IfcLocalPlacement.
fn placement_seen(file: &StepFile<'_>, number: u32) -> Result<Seen<LocalPlacement>, AllocError>
    ensures { IfOk result (λ s. IsSeen rows.local_placement file.now number (λ v. (v.a1, (v.a2, tt))) s) }
{
    let view = local_placement(file, number);
    sighted(view)
}

/// Whether the building's placement has this number.
fn is_at(building: Option<u32>, number: u32) -> bool
    ensures { result ≡ chain.is_at building number }
{
    match building {
        Some(at) => at == number,
        None => false,
    }
}
