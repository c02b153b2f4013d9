// The buildings of a file, its schema and the classes that are refused.
ghost use Rattle.std.specs.Prelude.{◌≡◌, option_and_then, IfOk};
ghost use Rattle.std.specs.Option.{option_copied};
ghost use Rattle.sb_profile.specs.Contents.{Contents, Says};
ghost use Rattle.sb_profile.specs.Entities.Entity.{building};
ghost use Rattle.sb_profile.specs.Defects as spec;
ghost use Rattle.sb_profile.specs.Following as following;

use crate::reading::lowest::{lowest, lowest_above};
use crate::sights::{Sight, look};
use sb_schema::Building;
use sb_step::StepFile;
use std::alloc::{AllocError, Global};

/// Whether the schema of the file is IFC4.
pub(crate) fn is_ifc4(file: &StepFile<'_>) -> bool
    ensures { (c : Contents) → Says file.now c → result ≡ spec.is_ifc4 c.schema }
{
    is_the_schema(file.schema())
}

fn is_the_schema(schema: Option<&[u8]>) -> bool
    ensures { result ≡ spec.is_ifc4 (option_copied schema.entry) }
{
    match schema {
        Some(text) => b"IFC4".as_slice() == text,
        None => false,
    }
}

/// The number of the defect in the buildings, if there is one: 0 where there is no building, and the
/// second lowest where there are several.
pub(crate) fn in_buildings(buildings: &[u32]) -> Option<u32>
    ensures { result ≡ spec.in_buildings buildings.now }
{
    if buildings.is_empty() {
        return Some(0);
    }
    let first = lowest(buildings)?;
    lowest_above(buildings, first)
}

/// Where the lowest of these buildings is placed.
pub(crate) fn placement(
    alloc: Global,
    file: &StepFile<'_>,
    buildings: &[u32],
) -> Result<Option<u32>, AllocError>
    ensures { IfOk result (λ placement. (c : Contents) → Says file.now c
        → buildings.now ≡ spec.buildings c → placement ≡ following.building_placement c) }
{
    match lowest(buildings) {
        Some(number) => placement_of(alloc, file, number),
        None => Ok(None),
    }
}

fn placement_of(alloc: Global, file: &StepFile<'_>, number: u32) -> Result<Option<u32>, AllocError>
    ensures { IfOk result (λ placement. (c : Contents) → Says file.now c
        → placement ≡ option_and_then (λ v. v.0) (c.given building number)) }
{
    match look::<Building>(alloc, file, number)? {
        Sight::Of(building) => Ok(building.a6),
        _ => Ok(None),
    }
}
