// Shapes as they are read.
ghost use Rattle.std.specs.Prelude.{◌≡◌, ◌≢◌, List, Some, length, IfOk};
ghost use Rattle.std.specs.List.{flat_map};
ghost use Rattle.sb_place.specs.declared.sight.Seen.{Seen as SeenOf};
ghost use Rattle.sb_prism.specs.Shapes.{Solid, Shape, AreEach, AreItems, IsSolid, IsShape};
ghost use Rattle.sb_prism.specs.Kept as spec;

use crate::faults::Faults;
use crate::items::bodies::body_among;
use crate::items::body::Body;
use crate::items::solids::solid_at;
use crate::kept::Kept;
use crate::reading::shape_seen;
use sb_fraction::Unit;
use sb_place::Seen;
use sb_schema::References;
use sb_step::StepFile;
use std::alloc::{AllocError, Global};

/// What is kept of the shape of this number (IfcProductDefinitionShape), with lengths in this unit: of its
/// faults the first of each kind, and the one solid of its first Body. It is the same for each product that
/// has the shape.
pub fn shape_at(
    alloc: Global,
    file: &StepFile<'_>,
    number: u32,
    unit: Unit,
) -> Result<Kept, AllocError>
    ensures { IfOk result (λ kept. (s : SeenOf Shape) × IsShape file.now number s × spec.IsKeptOf unit s kept) }
{
    match shape_seen(alloc, file, number)? {
        Seen::Absent(n) => Ok(no_solid(Faults::absent(n))),
        Seen::Broken(n) => Ok(no_solid(Faults::broken(n))),
        Seen::Other => Ok(no_solid(Faults::stray())),
        Seen::Shown(shape) => {
            let body = body_among(alloc, file, shape.a3.as_slice())?;
            body_kept(alloc, file, body, unit)
        }
    }
}

/// No solid, and what is at fault.
fn no_solid(faults: Faults) -> Kept
    ensures { result ≡ spec.without_solid faults }
{
    Kept {
        faults,
        solid: None,
    }
}

/// What is kept of a shape whose representations have this body.
fn body_kept(alloc: Global, file: &StepFile<'_>, body: Body, unit: Unit) -> Result<Kept, AllocError>
    ensures { IfOk result (λ kept. (items : spec.Items) × AreItems file.now body.items items
        × (kept.faults ≡ spec.joined body.faults (spec.items_faults unit items)) × spec.KeepsOnly unit items kept) }
{
    let Body { faults, items } = body;
    let kept = items_where(alloc, file, &items, unit)?;
    Ok(Kept {
        faults: faults.and(kept.faults),
        solid: kept.solid,
    })
}

fn items_where(
    alloc: Global,
    file: &StepFile<'_>,
    items: &Option<References>,
    unit: Unit,
) -> Result<Kept, AllocError>
    ensures { IfOk result (λ kept. (solids : spec.Items) × AreItems file.now items.now solids
        × spec.IsItemsOf unit solids kept) }
{
    match items {
        None => Ok(no_solid(Faults::stray())),
        Some(numbers) => items_of(alloc, file, numbers.as_slice(), unit),
    }
}

/// What is kept of the items of these numbers.
fn items_of(
    alloc: Global,
    file: &StepFile<'_>,
    numbers: &[u32],
    unit: Unit,
) -> Result<Kept, AllocError>
    ensures { IfOk result (λ kept. (solids : List (SeenOf Solid)) × AreEach (IsSolid file.now) numbers.now solids
        × spec.IsItemsOf unit (Some solids) kept) }
{
    if numbers.len() == 1 {
        let solid = solid_at(alloc, file, numbers[0], unit)?;
        Ok(Kept {
            faults: solid.faults,
            solid: Some(solid),
        })
    } else {
        several(alloc, file, numbers, unit)
    }
}

/// What is kept of several items, or of none: their instances at fault.
fn several(
    alloc: Global,
    file: &StepFile<'_>,
    numbers: &[u32],
    unit: Unit,
) -> Result<Kept, AllocError>
    requires { length numbers.now ≢ 1 }
    ensures { IfOk result (λ kept. (solids : List (SeenOf Solid)) × AreEach (IsSolid file.now) numbers.now solids
        × spec.IsItemsOf unit (Some solids) kept) }
{
    let mut faults = Faults::stray();
    'numbers: for number in numbers {
        let solid = solid_at(alloc, file, *number, unit)?;
        faults = faults.and(instances_alone(solid.faults));
    }
    Ok(no_solid(faults))
}

/// Of these faults those of instances alone.
fn instances_alone(faults: Faults) -> Faults
    ensures { result ≡ spec.instances_alone faults }
{
    Faults {
        broken: faults.broken,
        absent: faults.absent,
        turned: false,
        stray: false,
        far: false,
    }
}
