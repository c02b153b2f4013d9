// Extruded solids as they are read.
ghost use Rattle.std.specs.Prelude.{◌≡◌, ◌≤◌, IfOk, unsigned_abs};
ghost use Rattle.sb_fraction.specs.declared.unit.Unit as units;
ghost use Rattle.sb_fixed.specs.Lengths.{greatest_nanometres};
ghost use Rattle.sb_place.specs.declared.sight.Seen.{Seen as SeenOf};
ghost use Rattle.sb_place.specs.declared.sight.Seen.TheVariants as seen;
ghost use Rattle.sb_prism.specs.Shapes.{Solid, IsSolid};
ghost use Rattle.sb_prism.specs.Kept as spec;

use crate::faults::Faults;
use crate::items::heading::{Heading, heading_in};
use crate::kept::Extrusion;
use crate::measure::{Measure, measured_length};
use crate::reading::{direction_at, solid_seen};
use crate::sections::contour::Contour;
use crate::sections::profiles::profile_at;
use crate::sections::rectangles::{nowhere, of_measure, space_local};
use sb_fraction::Unit;
use sb_list::Listed;
use sb_place::{Local, Seen};
use sb_schema::ExtrudedAreaSolid;
use sb_step::StepFile;
use std::alloc::{AllocError, Global};

/// What is kept of the solid of this number (IfcExtrudedAreaSolid).
pub(crate) fn solid_at(
    alloc: Global,
    file: &StepFile<'_>,
    number: u32,
    unit: Unit,
) -> Result<Extrusion, AllocError>
    ensures { IfOk result (λ extrusion. (s : SeenOf Solid) × IsSolid file.now number s × spec.IsExtrusionOf unit s extrusion) }
{
    match solid_seen(alloc, file, number)? {
        Seen::Absent(n) => Ok(no_extrusion(alloc, Faults::absent(n))),
        Seen::Broken(n) => Ok(no_extrusion(alloc, Faults::broken(n))),
        Seen::Other => Ok(no_extrusion(alloc, Faults::stray())),
        Seen::Shown(view) => solid(alloc, file, &view, unit),
    }
}

/// No solid, and what is at fault.
fn no_extrusion(alloc: Global, faults: Faults) -> Extrusion
    ensures { result.faults ≡ faults }
{
    Extrusion {
        faults,
        loops: Listed::new(alloc),
        frame: nowhere().frame,
        way: 0,
    }
}

/// What is kept of a solid.
fn solid(
    alloc: Global,
    file: &StepFile<'_>,
    view: &ExtrudedAreaSolid,
    unit: Unit,
) -> Result<Extrusion, AllocError>
    ensures { IfOk result (λ extrusion. (s : Solid) × spec.IsOfView file.now view.now s
        × spec.IsExtrusionOf unit (seen.Shown s) extrusion) }
{
    let contour = profile_at(alloc, file, view.a1, unit)?;
    let local = space_local(alloc, file, view.a2, unit)?;
    let direction = direction_at(alloc, file, view.a3)?;
    let depth = measured_length(view.a4.bytes(), unit);
    Ok(extrusion(contour, &local, heading_in(&direction), depth))
}

/// What is kept of a solid of these parts.
fn extrusion(contour: Contour, local: &Local, heading: Heading, depth: Measure) -> Extrusion
    requires { spec.IsLengthWhere depth.length }
    ensures { (unit : units.Unit) (s : Solid) → spec.IsContourOf unit s.profile contour
        → local.now ≡ spec.local_where unit s.position → heading ≡ spec.heading_of s.direction
        → depth ≡ spec.measure_of unit s.depth → spec.IsExtrusionOf unit (seen.Shown s) result }
{
    let Contour { faults, loops } = contour;
    let behind = heading.faults.and(of_measure(depth));
    Extrusion {
        faults: faults.and(Faults::of_local(local).and(behind)),
        loops,
        frame: local.frame,
        way: way(heading.upward, depth.length),
    }
}

/// The way along the local z; 0 where the length is out of range.
fn way(upward: bool, depth: Option<i128>) -> i128
    requires { spec.IsLengthWhere depth }
    ensures { result ≡ spec.way_where upward depth }
{
    match depth {
        Some(nm) => signed(upward, nm),
        None => 0,
    }
}

fn signed(upward: bool, nm: i128) -> i128
    requires { unsigned_abs nm ≤ greatest_nanometres }
    ensures { result ≡ spec.signed_way upward nm }
{
    if upward { nm } else { -nm }
}
