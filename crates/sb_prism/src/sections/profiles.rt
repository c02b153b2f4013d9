// Profiles as they are read.
ghost use Rattle.std.specs.Prelude.{◌≡◌, IfOk, codes, [], ◌∷◌};
ghost use Rattle.sb_schema.specs.Views.{IsOther};
ghost use Rattle.sb_place.specs.declared.sight.Seen.{Seen as SeenOf};
ghost use Rattle.sb_prism.specs.Shapes.{Profile, IsProfile};
ghost use Rattle.sb_prism.specs.Kept as spec;

use crate::faults::Faults;
use crate::reading::{closed_seen, rectangle_seen, voided_seen};
use crate::sections::areas::{area, no_loops};
use crate::sections::contour::Contour;
use crate::sections::rectangles::rectangle;
use sb_fraction::Unit;
use sb_place::Seen;
use sb_step::StepFile;
use std::alloc::{AllocError, Global};

/// What is kept of the profile of this number: a rectangle, or an area without voids or with them.
pub(crate) fn profile_at(
    alloc: Global,
    file: &StepFile<'_>,
    number: u32,
    unit: Unit,
) -> Result<Contour, AllocError>
    ensures { IfOk result (λ contour. (s : SeenOf Profile) × IsProfile file.now number s × spec.IsContourOf unit s contour) }
{
    match rectangle_seen(alloc, file, number)? {
        Seen::Absent(n) => Ok(no_loops(alloc, Faults::absent(n))),
        Seen::Broken(n) => Ok(no_loops(alloc, Faults::broken(n))),
        Seen::Other => closed_at(alloc, file, number, unit),
        Seen::Shown(sides) => rectangle(alloc, file, &sides, unit),
    }
}

/// What is kept of the area without voids of this number, which is no rectangle.
fn closed_at(
    alloc: Global,
    file: &StepFile<'_>,
    number: u32,
    unit: Unit,
) -> Result<Contour, AllocError>
    ensures { IfOk result (λ contour. IsOther (codes "IFCRECTANGLEPROFILEDEF" ∷ []) file.now number
        → (s : SeenOf Profile) × IsProfile file.now number s × spec.IsContourOf unit s contour) }
{
    match closed_seen(file, number)? {
        Seen::Absent(n) => Ok(no_loops(alloc, Faults::absent(n))),
        Seen::Broken(n) => Ok(no_loops(alloc, Faults::broken(n))),
        Seen::Other => voided_at(alloc, file, number, unit),
        Seen::Shown(profile) => area(alloc, file, profile.a3, &[], unit),
    }
}

/// What is kept of the area with voids of this number, which is no other profile.
fn voided_at(
    alloc: Global,
    file: &StepFile<'_>,
    number: u32,
    unit: Unit,
) -> Result<Contour, AllocError>
    ensures { IfOk result (λ contour. IsOther (codes "IFCRECTANGLEPROFILEDEF" ∷ []) file.now number
        → IsOther (codes "IFCARBITRARYCLOSEDPROFILEDEF" ∷ []) file.now number
        → (s : SeenOf Profile) × IsProfile file.now number s × spec.IsContourOf unit s contour) }
{
    match voided_seen(alloc, file, number)? {
        Seen::Absent(n) => Ok(no_loops(alloc, Faults::absent(n))),
        Seen::Broken(n) => Ok(no_loops(alloc, Faults::broken(n))),
        Seen::Other => Ok(no_loops(alloc, Faults::stray())),
        Seen::Shown(profile) => area(alloc, file, profile.a3, profile.a4.as_slice(), unit),
    }
}
