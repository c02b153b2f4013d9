// Profiles of curves as they are read.
ghost use Rattle.std.specs.Prelude.{◌≡◌, ◌++◌, List, [], ◌∷◌, IfOk, OnOk};
ghost use Rattle.sb_place.specs.declared.sight.Seen.{Seen as SeenOf};
ghost use Rattle.sb_prism.specs.Shapes.{Curve, AreEach, IsCurve};
ghost use Rattle.sb_prism.specs.Kept as spec;

use crate::faults::Faults;
use crate::sections::contour::Contour;
use crate::sections::curves::curve_at;
use crate::sections::outline::Outline;
use sb_fraction::Unit;
use sb_list::Listed;
use sb_step::StepFile;
use std::alloc::{AllocError, Global};

/// What is kept of a profile of the outer curve and the inner ones of these numbers.
pub(crate) fn area(
    alloc: Global,
    file: &StepFile<'_>,
    outer: u32,
    inner: &[u32],
    unit: Unit,
) -> Result<Contour, AllocError>
    ensures { IfOk result (λ contour. (curve : SeenOf Curve) × (voids : List (SeenOf Curve))
        × IsCurve file.now outer curve × AreEach (IsCurve file.now) inner.now voids
        × (contour ≡ spec.contour_of unit (curve ∷ voids))) }
{
    let mut contour = no_loops(alloc, Faults::none());
    push_curve(alloc, file, &mut contour, outer, unit)?;
    push_curves(alloc, file, &mut contour, inner, unit)?;
    Ok(contour)
}

/// No loops, and what is at fault.
pub(crate) fn no_loops(alloc: Global, faults: Faults) -> Contour
    ensures { result ≡ spec.without_loops faults }
{
    Contour {
        faults,
        loops: Listed::new(alloc),
    }
}

/// Appends the curves of these numbers.
fn push_curves(
    alloc: Global,
    file: &StepFile<'_>,
    contour: &mut Contour,
    numbers: &[u32],
    unit: Unit,
) -> Result<(), AllocError>
    ensures { OnOk result ((more : List (SeenOf Curve)) × AreEach (IsCurve file.now) numbers.now more
        × ((curves : List (SeenOf Curve)) → contour.old ≡ spec.contour_of unit curves
        → contour.new ≡ spec.contour_of unit (curves ++ more))) }
{
    'numbers: for number in numbers {
        push_curve(alloc, file, contour, *number, unit)?;
    }
    Ok(())
}

/// Appends the curve of this number.
fn push_curve(
    alloc: Global,
    file: &StepFile<'_>,
    contour: &mut Contour,
    number: u32,
    unit: Unit,
) -> Result<(), AllocError>
    ensures { OnOk result ((next : SeenOf Curve) × IsCurve file.now number next
        × ((curves : List (SeenOf Curve)) → contour.old ≡ spec.contour_of unit curves
        → contour.new ≡ spec.contour_of unit (curves ++ next ∷ []))) }
{
    let outline = curve_at(alloc, file, number, unit)?;
    push_loop(contour, outline)
}

/// Appends a loop, with its faults.
fn push_loop(contour: &mut Contour, outline: Outline) -> Result<(), AllocError>
    ensures { OnOk result (contour.new ≡ spec.with_loop contour.old outline) }
{
    let Outline { faults, points } = outline;
    contour.loops.push(points)?;
    contour.faults = contour.faults.and(faults);
    Ok(())
}
