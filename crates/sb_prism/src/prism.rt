// The prism of a shape in a frame.
ghost use Rattle.std.specs.Prelude.{IfOk};
ghost use Rattle.sb_fraction.specs.declared.unit.Unit as units;
ghost use Rattle.sb_place.specs.declared.sight.Seen.{Seen as SeenOf};
ghost use Rattle.sb_prism.specs.Shapes.{Shape};
ghost use Rattle.sb_prism.specs.Prisms.{IsPrismOf};
ghost use Rattle.sb_prism.specs.Sound as sound;

use crate::error::PrismError;
use crate::items::shapes::shape_at;
use crate::kept::Extrusion;
use sb_fraction::Unit;
use sb_model::{Frame, Prism, Turn};
use sb_solid::{Judged, SolidError, judge};
use sb_step::StepFile;
use std::alloc::{AllocError, Global};

/// The prism of the shape of this number (IfcProductDefinitionShape), with lengths in this unit, in the frame
/// of a product.
///
/// - `Ok(prism)`: the plan of its profile in whole millimetres, between the heights of its two ends; where the
///   profile stands upright, the box that it fills.
/// - `Err`: exactly where the first holds of `Fields`, `Missing`, `Turned`, `Shape`, `Range`, `OffGrid` and
///   `Loops`; `NoMemory` at any time.
///
/// It reads and judges the shape anew. Of a shape that many products share, keep [`shape_at`] and
/// [`Extrusion::judged`].
pub fn prism_of(
    alloc: Global,
    file: &StepFile<'_>,
    shape: u32,
    frame: &Frame,
    unit: Unit,
) -> Result<Prism, PrismError>
    ensures { IsPrismOf file.now shape frame.now unit result }
{
    let kept = shape_at(alloc, file, shape, unit)?;
    let sound = match kept.sound() {
        Ok(sound) => sound,
        Err(error) => return Err(error),
    };
    let judged = sound.judged(alloc, frame.turn)?;
    match judged.prism(alloc, frame.shift) {
        Ok(prism) => Ok(prism),
        Err(error) => Err(PrismError::from(error)),
    }
}

impl Extrusion {
    /// The solid where a product turns it so, judged once for all products that have the shape and this turn:
    /// [`Judged::placed`] and [`Judged::prism`] answer for the shift of each.
    pub fn judged(&self, alloc: Global, turn: Turn) -> Result<Judged, AllocError>
        ensures { IfOk result (λ kept. (unit : units.Unit) (s : SeenOf Shape) → sound.IsSound unit s self.now
            → sound.IsJudged unit s turn kept) }
    {
        judge(alloc, &self.loops, &self.frame, self.way, turn)
    }
}
