// The judgement of a shape, whatever product has it.
ghost use Rattle.std.specs.Prelude.{◌≡◌, Err, IfOk};
ghost use Rattle.std.specs.Result.{IfErr};
ghost use Rattle.sb_fraction.specs.declared.unit.Unit as units;
ghost use Rattle.sb_model.specs.declared.frame.Frame.{Frame};
ghost use Rattle.sb_place.specs.declared.sight.Seen.{Seen as SeenOf};
ghost use Rattle.sb_prism.specs.Shapes.{Shape};
ghost use Rattle.sb_prism.specs.Prisms.{Judges};
ghost use Rattle.sb_prism.specs.Kept as spec;
ghost use Rattle.sb_prism.specs.Sound as sound;

use crate::error::PrismError;
use crate::kept::{Extrusion, Kept};

impl Kept {
    /// The one solid of a shape, or the first fault that each product has that has the shape:
    ///
    /// - `Fields(n)`: exactly where an instance of the shape is not of the row of its entity; n is one.
    /// - `Missing(n)`: exactly where one is absent; n is the number of one.
    /// - `Turned`: exactly where a direction of the solid's position or of its rectangle's does not snap.
    /// - `Shape`: exactly where it is no Body of one extruded solid of the three profiles.
    /// - `Range`: exactly where a length is out of range (10^15 nm).
    pub fn sound(&self) -> Result<&Extrusion, PrismError>
        ensures fault { IfErr result (λ e. (unit : units.Unit) (s : SeenOf Shape) → spec.IsKeptOf unit s self.now
            → (frame : Frame) → Judges unit frame s (Err e)) }
        ensures sound { IfOk result (λ extrusion. (unit : units.Unit) (s : SeenOf Shape) → spec.IsKeptOf unit s self.now
            → sound.IsSound unit s extrusion.now) }
    {
        let faults = self.faults;
        if let Some(number) = faults.broken {
            return Err(PrismError::Fields(number));
        }
        if let Some(number) = faults.absent {
            return Err(PrismError::Missing(number));
        }
        if faults.turned {
            return Err(PrismError::Turned);
        }
        if faults.stray {
            return Err(PrismError::Shape);
        }
        if faults.far {
            return Err(PrismError::Range);
        }
        match &self.solid {
            Some(solid) => Ok(solid),
            None => Err(PrismError::Shape),
        }
    }
}
