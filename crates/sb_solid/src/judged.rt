// What is kept of a solid under one turn, wherever it is moved.
ghost use Rattle.std.specs.Prelude.{◌≡◌, false};
ghost use Rattle.sb_model.specs.Frames.{vector_of};
ghost use Rattle.sb_solid.specs.Solids.{Extruded, JudgesAt, is_beyond, is_off_grid};
ghost use Rattle.sb_solid.specs.Judged as spec;

use crate::error::SolidError;
use crate::placing::Placing;
use crate::points::lying::wide;
use crate::points::sizes::Lying;
use sb_model::Prism;
use std::alloc::Global;

/// An extruded solid under one turn, judged once for all shifts: where its coordinates lie, and its prism,
/// where its loops give one.
#[derive(Drop)]
pub struct Judged {
    pub(crate) way: Lying,
    pub(crate) placing: Option<Placing>,
}

impl Judged {
    /// How many points the loops of the solid's prism have where it is moved by this shift, in nanometres
    /// (nm), or why it has none. It takes no memory, and the same time for any solid.
    ///
    /// - `Range`: exactly where a world coordinate is more than 500 m and 10 µm from the origin.
    /// - `OffGrid`: exactly where all are in range, and one lies more than 10 µm from every whole millimetre.
    /// - `Loops`: exactly where all lie on the grid, and the loops give no prism.
    pub fn placed(&self, shift: [i128; 3]) -> Result<usize, SolidError>
        ensures { (e : Extruded) → spec.IsJudgedOf e self.now → spec.PlacedAt e (vector_of shift) result }
    {
        let Some(placing) = &self.placing else {
            return Err(SolidError::Loops);
        };
        let Some(shift) = wide(shift) else {
            return Err(SolidError::Range);
        };
        if !placing.are_in_world(shift, self.way) {
            return Err(SolidError::Range);
        }
        if !placing.are_near(shift, self.way) {
            return Err(SolidError::OffGrid);
        }
        match &placing.prism {
            Some(_) => Ok(placing.points),
            None => Err(SolidError::Loops),
        }
    }

    /// The prism of the solid where it is moved by this shift, in nanometres (nm), or why it has none, as
    /// `placed` says.
    pub fn prism(&self, alloc: Global, shift: [i128; 3]) -> Result<Prism, SolidError>
        ensures { (e : Extruded) → spec.IsJudgedOf e self.now → JudgesAt e (vector_of shift) result }
    {
        match self.placed(shift) {
            Ok(_) => self.moved(alloc, shift),
            Err(error) => Err(error),
        }
    }

    /// The prism where the solid lies on the grid.
    fn moved(&self, alloc: Global, shift: [i128; 3]) -> Result<Prism, SolidError>
        ensures { (e : Extruded) → spec.IsJudgedOf e self.now → is_beyond e (vector_of shift) ≡ false
            → is_off_grid e (vector_of shift) ≡ false → JudgesAt e (vector_of shift) result }
    {
        match &self.placing {
            Some(placing) => placing.moved(alloc, shift, self.way),
            None => Err(SolidError::Loops),
        }
    }
}
