// What is kept of a shape.
use crate::faults::Faults;
use sb_list::Listed;
use sb_model::Frame;
use sb_solid::Spots;

/// What is kept of an extruded solid: its faults, the loops of its profile in nanometres (nm), the frame of
/// its position, and how far it goes along its local z, in nanometres, below 0 where it goes down. Where a
/// length is out of range loops and way mean nothing.
#[derive(Drop)]
pub struct Extrusion {
    pub(crate) faults: Faults,
    pub(crate) loops: Listed<Spots>,
    pub(crate) frame: Frame,
    pub(crate) way: i128,
}

/// What is kept of a shape, whatever product has it: its faults, and the one solid of its Body, where
/// there is one.
#[derive(Drop)]
pub struct Kept {
    pub(crate) faults: Faults,
    pub(crate) solid: Option<Extrusion>,
}
