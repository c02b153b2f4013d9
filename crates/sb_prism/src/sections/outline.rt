// What is kept of a curve.
use crate::faults::Faults;
use sb_solid::Spots;

/// What is kept of a curve: its faults, and its points in the plane of the profile in nanometres (nm),
/// in order. A point out of range is the origin.
#[derive(Drop)]
pub(crate) struct Outline {
    pub(crate) faults: Faults,
    pub(crate) points: Spots,
}
