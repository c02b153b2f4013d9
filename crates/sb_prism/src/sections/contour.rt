// What is kept of a profile.
use crate::faults::Faults;
use sb_list::Listed;
use sb_solid::Spots;

/// What is kept of a profile: its faults, and its loops in nanometres (nm), the outer one first. Where a
/// length is out of range they mean nothing.
#[derive(Drop)]
pub(crate) struct Contour {
    pub(crate) faults: Faults,
    pub(crate) loops: Listed<Spots>,
}
