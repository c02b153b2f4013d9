//! The corners of patches.

use sb_fraction::Fraction;

/// A corner of a patch, in millimetres (mm) of the building's coordinates.
#[derive(Clone, Copy, PartialEq)]
pub struct Corner {
    pub x: Fraction,
    pub y: Fraction,
    pub z: Fraction,
}

/// The corners of a patch; seen from outside the space they run counterclockwise.
#[derive(Clone, Copy, PartialEq)]
pub enum Corners {
    Three(Corner, Corner, Corner),
    Four(Corner, Corner, Corner, Corner),
}
