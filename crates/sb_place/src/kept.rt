// What is kept of a chain of placements.
ghost use Rattle.std.specs.Prelude.{IsTrue};
ghost use Rattle.theory_turns.specs.Turns.{is_quarter};
ghost use Rattle.sb_place.specs.Sizes.{fits_at};

use sb_model::Frame;

/// A number that was seen some placements further up.
#[derive(Clone, Copy)]
pub struct Sighting {
    pub(crate) number: u32,
    pub(crate) above: u32,
}

/// What is kept of a placement and of those above it, up to the end of the chain: how many they are,
/// their faults, and their frames composed. It has the same size whatever the chain's length, so that
/// what stands on it, a placement or a product, reads none of them again.
#[derive(Clone, Copy)]
pub struct Placed {
    pub(crate) depth: u32,
    pub(crate) reached: bool,
    pub(crate) broken: Option<Sighting>,
    pub(crate) absent: Option<Sighting>,
    pub(crate) stray: bool,
    pub(crate) turned: bool,
    pub(crate) far: bool,
    pub(crate) frame: Frame,
    ghost fits: { IsTrue (fits_at depth frame.shift) },
    ghost upright: { IsTrue (is_quarter frame.turn.x frame.turn.z) },
}
