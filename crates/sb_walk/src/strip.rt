//! Strips of a slab.

ghost use Rattle.std.specs.Prelude.{IsTrue};
ghost use Rattle.sb_walk.specs.GapsBetween.{has_bottom, has_top};

use sb_fraction::{Fraction, Line};

/// The part of a slab between two lines: what the patches of a gap have in common.
#[derive(Clone, Copy)]
pub(crate) struct Strip {
    pub(crate) low: Fraction,
    pub(crate) high: Fraction,
    pub(crate) lower: Line,
    pub(crate) upper: Line,
    pub(crate) ghost bottom: { IsTrue (has_bottom low high lower upper) },
    pub(crate) ghost top: { IsTrue (has_top low high lower upper) },
}
