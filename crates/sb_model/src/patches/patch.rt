//! Patches of faces.

ghost use Rattle.std.specs.Prelude.{IsTrue};
ghost use Rattle.sb_model.specs.Surfaces.Sides.{is_patch};

use crate::faces::face::{Face, Side};
use sb_fraction::Fraction;

/// A part of a face between two abscissae `low < high` and between a lower and an upper side.
///
/// On Bottom and Top the sides are lines, on a side face they are heights. The lower side is
/// nowhere above the upper one, and they meet at one end at most: a patch has three or four
/// corners.
#[derive(Clone, Copy, PartialEq)]
pub struct Patch {
    pub face: Face,
    pub low: Fraction,
    pub high: Fraction,
    pub lower: Side,
    pub upper: Side,
    ghost is_patch: { IsTrue (is_patch face.kind low high lower upper) },
}
