//! The patches of the rows.

ghost use Rattle.std.specs.Prelude.{◌≡◌, ◌<◌, pos, true};
ghost use Rattle.theory_numbers.specs.Fractions.{whole as whole_number};
ghost use Rattle.theory_plane.specs.Sides.{line};
ghost use Rattle.sb_model.specs.Surfaces.Sides.{line_of, is_side_of};

use sb_fraction::{Direction, Fraction, Line};
use sb_model::{Face, FaceKind, Patch, Side};

#[tactic(auto, using(crate::proofs::Wholes::wholes))]
fn whole(x: i32) -> Fraction
    ensures { result ≡ whole_number x }
{
    Fraction::new(i128::from(x), 1)
}

/// A part of side k of a space, over u from low to high and between two heights.
pub fn on_side(space: u32, k: u32, low: u16, high: u16, bottom: u16, top: u16) -> Patch
    requires along { low < high }
    requires up { bottom < top }
{
    Patch {
        face: Face {
            space,
            kind: FaceKind::Side(k),
        },
        low: whole(i32::from(low)),
        high: whole(i32::from(high)),
        lower: Side::Height(i32::from(bottom)),
        upper: Side::Height(i32::from(top)),
    }
}

/// The line y = 0.
#[tactic(auto, using(crate::proofs::TriedPatches::along_x_is))]
fn near() -> Side
    ensures value { line_of result ≡ line (pos 1) (pos 0) (pos 0) }
    ensures of_bottom { is_side_of FaceKind.Bottom result ≡ true }
    ensures of_top { is_side_of FaceKind.Top result ≡ true }
{
    Side::OnLine(Line {
        dir: Direction { x: 1, y: 0 },
        off: 0,
    })
}

/// The line y = 3000.
#[tactic(auto, using(crate::proofs::TriedPatches::along_x_is))]
fn far() -> Side
    ensures value { line_of result ≡ line (pos 1) (pos 0) (pos 3000) }
    ensures of_bottom { is_side_of FaceKind.Bottom result ≡ true }
    ensures of_top { is_side_of FaceKind.Top result ≡ true }
{
    Side::OnLine(Line {
        dir: Direction { x: 1, y: 0 },
        off: 3000,
    })
}

/// The whole of Bottom over [0,4000], [0,3000].
pub fn on_floor(space: u32) -> Patch {
    Patch {
        face: Face {
            space,
            kind: FaceKind::Bottom,
        },
        low: whole(0),
        high: whole(4000),
        lower: near(),
        upper: far(),
    }
}

/// The whole of Top over [0,4000], [0,3000].
pub fn on_ceiling(space: u32) -> Patch {
    Patch {
        face: Face {
            space,
            kind: FaceKind::Top,
        },
        low: whole(0),
        high: whole(4000),
        lower: near(),
        upper: far(),
    }
}

/// A part of side 0 of space #20 that begins at 1/2000000 mm.
pub fn from_half() -> Patch {
    Patch {
        face: Face {
            space: 20,
            kind: FaceKind::Side(0),
        },
        low: Fraction::new(1, 2_000_000),
        high: Fraction::new(4000, 1),
        lower: Side::Height(0),
        upper: Side::Height(2500),
    }
}

/// A part of side 0 of space #20 that begins at -1/2000000 mm.
pub fn from_minus_half() -> Patch {
    Patch {
        face: Face {
            space: 20,
            kind: FaceKind::Side(0),
        },
        low: Fraction::new(-1, 2_000_000),
        high: Fraction::new(4000, 1),
        lower: Side::Height(0),
        upper: Side::Height(2500),
    }
}

/// A part of side 0 whose direction has the square 1999998000001, between abscissae of as great a
/// denominator: the denominators of its corners are near 4·10^24.
pub fn steep(space: u32) -> Patch {
    Patch {
        face: Face {
            space,
            kind: FaceKind::Side(0),
        },
        low: Fraction::new(1, 1_999_998_000_001),
        high: Fraction::new(1_000_000_000_001, 1_999_998_000_001),
        lower: Side::Height(0),
        upper: Side::Height(2500),
    }
}

/// The part of side 2 of space #20 below the ground, down to -1000.
pub fn below_ground() -> Patch {
    Patch {
        face: Face {
            space: 20,
            kind: FaceKind::Side(2),
        },
        low: Fraction::new(0, 1),
        high: Fraction::new(4000, 1),
        lower: Side::Height(-1000),
        upper: Side::Height(0),
    }
}

/// The greater part of side 2 of space #20, from (0, 0) towards (3000, 1).
pub fn shallow_part() -> Patch {
    Patch {
        face: Face {
            space: 20,
            kind: FaceKind::Side(2),
        },
        low: Fraction::new(0, 1),
        high: Fraction::new(8_997_001, 1),
        lower: Side::Height(0),
        upper: Side::Height(2500),
    }
}

/// The rest of it, as far as (3000, 1).
pub fn shallow_rest() -> Patch {
    Patch {
        face: Face {
            space: 20,
            kind: FaceKind::Side(2),
        },
        low: Fraction::new(8_997_001, 1),
        high: Fraction::new(9_000_001, 1),
        lower: Side::Height(0),
        upper: Side::Height(2500),
    }
}
