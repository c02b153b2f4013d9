//! Patches of a box and of a wedge, by which corners are tried.

ghost use Rattle.std.specs.Prelude.{◌≡◌, pos, negsuc, true};
ghost use Rattle.theory_plane.specs.Sides.{line};
ghost use Rattle.sb_model.specs.Surfaces.Sides.{line_of, is_side_of};
ghost use Rattle.sb_model.specs.Surfaces.Faces.{is_face_of};

use sb_fraction::{Direction, Fraction, Line};
use sb_model::{Face, FaceKind, Model, Patch, Side};

/// Whether the face is one of the model.
pub fn names_face(model: &Model, face: Face) -> bool
    ensures { result ≡ is_face_of model.now face }
{
    match model.space(face.space) {
        None => false,
        Some(space) => match face.kind {
            FaceKind::Bottom => true,
            FaceKind::Top => true,
            FaceKind::Side(k) => space.prism.loops().edge(k as usize).is_some(),
        },
    }
}

/// The face above space #20.
fn top() -> Face
    ensures { result.kind ≡ FaceKind.Top }
{
    Face {
        space: 20,
        kind: FaceKind::Top,
    }
}

/// The line y = 0.
#[tactic(auto, using(crate::proofs::TriedPatches::along_x_is))]
fn along_x() -> Side
    ensures value { line_of result ≡ line (pos 1) (pos 0) (pos 0) }
    ensures of_top { is_side_of FaceKind.Top result ≡ true }
{
    Side::OnLine(Line {
        dir: Direction { x: 1, y: 0 },
        off: 0,
    })
}

/// The line y = 2·x.
#[tactic(auto, using(crate::proofs::TriedPatches::steep_is))]
fn steep() -> Side
    ensures value { line_of result ≡ line (pos 1) (pos 2) (pos 0) }
    ensures of_top { is_side_of FaceKind.Top result ≡ true }
{
    Side::OnLine(Line {
        dir: Direction { x: 1, y: 2 },
        off: 0,
    })
}

/// The line y = 10 - x.
#[tactic(auto, using(crate::proofs::TriedPatches::falling_is))]
fn falling() -> Side
    ensures value { line_of result ≡ line (pos 1) (negsuc 0) (pos 10) }
    ensures of_top { is_side_of FaceKind.Top result ≡ true }
{
    Side::OnLine(Line {
        dir: Direction { x: 1, y: -1 },
        off: 10,
    })
}

/// Of the square from 0 to 10 mm, what lies left of where y = 2·x and y = 10 - x cross, below both.
pub fn left_of_crossing() -> Patch {
    Patch {
        face: top(),
        low: Fraction::new(0, 1),
        high: Fraction::new(10, 3),
        lower: along_x(),
        upper: steep(),
    }
}

/// What lies right of the crossing, above y = 10 - x and below y = 2·x.
pub fn right_of_crossing() -> Patch {
    Patch {
        face: top(),
        low: Fraction::new(10, 3),
        high: Fraction::new(5, 1),
        lower: falling(),
        upper: steep(),
    }
}

/// The whole side over the edge from (1000, 0) to (0, 1000), from 0 to 2500 mm.
pub fn slanted_side() -> Patch {
    Patch {
        face: Face {
            space: 20,
            kind: FaceKind::Side(1),
        },
        low: Fraction::new(-1000, 1),
        high: Fraction::new(1000, 1),
        lower: Side::Height(0),
        upper: Side::Height(2500),
    }
}
