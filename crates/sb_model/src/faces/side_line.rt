//! The sides of patches as lines of one kind.

ghost use Rattle.std.specs.Prelude.{◌≡◌, IsTrue};
ghost use Rattle.sb_model.specs.Surfaces.Sides.{line_of};
ghost use Rattle.sb_model.specs.Surfaces.SideLines.{is_side, is_side_line};
ghost use Rattle.theory_plane.specs.Sides.{line as line_along};

use crate::faces::face::Side;

/// The line of a side in the coordinates u and v of its face, in millimetres (mm): the points with
/// `dx·v = dy·u + off`.
#[derive(Clone, Copy)]
pub(crate) struct SideLine {
    pub dx: i32,
    pub dy: i32,
    pub off: i64,
    ghost is_side_line: { IsTrue (is_side_line dx dy off) },
}

/// The line of a side; a height is a level line.
#[tactic(auto, using(crate::proofs::LinesOfSides::side_lines))]
pub(crate) fn line_of_side(side: Side) -> SideLine
    requires { IsTrue (is_side side) }
    ensures { line_along result.dx result.dy result.off ≡ line_of side }
{
    match side {
        Side::OnLine(line) => SideLine {
            dx: line.dir.x,
            dy: line.dir.y,
            off: line.off,
        },
        Side::Height(height) => SideLine {
            dx: 1,
            dy: 0,
            off: height as i64,
        },
    }
}
