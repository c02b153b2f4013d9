//! The corners of patches.

ghost use Rattle.std.specs.Prelude.{◌≡◌, ◌≤◌, slice_get, unsigned_abs, IsTrue, Some, is_some};
ghost use Rattle.theory_plans.specs.LoopEdges.{edges_of};
ghost use Rattle.theory_plans.specs.Plans.{is_plan};
ghost use Rattle.sb_fraction.specs.Plane.{is_plan_point, are_two_points};
ghost use Rattle.sb_fraction.specs.Edges.{edge};
ghost use Rattle.sb_fraction.specs.Lines.{arrow_along, flat};
ghost use Rattle.sb_model.specs.Surfaces.Sides.{line_of, is_abscissa_size, greatest_offset};
ghost use Rattle.theory_plane.specs.Sides.{line as line_along};
ghost use Rattle.sb_model.specs.Surfaces.Faces.{is_face_of, has_face};
ghost use Rattle.sb_model.specs.Surfaces.Corners.{level_corner, corner_along, listed as corners_listed};
ghost use Rattle.sb_model.specs.Surfaces.Corners.{corners_of, corners_in, side_corners, corners_along};

use crate::building::Model;
use crate::faces::face::{FaceKind, Side};
use crate::faces::side_line::{SideLine, line_of_side};
use crate::loops::Loops;
use crate::patches::corner::{Corner, Corners};
use crate::patches::corner_numbers::{level_value, line_through, placed_along, whole};
use crate::patches::patch::Patch;
use crate::products::Space;
use sb_fraction::{Fraction, Line, Point};
use sb_points::heading_of;

/// The corners of a patch, in millimetres (mm) of the building's coordinates.
///
/// Seen from outside the space they run counterclockwise. Forward, on Top and on a side whose edge
/// runs along its direction: (low, upper), (low, lower), (high, lower), (high, upper). Backward, on
/// the other faces: (high, upper), (high, lower), (low, lower), (low, upper). A corner that is
/// equal to the one before it is left out.
pub fn corners(model: &Model, patch: &Patch) -> Corners
    requires face { IsTrue (is_face_of model.now patch.now.face) }
    ensures { Some result ≡ corners_of model.now patch.now }
{
    outline_of(model.space(patch.face.space).unwrap(), patch)
}

/// The corners of a patch of a face of this space.
#[tactic(auto, using(crate::proofs::PointsOfPatches::EndsOfPatches::ends))]
fn outline_of(space: &Space, patch: &Patch) -> Corners
    requires face { IsTrue (has_face (Some space.now) patch.now.face.kind) }
    ensures { Some result ≡ corners_in (Some space.now) patch.now }
{
    match patch.face.kind {
        FaceKind::Bottom => backward(&level_ends(patch, space.prism.z0())),
        FaceKind::Top => forward(&level_ends(patch, space.prism.z1())),
        FaceKind::Side(k) => side_outline(space.prism.loops(), k as usize, patch),
    }
}

/// The corners of a patch of the side face over edge `k`.
fn side_outline(loops: &Loops, k: usize, patch: &Patch) -> Corners
    requires is_plan { IsTrue (is_plan loops.now) }
    requires there { IsTrue (is_some (slice_get (edges_of loops.now) k)) }
    ensures { Some result ≡ side_corners (slice_get (edges_of loops.now) k) patch.now }
{
    let (a, b) = loops.edge(k).unwrap();
    over_edge(a, b, patch)
}

/// The corners of a patch of the side face over this edge.
fn over_edge(a: Point, b: Point, patch: &Patch) -> Corners
    requires a_in { IsTrue (is_plan_point a) }
    requires b_in { IsTrue (is_plan_point b) }
    requires apart { IsTrue (are_two_points a.x a.y b.x b.y) }
    ensures { Some result ≡ side_corners (Some (edge a b)) patch.now }
{
    let heading = heading_of(a, b);
    over_line(line_through(a, heading.direction), heading.is_along, patch)
}

/// The corners of a patch of the side face over this line.
fn over_line(line: Line, is_along: bool, patch: &Patch) -> Corners
    requires { unsigned_abs line.off ≤ greatest_offset }
    ensures { Some result ≡ corners_along (flat (arrow_along line.dir)) line.off is_along patch.now }
{
    let ends = side_ends(patch, line);
    if is_along {
        forward(&ends)
    } else {
        backward(&ends)
    }
}

/// The corners of a patch by its ends and sides.
#[derive(Clone, Copy)]
struct Ends {
    low_lower: Corner,
    low_upper: Corner,
    high_lower: Corner,
    high_upper: Corner,
}

/// The value of a level side: the same at each u.
fn value_of(side: Side) -> i64
    ensures { result ≡ (line_of side).off }
{
    match side {
        Side::OnLine(line) => line.off,
        Side::Height(height) => height as i64,
    }
}

/// The point of a level face at u on a side.
#[tactic(auto, using(crate::proofs::PointsOfPatches::EndsOfPatches::ends), unfolding(crate::specs::Surfaces::Corners::level_corner))]
fn level_point(u: Fraction, side: SideLine, z: i32) -> Corner
    requires { IsTrue (is_abscissa_size u) }
    ensures { result ≡ level_corner z u (line_along side.dx side.dy side.off) }
{
    Corner {
        x: u,
        y: level_value(side, &u),
        z: whole(z as i64),
    }
}

/// The corners of a patch of a level face at the height z.
#[tactic(auto, using(crate::proofs::PointsOfPatches::EndsOfPatches::ends))]
fn level_ends(patch: &Patch, z: i32) -> Ends
    ensures low_lower { result.low_lower ≡ level_corner z patch.now.low (line_of patch.now.lower) }
    ensures low_upper { result.low_upper ≡ level_corner z patch.now.low (line_of patch.now.upper) }
    ensures high_lower { result.high_lower ≡ level_corner z patch.now.high (line_of patch.now.lower) }
    ensures high_upper { result.high_upper ≡ level_corner z patch.now.high (line_of patch.now.upper) }
{
    let lower = line_of_side(patch.lower);
    let upper = line_of_side(patch.upper);
    Ends {
        low_lower: level_point(patch.low, lower, z),
        low_upper: level_point(patch.low, upper, z),
        high_lower: level_point(patch.high, lower, z),
        high_upper: level_point(patch.high, upper, z),
    }
}

/// The point of the side face over a line, at u along it on a side of a patch.
#[tactic(auto, using(crate::proofs::PointsOfPatches::EndsOfPatches::ends))]
fn side_point(line: Line, u: Fraction, side: Side) -> Corner
    requires offset_in { unsigned_abs line.off ≤ greatest_offset }
    requires u_in { IsTrue (is_abscissa_size u) }
    ensures { result ≡ corner_along (flat (arrow_along line.dir)) line.off u (line_of side).off }
{
    placed_along(line, &u, value_of(side))
}

/// The corners of a patch of the side face over a line.
#[tactic(auto, using(crate::proofs::PointsOfPatches::EndsOfPatches::ends))]
fn side_ends(patch: &Patch, line: Line) -> Ends
    requires { unsigned_abs line.off ≤ greatest_offset }
    ensures low_lower { result.low_lower ≡ corner_along (flat (arrow_along line.dir)) line.off patch.now.low (line_of patch.now.lower).off }
    ensures low_upper { result.low_upper ≡ corner_along (flat (arrow_along line.dir)) line.off patch.now.low (line_of patch.now.upper).off }
    ensures high_lower { result.high_lower ≡ corner_along (flat (arrow_along line.dir)) line.off patch.now.high (line_of patch.now.lower).off }
    ensures high_upper { result.high_upper ≡ corner_along (flat (arrow_along line.dir)) line.off patch.now.high (line_of patch.now.upper).off }
{
    Ends {
        low_lower: side_point(line, patch.low, patch.lower),
        low_upper: side_point(line, patch.low, patch.upper),
        high_lower: side_point(line, patch.high, patch.lower),
        high_upper: side_point(line, patch.high, patch.upper),
    }
}

/// The corners without one that is equal to the one before it.
fn listed(a: Corner, b: Corner, c: Corner, d: Corner) -> Corners
    ensures { result ≡ corners_listed a b c d }
{
    if a == b {
        Corners::Three(a, c, d)
    } else if c == d {
        Corners::Three(a, b, c)
    } else {
        Corners::Four(a, b, c, d)
    }
}

/// Down along the low end, and up along the high end.
fn forward(ends: &Ends) -> Corners
    ensures { result ≡ corners_listed ends.now.low_upper ends.now.low_lower ends.now.high_lower ends.now.high_upper }
{
    listed(
        ends.low_upper,
        ends.low_lower,
        ends.high_lower,
        ends.high_upper,
    )
}

/// Down along the high end, and up along the low end.
fn backward(ends: &Ends) -> Corners
    ensures { result ≡ corners_listed ends.now.high_upper ends.now.high_lower ends.now.low_lower ends.now.low_upper }
{
    listed(
        ends.high_upper,
        ends.high_lower,
        ends.low_lower,
        ends.low_upper,
    )
}
