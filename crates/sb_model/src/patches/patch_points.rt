//! Whether a point lies inside a patch.

ghost use Rattle.std.specs.Prelude.{◌≡◌, ◌≤◌, ◌<ℤ◌, ◌+ℤ◌, ◌-ℤ◌, ◌*ℤ◌, ◌&&◌, pos, int_lt, unsigned_abs, slice_get, IsTrue, Some, is_some};
ghost use Rattle.std.specs.Option.{option_map};
ghost use Rattle.theory_numbers.specs.Rationals.{rational};
ghost use Rattle.theory_plane.specs.Points.{face_point, is_above_side, is_under_side};
ghost use Rattle.theory_plane.specs.Regions.{is_inside as is_in_region, is_spanned as is_in_span};
ghost use Rattle.theory_plane.specs.Sides.{line as line_along};
ghost use Rattle.theory_plans.specs.LoopEdges.{edges_of};
ghost use Rattle.theory_plans.specs.Plans.{is_plan};
ghost use Rattle.sb_fraction.specs.Bounds.{is_abscissa_size, is_crossing_size, greatest_abscissa, greatest_cross, greatest_crossing};
ghost use Rattle.sb_fraction.specs.Plane.{longest_step};
ghost use Rattle.sb_fraction.specs.Lines.{arrow_along, flat};
ghost use Rattle.sb_fraction.specs.Numbers.{ratio};
ghost use Rattle.sb_fraction.specs.Spots.{spot_of};
ghost use Rattle.sb_points.specs.Places.{spot_over};
ghost use Rattle.sb_model.specs.Surfaces.Sides.{line_of, is_abscissa_size as is_end};
ghost use Rattle.sb_model.specs.Surfaces.SideLines.{is_upright, seen_along, greatest_reading};
ghost use Rattle.sb_model.specs.Surfaces.Faces.{is_face_of, has_face, surface_of, side_of};
ghost use Rattle.sb_model.specs.Surfaces.Patches.{is_in_patch, region_of, surface_at};

use crate::building::Model;
use crate::faces::face::FaceKind;
use crate::faces::side_line::{SideLine, line_of_side};
use crate::loops::Loops;
use crate::patches::corner_numbers::times_den;
use crate::patches::patch::Patch;
use crate::products::Space;
use sb_fraction::{Direction, Fraction, HPoint};
use sb_points::heading_of;

/// Whether the point over `p` at the height `z`, in millimetres (mm), lies inside a patch: by the
/// coordinates u and v of the patch's face, strictly between its ends and strictly between its
/// sides. On Bottom and Top the height does not matter, on a side face the way to it does not.
#[tactic(auto, using(crate::proofs::PointsOfPatches::PointsInPatches::places))]
pub fn inside(model: &Model, patch: &Patch, p: &HPoint, z: &Fraction) -> bool
    requires face { IsTrue (is_face_of model.now patch.now.face) }
    requires point_in { IsTrue (is_crossing_size (spot_of p.now)) }
    requires height_in { IsTrue (is_abscissa_size z.now) }
    ensures { Some result ≡ option_map (λ f. is_in_patch f patch.now (spot_over p.now z.now)) (surface_at model.now patch.now.face) }
{
    let height = Height {
        num: z.num(),
        den: z.den(),
    };
    lies_in(model.space(patch.face.space).unwrap(), patch, p, height)
}

/// The number num/den.
#[derive(Clone, Copy)]
struct Height {
    num: i128,
    den: i128,
}

/// Whether a point lies inside a patch of a face of this space.
#[tactic(auto, using(crate::proofs::PointsOfPatches::PointsInPatches::places))]
fn lies_in(space: &Space, patch: &Patch, p: &HPoint, z: Height) -> bool
    requires face { IsTrue (has_face (Some space.now) patch.now.face.kind) }
    requires point_in { IsTrue (is_crossing_size (spot_of p.now)) }
    requires positive { pos 0 <ℤ z.den }
    requires den_in { unsigned_abs z.den ≤ greatest_cross }
    ensures { Some result ≡ option_map (λ f. is_in_patch f patch.now (spot_over p.now (ratio z.num z.den))) (surface_of space.now.prism patch.now.face.kind) }
{
    match patch.face.kind {
        FaceKind::Bottom => lies_in_level(patch, p),
        FaceKind::Top => lies_in_level(patch, p),
        FaceKind::Side(k) => lies_over_side(space.prism.loops(), k as usize, patch, p, z),
    }
}

/// Whether a point lies inside a patch of a level face.
#[tactic(auto, using(crate::proofs::PointsOfPatches::PointsInPatches::places))]
fn lies_in_level(patch: &Patch, p: &HPoint) -> bool
    requires { IsTrue (is_crossing_size (spot_of p.now)) }
    ensures { result ≡ is_in_region (region_of patch.now) (face_point p.now.x p.now.y p.now.w) }
{
    is_spanned(patch, p.x, p.w)
        && is_above(line_of_side(patch.lower), p)
        && is_under(line_of_side(patch.upper), p)
}

/// Whether a point lies inside a patch of the side face over edge `k`.
#[tactic(auto, using(crate::proofs::PointsOfPatches::PointsInPatches::places))]
fn lies_over_side(loops: &Loops, k: usize, patch: &Patch, p: &HPoint, z: Height) -> bool
    requires is_plan { IsTrue (is_plan loops.now) }
    requires there { IsTrue (is_some (slice_get (edges_of loops.now) k)) }
    requires of_side { IsTrue (is_upright patch.now.face.kind) }
    requires point_in { IsTrue (is_crossing_size (spot_of p.now)) }
    requires positive { pos 0 <ℤ z.den }
    requires den_in { unsigned_abs z.den ≤ greatest_cross }
    ensures { Some result ≡ option_map (λ f. is_in_patch f patch.now (spot_over p.now (ratio z.num z.den))) (side_of (slice_get (edges_of loops.now) k)) }
{
    let (a, b) = loops.edge(k).unwrap();
    lies_along(heading_of(a, b).direction, patch, p, z)
}

/// Whether a point lies inside a patch of a side face with this direction.
#[tactic(auto, using(crate::proofs::PointsOfPatches::PointsInPatches::places))]
fn lies_along(dir: Direction, patch: &Patch, p: &HPoint, z: Height) -> bool
    requires of_side { IsTrue (is_upright patch.now.face.kind) }
    requires point_in { IsTrue (is_crossing_size (spot_of p.now)) }
    requires positive { pos 0 <ℤ z.den }
    requires den_in { unsigned_abs z.den ≤ greatest_cross }
    ensures { result ≡ is_in_region (region_of patch.now) (seen_along (flat (arrow_along dir)) (spot_over p.now (ratio z.num z.den))) }
{
    is_spanned(patch, abscissa(dir, p), p.w) && is_between_sides(patch, z)
}

/// Whether a height lies strictly between the sides of a patch of a side face.
#[tactic(auto, using(crate::proofs::PointsOfPatches::PointsInPatches::places))]
fn is_between_sides(patch: &Patch, z: Height) -> bool
    requires { unsigned_abs z.den ≤ greatest_cross }
    ensures { result ≡ (int_lt ((line_of patch.now.lower).off *ℤ z.den) z.num && int_lt z.num ((line_of patch.now.upper).off *ℤ z.den)) }
{
    is_higher(line_of_side(patch.lower), z) && is_lower(line_of_side(patch.upper), z)
}

/// Whether the abscissa num/den lies strictly between the ends of a patch.
#[tactic(auto, using(crate::proofs::PointsOfPatches::PointsInPatches::places))]
fn is_spanned(patch: &Patch, num: i128, den: i128) -> bool
    requires num_in { unsigned_abs num ≤ greatest_abscissa }
    requires den_in { unsigned_abs den ≤ greatest_cross }
    ensures { result ≡ is_in_span (region_of patch.now) (rational num den) }
{
    is_after(&patch.low, num, den) && is_before(&patch.high, num, den)
}

/// Whether the abscissa num/den lies after an end.
#[tactic(auto, using(crate::proofs::PointsOfPatches::PointsInPatches::places))]
fn is_after(end: &Fraction, num: i128, den: i128) -> bool
    requires end_in { IsTrue (is_end end.now) }
    requires num_in { unsigned_abs num ≤ greatest_abscissa }
    requires den_in { unsigned_abs den ≤ greatest_cross }
    ensures { result ≡ int_lt (end.now.num *ℤ den) (num *ℤ end.now.den) }
{
    product(end.num(), den) < product(num, end.den())
}

/// Whether the abscissa num/den lies before an end.
#[tactic(auto, using(crate::proofs::PointsOfPatches::PointsInPatches::places))]
fn is_before(end: &Fraction, num: i128, den: i128) -> bool
    requires end_in { IsTrue (is_end end.now) }
    requires num_in { unsigned_abs num ≤ greatest_abscissa }
    requires den_in { unsigned_abs den ≤ greatest_cross }
    ensures { result ≡ int_lt (num *ℤ end.now.den) (end.now.num *ℤ den) }
{
    product(num, end.den()) < product(end.num(), den)
}

/// The product of a numerator and a denominator.
#[tactic(auto, using(crate::proofs::PointsOfPatches::PointsInPatches::places))]
fn product(num: i128, den: i128) -> i128
    requires num_in { unsigned_abs num ≤ greatest_abscissa }
    requires den_in { unsigned_abs den ≤ greatest_cross }
    ensures { result ≡ num *ℤ den }
{
    num * den
}

/// The abscissa `p·dir` of a point, times its denominator.
#[tactic(auto, using(crate::proofs::PointsOfPatches::PointsInPatches::places))]
fn abscissa(dir: Direction, p: &HPoint) -> i128
    requires { IsTrue (is_crossing_size (spot_of p.now)) }
    ensures value { result ≡ (p.now.x *ℤ dir.x) +ℤ (p.now.y *ℤ dir.y) }
    ensures size { unsigned_abs result ≤ greatest_abscissa }
{
    both(crossing_times(p.x, dir.x), crossing_times(p.y, dir.y))
}

/// A coordinate of a point times a number of a direction.
#[tactic(auto, using(crate::proofs::PointsOfPatches::PointsInPatches::places))]
fn crossing_times(a: i128, by: i32) -> i128
    requires a_in { unsigned_abs a ≤ greatest_crossing }
    requires by_in { unsigned_abs by ≤ longest_step }
    ensures value { result ≡ a *ℤ by }
    ensures size { unsigned_abs result ≤ greatest_reading }
{
    a * by as i128
}

/// Two such products together.
fn both(a: i128, b: i128) -> i128
    requires a_in { unsigned_abs a ≤ greatest_reading }
    requires b_in { unsigned_abs b ≤ greatest_reading }
    ensures value { result ≡ a +ℤ b }
    ensures size { unsigned_abs result ≤ greatest_abscissa }
{
    a + b
}

/// How far a point lies above the line through the origin along a side, times `dx`.
#[tactic(auto, using(crate::proofs::PointsOfPatches::PointsInPatches::places))]
fn rise(side: SideLine, p: &HPoint) -> i128
    requires { IsTrue (is_crossing_size (spot_of p.now)) }
    ensures { result ≡ (side.dx *ℤ p.now.y) -ℤ (side.dy *ℤ p.now.x) }
{
    crossing_times(p.y, side.dx) - crossing_times(p.x, side.dy)
}

/// Whether a point lies above a side.
#[tactic(auto, using(crate::proofs::PointsOfPatches::PointsInPatches::places))]
fn is_above(side: SideLine, p: &HPoint) -> bool
    requires { IsTrue (is_crossing_size (spot_of p.now)) }
    ensures { result ≡ is_above_side (line_along side.dx side.dy side.off) (face_point p.now.x p.now.y p.now.w) }
{
    times_den(side.off, p.w) < rise(side, p)
}

/// Whether a point lies below a side.
#[tactic(auto, using(crate::proofs::PointsOfPatches::PointsInPatches::places))]
fn is_under(side: SideLine, p: &HPoint) -> bool
    requires { IsTrue (is_crossing_size (spot_of p.now)) }
    ensures { result ≡ is_under_side (line_along side.dx side.dy side.off) (face_point p.now.x p.now.y p.now.w) }
{
    rise(side, p) < times_den(side.off, p.w)
}

/// Whether a height lies above a side that is a height.
#[tactic(auto, using(crate::proofs::PointsOfPatches::PointsInPatches::places))]
fn is_higher(side: SideLine, z: Height) -> bool
    requires { unsigned_abs z.den ≤ greatest_cross }
    ensures { result ≡ int_lt (side.off *ℤ z.den) z.num }
{
    times_den(side.off, z.den) < z.num
}

/// Whether a height lies below a side that is a height.
#[tactic(auto, using(crate::proofs::PointsOfPatches::PointsInPatches::places))]
fn is_lower(side: SideLine, z: Height) -> bool
    requires { unsigned_abs z.den ≤ greatest_cross }
    ensures { result ≡ int_lt z.num (side.off *ℤ z.den) }
{
    z.num < times_den(side.off, z.den)
}
