//! Where faces look: their outward normals and their directions.

ghost use Rattle.std.specs.Prelude.{◌≡◌, ◌||◌, pos, neg_ℤ, IsTrue, Some, is_some, slice_get, unsigned_abs};
ghost use Rattle.std.specs.Option.{option_map};
ghost use Rattle.theory_plans.specs.LoopEdges.{edges_of};
ghost use Rattle.theory_plans.specs.Plans.{is_plan};
ghost use Rattle.sb_fraction.specs.Plane.{is_plan_point, are_two_points};
ghost use Rattle.sb_fraction.specs.Spots.{vector};
ghost use Rattle.sb_fraction.specs.Edges.{edge};
ghost use Rattle.sb_fraction.specs.Lines.{arrow_along, flat};
ghost use Rattle.sb_fraction.specs.Directions.{direction_of, normal_over};
ghost use Rattle.sb_model.specs.Building.{is_level_axis, is_upright_axis};
ghost use Rattle.sb_model.specs.Surfaces.Faces.{is_face_of};
ghost use Rattle.sb_model.specs.Surfaces.Facings.{normal_of, across_of, right_of};
ghost use Rattle.sb_model.specs.Labels.{axis_vector};

use crate::building::Model;
use crate::faces::face::{Face, FaceKind};
use crate::layers::Axis;
use crate::loops::Loops;
use sb_fraction::{Direction, Point};
use sb_points::heading_of;

/// Where a face looks, and which way its coordinate u is read.
#[derive(Clone, Copy)]
pub struct Facing {
    /// The outward normal.
    pub normal: Axis,
    /// The direction along which u is read: (1, 0, 0) of Bottom and Top, that of the edge of a side.
    pub across: Axis,
}

/// Where a face of the model looks.
pub fn facing_of(model: &Model, face: Face) -> Facing
    requires { IsTrue (is_face_of model.now face) }
    ensures normal { normal_of model.now face ≡ Some (axis_vector result.normal) }
    ensures across { across_of model.now face ≡ Some (axis_vector result.across) }
    ensures is_axis { IsTrue (is_level_axis result.normal || is_upright_axis result.normal) }
{
    match face.kind {
        FaceKind::Bottom => level(-1),
        FaceKind::Top => level(1),
        FaceKind::Side(k) => {
            let space = model.space(face.space).unwrap();
            facing_over_side(space.prism.loops(), k as usize)
        }
    }
}

/// Where a level face looks: down or up.
fn level(sense: i32) -> Facing
    requires { unsigned_abs sense ≡ 1 }
    ensures normal { axis_vector result.normal ≡ vector (pos 0) (pos 0) sense }
    ensures across { axis_vector result.across ≡ vector (pos 1) (pos 0) (pos 0) }
    ensures is_axis { IsTrue (is_level_axis result.normal || is_upright_axis result.normal) }
{
    Facing {
        normal: Axis {
            x: 0,
            y: 0,
            z: sense,
        },
        across: Axis { x: 1, y: 0, z: 0 },
    }
}

/// Where the side over edge `k` of a plan looks.
fn facing_over_side(loops: &Loops, k: usize) -> Facing
    requires is_plan { IsTrue (is_plan loops.now) }
    requires there { IsTrue (is_some (slice_get (edges_of loops.now) k)) }
    ensures normal { option_map (λ e. normal_over e) (slice_get (edges_of loops.now) k) ≡ Some (axis_vector result.normal) }
    ensures across { option_map (λ e. direction_of e) (slice_get (edges_of loops.now) k) ≡ Some (axis_vector result.across) }
    ensures is_axis { IsTrue (is_level_axis result.normal || is_upright_axis result.normal) }
{
    let (a, b) = loops.edge(k).unwrap();
    facing_over(a, b)
}

/// Where the side over the edge from `a` to `b` looks, which has the solid on its left.
pub fn facing_over(a: Point, b: Point) -> Facing
    requires a_in { IsTrue (is_plan_point a) }
    requires b_in { IsTrue (is_plan_point b) }
    requires apart { IsTrue (are_two_points a.x a.y b.x b.y) }
    ensures normal { axis_vector result.normal ≡ normal_over (edge a b) }
    ensures across { axis_vector result.across ≡ direction_of (edge a b) }
    ensures is_axis { IsTrue (is_level_axis result.normal || is_upright_axis result.normal) }
{
    let heading = heading_of(a, b);
    beside(heading.direction, heading.is_along)
}

/// Where a side looks whose edge runs along this direction or against it.
fn beside(along: Direction, is_along: bool) -> Facing
    ensures normal { axis_vector result.normal ≡ right_of (flat (arrow_along along)) is_along }
    ensures across { axis_vector result.across ≡ flat (arrow_along along) }
    ensures is_axis { IsTrue (is_level_axis result.normal || is_upright_axis result.normal) }
{
    Facing {
        normal: right_axis(along, is_along),
        across: Axis {
            x: along.x,
            y: along.y,
            z: 0,
        },
    }
}

/// What lies on the right of an edge that runs along this direction or against it.
fn right_axis(along: Direction, is_along: bool) -> Axis
    ensures value { axis_vector result ≡ right_of (flat (arrow_along along)) is_along }
    ensures is_axis { IsTrue (is_level_axis result || is_upright_axis result) }
{
    if is_along {
        rightward(along)
    } else {
        leftward(along)
    }
}

/// A direction turned clockwise by a quarter, seen from above.
#[tactic(auto, using(crate::proofs::FacingsOfEdges::facings))]
fn rightward(along: Direction) -> Axis
    ensures { axis_vector result ≡ vector along.y (neg_ℤ along.x) (pos 0) }
{
    Axis {
        x: along.y,
        y: -along.x,
        z: 0,
    }
}

/// A direction turned counterclockwise by a quarter.
#[tactic(auto, using(crate::proofs::FacingsOfEdges::facings))]
fn leftward(along: Direction) -> Axis
    ensures { axis_vector result ≡ vector (neg_ℤ along.y) along.x (pos 0) }
{
    Axis {
        x: -along.y,
        y: along.x,
        z: 0,
    }
}
