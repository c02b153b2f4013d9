// Prisms over loops of the plan, and boxes beside an axis.
ghost use Rattle.std.specs.Prelude.{◌≡◌, IfOk, IsTrue, true, map, [], ◌∷◌, Some};
ghost use Rattle.std.specs.List.{list_all};
ghost use Rattle.std.specs.Option.{option_map};
ghost use Rattle.sb_fraction.specs.Plane.{is_plan_point, is_coordinate};
ghost use Rattle.theory_plans.specs.Plans.{is_plan};
ghost use Rattle.theory_plans.specs.Rectangles.{rectangle, corner};
ghost use Rattle.sb_model.specs.Solids.{upright, is_height};
ghost use Rattle.sb_solid.specs.Solids as solids;
ghost use Rattle.sb_solid.specs.Boxes as spec;

use crate::points::axes::View;
use sb_fraction::Point;
use sb_list::Listed;
use sb_loops::{LoopError, PointLists};
use sb_model::{Loops, Prism};
use std::alloc::{AllocError, Global};

/// The prism of loops as they are seen from one side, between the two ends along the line of sight; `None`
/// exactly where they give none.
pub(crate) fn prism_seen(
    alloc: Global,
    points: PointLists,
    a: i32,
    b: i32,
    view: View,
) -> Result<Option<Prism>, AllocError>
    requires in_range { IsTrue (list_all (list_all is_plan_point) points) }
    requires a_in { IsTrue (is_height a) }
    requires b_in { IsTrue (is_height b) }
    ensures { IfOk result (λ prism. prism ≡ spec.prism_seen view points a b) }
{
    match view {
        View::Above => standing(alloc, points, a, b),
        View::AlongX => boxed(alloc, points, a, b, true),
        View::AlongY => boxed(alloc, points, a, b, false),
    }
}

/// An extrusion up or down.
fn standing(alloc: Global, points: PointLists, a: i32, b: i32) -> Result<Option<Prism>, AllocError>
    requires in_range { IsTrue (list_all (list_all is_plan_point) points) }
    requires a_in { IsTrue (is_height a) }
    requires b_in { IsTrue (is_height b) }
    ensures { IfOk result (λ prism. prism ≡ solids.standing points a b) }
{
    match plan_where(alloc, points)? {
        Some(loops) => Ok(between(loops, a, b)),
        None => Ok(None),
    }
}

/// The plan of loops; `None` exactly where they are flat or knotted.
pub(crate) fn plan_where(alloc: Global, points: PointLists) -> Result<Option<Loops>, AllocError>
    requires in_range { IsTrue (list_all (list_all is_plan_point) points) }
    ensures { IfOk result (λ plan. plan ≡ spec.plan_where points) }
{
    match Loops::new(alloc, points) {
        Ok(loops) => Ok(Some(loops)),
        Err(LoopError::NoMemory) => Err(AllocError),
        Err(_) => Ok(None),
    }
}

/// The prism between two heights, whichever is the lower; `None` where they are one.
fn between(loops: Loops, a: i32, b: i32) -> Option<Prism>
    requires a_in { IsTrue (is_height a) }
    requires b_in { IsTrue (is_height b) }
    ensures { result ≡ spec.between loops a b }
{
    if a < b {
        Some(Prism::new(loops, a, b))
    } else if b < a {
        Some(Prism::new(loops, b, a))
    } else {
        None
    }
}

/// A rectangle of the plane.
#[derive(Clone, Copy)]
pub(crate) struct Corners {
    pub(crate) low: Point,
    pub(crate) high: Point,
}

/// An extrusion to the side, along x or along y.
fn boxed(
    alloc: Global,
    points: PointLists,
    a: i32,
    b: i32,
    along_x: bool,
) -> Result<Option<Prism>, AllocError>
    requires in_range { IsTrue (list_all (list_all is_plan_point) points) }
    requires a_in { IsTrue (is_height a) }
    requires b_in { IsTrue (is_height b) }
    ensures { IfOk result (λ prism. prism ≡ spec.boxed along_x points a b) }
{
    match only_rectangle(alloc, points)? {
        Some(corners) => box_of(alloc, corners, a, b, along_x),
        None => Ok(None),
    }
}

/// The least and the greatest corner of loops that are one rectangle.
fn only_rectangle(alloc: Global, points: PointLists) -> Result<Option<Corners>, AllocError>
    requires in_range { IsTrue (list_all (list_all is_plan_point) points) }
    ensures { IfOk result (λ corners. spec.IsOnly points corners) }
{
    if points.len() != 1 {
        return Ok(None);
    }
    match plan_where(alloc, points)? {
        Some(loops) => Ok(rectangle_of(loops.points())),
        None => Ok(None),
    }
}

fn rectangle_of(points: &PointLists) -> Option<Corners>
    ensures { spec.IsFirst points.now result }
{
    rectangle_in(points.as_slice().first()?.as_slice())
}

/// The least and the greatest corner of a loop that is a rectangle.
fn rectangle_in(points: &[Point]) -> Option<Corners>
    ensures { spec.pair_of result ≡ solids.rectangle_in points.now }
{
    match points {
        [a, b, c, d] if is_rectangle(*a, *b, *c, *d) || is_rectangle(*a, *d, *c, *b) => {
            Some(Corners { low: *a, high: *c })
        }
        _ => None,
    }
}

fn is_rectangle(a: Point, b: Point, c: Point, d: Point) -> bool
    ensures { result ≡ solids.are_same_points (a ∷ b ∷ c ∷ d ∷ []) (rectangle a.x c.x a.y c.y) }
{
    b.x == c.x && b.y == a.y && d.x == a.x && d.y == c.y
}

/// The box over a rectangle beside an axis.
fn box_of(
    alloc: Global,
    corners: Corners,
    a: i32,
    b: i32,
    along_x: bool,
) -> Result<Option<Prism>, AllocError>
    requires corners_in { spec.AreCorners corners }
    requires a_in { IsTrue (is_height a) }
    requires b_in { IsTrue (is_height b) }
    ensures { IfOk result (λ prism. prism ≡ spec.box_of along_x corners a b) }
{
    if a == b {
        return Ok(None);
    }
    let between = ordered(a, b);
    let x = (corners.low.x, corners.high.x);
    let z = (corners.low.y, corners.high.y);
    if along_x {
        box_over(alloc, between, x, z)
    } else {
        box_over(alloc, x, between, z)
    }
}

fn ordered(a: i32, b: i32) -> (i32, i32)
    ensures { result ≡ (solids.lower_of a b, solids.upper_of a b) }
{
    if b < a { (b, a) } else { (a, b) }
}

/// The box between these sides.
fn box_over(
    alloc: Global,
    x: (i32, i32),
    y: (i32, i32),
    z: (i32, i32),
) -> Result<Option<Prism>, AllocError>
    requires along_x { spec.IsInterval x.0 x.1 }
    requires along_y { spec.IsInterval y.0 y.1 }
    requires along_z { spec.IsInterval z.0 z.1 }
    ensures { IfOk result (λ prism. prism ≡ Some (upright (rectangle x.0 x.1 y.0 y.1 ∷ []) z.0 z.1)) }
{
    let points = rectangle_points(alloc, x, y)?;
    match plan_where(alloc, points)? {
        Some(loops) => Ok(between(loops, z.0, z.1)),
        None => Ok(None),
    }
}

/// The loop of a rectangle.
fn rectangle_points(alloc: Global, x: (i32, i32), y: (i32, i32)) -> Result<PointLists, AllocError>
    ensures { IfOk result (λ points. points ≡ rectangle x.0 x.1 y.0 y.1 ∷ []) }
{
    let corners = [
        Point { x: x.0, y: y.0 },
        Point { x: x.1, y: y.0 },
        Point { x: x.1, y: y.1 },
        Point { x: x.0, y: y.1 },
    ];
    let loop_points = Listed::from_slice(alloc, &corners)?;
    let mut points = Listed::new(alloc);
    points.push(loop_points)?;
    Ok(points)
}
