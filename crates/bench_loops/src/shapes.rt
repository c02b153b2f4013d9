//! Loops of four shapes.

ghost use Rattle.std.specs.Prelude.{◌≤ℤ◌, ◌<ℤ◌, pos, IsTrue, IfOk};
ghost use Rattle.std.specs.List.{list_all};
ghost use Rattle.sb_fraction.specs.Plane.{is_plan_point, is_coordinate};

use sb_fraction::Point;
use sb_list::Listed;
use sb_loops::{PointLists, Points};
use std::alloc::{AllocError, Global};

/// A shape of one loop.
#[derive(Clone, Copy)]
pub enum Shape {
    /// A comb whose teeth begin together, in the order of x: three points a tooth.
    Together,
    /// One whose teeth begin one after another.
    Apart,
    /// A way that winds outwards and back beside itself: eight points a turn.
    Spiral,
    /// A way that goes up and down, there and back: two points for each x.
    Way,
}

/// The shape of this name.
pub fn shape_of(name: &str) -> Option<Shape> {
    match name {
        "together" => Some(Shape::Together),
        "apart" => Some(Shape::Apart),
        "spiral" => Some(Shape::Spiral),
        "way" => Some(Shape::Way),
        _ => None,
    }
}

/// One loop of the shape, of this size, within range.
pub fn loops_of(alloc: Global, shape: Shape, size: u32) -> Result<PointLists, AllocError>
    ensures { IfOk result (λ loops. IsTrue (list_all (list_all is_plan_point) loops)) }
{
    let points = match shape {
        Shape::Together => comb(alloc, size, false)?,
        Shape::Apart => comb(alloc, size, true)?,
        Shape::Spiral => spiral(alloc, size)?,
        Shape::Way => way(alloc, size)?,
    };
    let mut loops = Listed::new(alloc);
    loops.push(points)?;
    Ok(loops)
}

fn comb(alloc: Global, teeth: u32, stands: bool) -> Result<Points, AllocError>
    ensures { IfOk result (λ points. IsTrue (list_all is_plan_point points)) }
{
    let mut points = Listed::new(alloc);
    'teeth: for tooth in 0..teeth {
        let along = 3 * tooth as i64 - 500000;
        points.push(point(stands, 0, along))?;
        points.push(point(stands, 1000, along + 1))?;
        points.push(point(stands, 0, along + 2))?;
    }
    points.push(point(stands, -10, 3 * teeth as i64 - 500000))?;
    points.push(point(stands, -10, -500000))?;
    Ok(points)
}

fn spiral(alloc: Global, turns: u32) -> Result<Points, AllocError>
    ensures { IfOk result (λ points. IsTrue (list_all is_plan_point points)) }
{
    let mut points = Listed::new(alloc);
    'out: for turn in 0..turns {
        let r = 4 * turn as i64 + 4;
        points.push(point(false, r, -r))?;
        points.push(point(false, r, r))?;
        points.push(point(false, -r, r))?;
        points.push(point(false, -r, -r - 4))?;
    }
    'back: for turn in 0..turns {
        let r = 4 * (turns - turn) as i64 - 2;
        points.push(point(false, -r, -r - 4))?;
        points.push(point(false, -r, r))?;
        points.push(point(false, r, r))?;
        points.push(point(false, r, -r))?;
    }
    Ok(points)
}

fn way(alloc: Global, steps: u32) -> Result<Points, AllocError>
    ensures { IfOk result (λ points. IsTrue (list_all is_plan_point points)) }
{
    let mut points = Listed::new(alloc);
    'there: for step in 0..steps {
        let x = step as i64;
        points.push(point(false, x - 500000, height(x)))?;
    }
    'back: for step in 0..steps {
        let x = (steps - step) as i64 - 1;
        points.push(point(false, x - 500000, -1 - height(x)))?;
    }
    Ok(points)
}

// How high the way is at x: no three neighbours lie on one line.
fn height(x: i64) -> i64
    ensures low { pos 0 ≤ℤ x → pos 0 ≤ℤ result }
    ensures high { result <ℤ pos 1009 }
{
    let rest = x % 1009;
    rest * rest % 1009
}

// The point, or with its coordinates exchanged, kept within range.
fn point(exchanged: bool, x: i64, y: i64) -> Point
    ensures { IsTrue (is_plan_point result) }
{
    if exchanged {
        Point {
            x: within(y),
            y: within(x),
        }
    } else {
        Point {
            x: within(x),
            y: within(y),
        }
    }
}

fn within(x: i64) -> i32
    ensures { IsTrue (is_coordinate result) }
{
    if x > 500000 {
        500000
    } else if x < -500000 {
        -500000
    } else {
        x as i32
    }
}
