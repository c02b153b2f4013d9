// Prisms that are moved by whole millimetres.
ghost use Rattle.std.specs.Prelude.{◌≡◌, ◌≤◌, ◌^◌, IfOk, unsigned_abs, IsTrue, Err, OnErr};
ghost use Rattle.theory_numbers.specs.Arrows.{arrow};
ghost use Rattle.sb_fraction.specs.Spots.{vector};
ghost use Rattle.sb_solid.specs.Moving as spec;

use crate::boxes::plan_where;
use crate::error::SolidError;
use sb_fraction::Point;
use sb_list::Listed;
use sb_loops::{PointLists, Points};
use sb_model::Prism;
use std::alloc::{AllocError, Global};

/// So many whole millimetres along x, y and z.
#[derive(Clone, Copy)]
pub(crate) struct Displacement {
    pub(crate) x: i128,
    pub(crate) y: i128,
    pub(crate) z: i128,
}

/// The prism moved so far; `Loops` only where it is then out of range.
pub(crate) fn moved(alloc: Global, prism: &Prism, steps: Displacement) -> Result<Prism, SolidError>
    requires { spec.AreFew steps }
    ensures { spec.IsMoved steps prism.now result }
{
    let Some(points) = moved_loops(alloc, prism.loops().points(), steps)? else {
        return Err(SolidError::Loops);
    };
    let Some(z0) = moved_height(prism.z0(), steps.z) else {
        return Err(SolidError::Loops);
    };
    let Some(z1) = moved_height(prism.z1(), steps.z) else {
        return Err(SolidError::Loops);
    };
    match plan_where(alloc, points)? {
        Some(loops) => Ok(Prism::new(loops, z0, z1)),
        None => Err(SolidError::Loops),
    }
}

/// The loops moved so far; `None` exactly where a point is then out of range.
fn moved_loops(
    alloc: Global,
    loops: &PointLists,
    steps: Displacement,
) -> Result<Option<PointLists>, AllocError>
    requires { spec.AreFew steps }
    ensures { IfOk result (λ all. spec.AreMoved steps loops.now all) }
{
    let mut all = Listed::new(alloc);
    'loops: for points in loops.as_slice() {
        let Some(next) = moved_points(alloc, points.as_slice(), steps)? else {
            return Ok(None);
        };
        all.push(next)?;
    }
    Ok(Some(all))
}

fn moved_points(
    alloc: Global,
    points: &[Point],
    steps: Displacement,
) -> Result<Option<Points>, AllocError>
    requires { spec.AreFew steps }
    ensures { IfOk result (λ all. spec.IsMovedLoop steps points.now all) }
{
    let mut all = Listed::new(alloc);
    'points: for point in points {
        let Some(next) = moved_point(*point, steps) else {
            return Ok(None);
        };
        all.push(next)?;
    }
    Ok(Some(all))
}

fn moved_point(point: Point, steps: Displacement) -> Option<Point>
    requires { spec.AreFew steps }
    ensures { spec.IsMovedPoint steps point result }
{
    let x = moved_height(point.x, steps.x)?;
    let y = moved_height(point.y, steps.y)?;
    Some(Point { x, y })
}

/// A coordinate moved so far; `None` exactly where it is then out of range.
fn moved_height(number: i32, by: i128) -> Option<i32>
    requires { unsigned_abs by ≤ 2 ^ 67 }
    ensures { spec.IsMovedNumber by number result }
{
    let sum = number as i128 + by;
    if sum.unsigned_abs() <= 500_000 {
        Some(sum as i32)
    } else {
        None
    }
}
