// The loops of a solid in whole millimetres, counted from its anchors, as they are seen from one side.
ghost use Rattle.std.specs.Prelude.{◌≡◌, ◌≤◌, ◌+ℤ◌, ◌^◌, IfOk, unsigned_abs};
ghost use Rattle.sb_solid.specs.Judged as spec;

use crate::counting::base;
use crate::points::axes::View;
use crate::points::sizes::{Lying, Lyings, Wide};
use sb_fraction::Point;
use sb_list::Listed;
use sb_loops::{PointLists, Points};
use std::alloc::{AllocError, Global};

/// The loops as they are seen; `None` exactly where a coordinate lies too far from its anchor.
pub(crate) fn seen_loops(
    alloc: Global,
    loops: &[Lyings],
    anchors: Wide,
    view: View,
) -> Result<Option<PointLists>, AllocError>
    ensures { IfOk result (λ all. spec.AreSeen view anchors loops.now all) }
{
    let mut all = Listed::new(alloc);
    'loops: for points in loops {
        let Some(next) = seen_points(alloc, points.as_slice(), anchors, view)? else {
            return Ok(None);
        };
        all.push(next)?;
    }
    Ok(Some(all))
}

fn seen_points(
    alloc: Global,
    points: &[Lying],
    anchors: Wide,
    view: View,
) -> Result<Option<Points>, AllocError>
    ensures { IfOk result (λ all. spec.IsSeenLoop view anchors points.now all) }
{
    let mut all = Listed::new(alloc);
    'points: for point in points {
        let Some(next) = seen(*point, anchors, view) else {
            return Ok(None);
        };
        all.push(next)?;
    }
    Ok(Some(all))
}

/// A point as it is seen.
fn seen(point: Lying, anchors: Wide, view: View) -> Option<Point>
    ensures { spec.IsSeenPoint view anchors point result }
{
    match view {
        View::Above => point_of(base(anchors.x, point.x), base(anchors.y, point.y)),
        View::AlongX => point_of(base(anchors.y, point.y), base(anchors.z, point.z)),
        View::AlongY => point_of(base(anchors.x, point.x), base(anchors.z, point.z)),
    }
}

fn point_of(x: Option<i32>, y: Option<i32>) -> Option<Point>
    ensures { result ≡ spec.point_of x y }
{
    match (x, y) {
        (Some(x), Some(y)) => Some(Point { x, y }),
        _ => None,
    }
}

/// Where the first point lies along the line of sight, at the near end and at the far end.
pub(crate) fn ends(loops: &[Lyings], anchors: Wide, way: Lying, view: View) -> Option<(i32, i32)>
    ensures { spec.AreEnds view anchors way loops.now result }
{
    let first = first_of(loops)?;
    match view {
        View::Above => both(
            base(anchors.z, first.z),
            base(anchors.z, far(first.z, way.z)),
        ),
        View::AlongX => both(
            base(anchors.x, first.x),
            base(anchors.x, far(first.x, way.x)),
        ),
        View::AlongY => both(
            base(anchors.y, first.y),
            base(anchors.y, far(first.y, way.y)),
        ),
    }
}

fn far(near: i128, way: i128) -> i128
    requires near_in { unsigned_abs near ≤ 10 ^ 18 }
    requires way_in { unsigned_abs way ≤ 10 ^ 18 }
    ensures value { result ≡ near +ℤ way }
    ensures small { unsigned_abs result ≤ 2 ^ 61 }
{
    near + way
}

fn both(a: Option<i32>, b: Option<i32>) -> Option<(i32, i32)>
    ensures { result ≡ spec.both a b }
{
    match (a, b) {
        (Some(a), Some(b)) => Some((a, b)),
        _ => None,
    }
}

/// The first point of the first loop.
fn first_of(loops: &[Lyings]) -> Option<Lying>
    ensures { result ≡ spec.first_of loops.now }
{
    loops.first()?.get(0).copied()
}
