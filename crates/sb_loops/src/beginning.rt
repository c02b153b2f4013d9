//! Reading a closed loop from its least point.

ghost use Rattle.std.specs.Prelude.{◌≡◌, ◌≤◌, ◌<◌, ◌++◌, [], length, take, drop, IfOk};
ghost use Rattle.theory_plans.specs.Plans as plans;
ghost use Rattle.theory_loops.specs.Normal as normal;

use crate::bends::comes_before;
use sb_fraction::Point;
use sb_knots::Points;
use sb_list::Listed;
use std::alloc::{AllocError, Global};

/// The closed loop, read from the first of its points that no other comes before.
pub(crate) fn from_least(alloc: Global, points: &[Point]) -> Result<Points, AllocError>
    ensures { IfOk result (λ read. read ≡ normal.from_least points.now) }
{
    if points.is_empty() {
        return Ok(Listed::new(alloc));
    }
    let first = place_of(points, least(points));
    read_from(alloc, points, first)
}

// The least point.
fn least(points: &[Point]) -> Point
    requires { 0 < length points.now }
    ensures { normal.from_least points.now ≡ normal.read_from result [] points.now }
{
    let mut least = points[0];
    for b in &points[1..] {
        if comes_before(*b, least) {
            least = *b;
        }
    }
    least
}

// The first place of a point.
fn place_of(points: &[Point], m: Point) -> usize
    ensures within { result ≤ length points.now }
    ensures read { normal.read_from m [] points.now
        ≡ drop result points.now ++ take result points.now }
{
    for (k, b) in points.iter().enumerate() {
        if is_same_point(*b, m) {
            return k;
        }
    }
    points.len()
}

fn is_same_point(a: Point, b: Point) -> bool
    ensures { result ≡ plans.is_same_point a b }
{
    a.x == b.x && a.y == b.y
}

// The points from a place on, and then those before it.
fn read_from(alloc: Global, points: &[Point], first: usize) -> Result<Points, AllocError>
    requires { first ≤ length points.now }
    ensures { IfOk result (λ read. read ≡ drop first points.now ++ take first points.now) }
{
    let mut read = Listed::from_slice(alloc, &points[first..])?;
    for b in &points[..first] {
        read.push(*b)?;
    }
    Ok(read)
}
