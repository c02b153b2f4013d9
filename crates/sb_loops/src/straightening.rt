//! Dropping the points on the way from the first to the last that are not needed.

ghost use Rattle.std.specs.Prelude.{◌≡◌, ◌++◌, ◌∷◌, [], ◌≤◌, List, length, drop, true, IsTrue};
ghost use Rattle.std.specs.Prelude.{IfOk};
ghost use Rattle.sb_fraction.specs.declared.point.Point.{Point as PlanPoint};
ghost use Rattle.theory_plans.specs.Loops.{is_bent_loop};
ghost use Rattle.theory_loops.specs.Orders.{Becomes};
ghost use Rattle.sb_loops.specs.Ways as ways;

use crate::bends::is_bent;
use sb_fraction::Point;
use std::alloc::{AllocError, Global};

/// The points without those on one line with their neighbours, so that the way over them is bent
/// at each but the first and the last. One pass: each point is put on a stack, from which those
/// before it that are not needed then are taken.
pub(crate) fn straightened(alloc: Global, points: &[Point]) -> Result<Vec<Point>, AllocError>
    ensures becomes { IfOk result (λ kept. Becomes points.now kept.items) }
    ensures bent { IfOk result (λ kept. IsTrue (ways.is_bent_way kept.items)) }
{
    let mut kept = Vec::new(alloc);
    for b in points {
        drop_straight(&mut kept, *b);
        kept.push(*b)?;
    }
    Ok(kept)
}

// Takes the last points away while they are on one line with the one before them and `b`.
fn drop_straight(kept: &mut Vec<Point>, b: Point)
    requires { IsTrue (ways.is_bent_way kept.old.items) }
    ensures becomes { (rest : List PlanPoint)
        → Becomes (kept.old.items ++ b ∷ rest) (kept.new.items ++ b ∷ rest) }
    ensures bent { IsTrue (ways.is_bent_way (kept.new.items ++ b ∷ [])) }
{
    'points: while is_last_straight(kept.as_slice(), b) {
        let _ = kept.pop();
    }
}

/// The closed way without the points at its joint that are on one line with their neighbours, from
/// the last one backwards and from the first one on.
pub(crate) fn closed(kept: &[Point]) -> &[Point]
    requires { IsTrue (ways.is_bent_way kept.now) }
    ensures becomes { Becomes kept.now result.now }
    ensures bent { 3 ≤ length result.now → is_bent_loop result.now ≡ true }
{
    let mut left = kept;
    'points: while left.len() >= 3 {
        if is_last_straight(left, left[0]) {
            left = &left[..left.len() - 1];
        } else if is_first_straight(left) {
            left = without_first(left);
        } else {
            return left;
        }
    }
    left
}

fn without_first(left: &[Point]) -> &[Point]
    requires { 1 ≤ length left.now }
    ensures { result.now ≡ drop 1 left.now }
{
    &left[1..]
}

// Whether the last point is on one line with the one before it and `next`.
fn is_last_straight(kept: &[Point], next: Point) -> bool
    ensures { result ≡ ways.is_last_straight kept.now next }
{
    let len = kept.len();
    if len < 2 {
        return false;
    }
    !is_bent(kept[len - 2], kept[len - 1], next)
}

// Whether the first point is on one line with the last and the second.
fn is_first_straight(left: &[Point]) -> bool
    ensures { result ≡ ways.is_first_straight left.now }
{
    let len = left.len();
    if len < 2 {
        return false;
    }
    !is_bent(left[len - 1], left[0], left[1])
}
