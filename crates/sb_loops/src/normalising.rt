//! Each loop without the points that are not needed.

ghost use Rattle.std.specs.Prelude.{◌≡◌, ◌≤◌, true, length, IfOk, IfSome, IfNone};
ghost use Rattle.theory_loops.specs.Answers.{are_flat, keeps_few};
ghost use Rattle.sb_loops.specs.Ways.{IsLeft, AreLeft};

use crate::beginning::from_least;
use crate::straightening::{closed, straightened};
use sb_fraction::Point;
use sb_knots::{PointLists, Points};
use sb_list::Listed;
use std::alloc::{AllocError, Global};

/// What is left of each loop, in their order. `None` exactly where the loops are flat.
pub(crate) fn all_left(alloc: Global, loops: &PointLists) -> Result<Option<PointLists>, AllocError>
    ensures flat { IfOk result (λ answer. IfNone answer (are_flat loops.now ≡ true)) }
    ensures left { IfOk result (λ answer. IfSome answer (AreLeft loops.now)) }
    ensures some { IfOk result (λ answer. IfSome answer (λ _. 1 ≤ length loops.now)) }
{
    if loops.is_empty() {
        return Ok(None);
    }
    let mut lefts = Listed::new(alloc);
    for points in loops.as_slice() {
        match left_of(alloc, points.as_slice())? {
            Some(left) => lefts.push(left)?,
            None => return Ok(None),
        }
    }
    Ok(Some(lefts))
}

// The loop without the points that are not needed, from its least point on. `None` exactly where it
// keeps fewer than three.
fn left_of(alloc: Global, points: &[Point]) -> Result<Option<Points>, AllocError>
    ensures few { IfOk result (λ answer. IfNone answer (keeps_few points.now ≡ true)) }
    ensures left { IfOk result (λ answer. IfSome answer (IsLeft points.now)) }
{
    let kept = straightened(alloc, points)?;
    let left = closed(kept.as_slice());
    if left.len() < 3 {
        return Ok(None);
    }
    let left = from_least(alloc, left)?;
    Ok(Some(left))
}
