//! The plan of loops.

ghost use Rattle.std.specs.Prelude.{◌≡◌, ◌↔◌, map, true, false, IsTrue, IfOk, Err, length};
ghost use Rattle.std.specs.List.{list_all, AllByRecursion};
ghost use Rattle.sb_fraction.specs.Plane.{is_plan_point};
ghost use Rattle.theory_plans.specs.LoopEdges.{edges_of};
ghost use Rattle.theory_plans.specs.Loops as loops;
ghost use Rattle.theory_plans.specs.Plans.{are_apart, is_plan};
ghost use Rattle.theory_parity.specs.Sides.{put_left};
ghost use Rattle.theory_loops.specs.Answers as answers;
ghost use Rattle.sb_loops.specs.Answers.{IsInTime};
ghost use Rattle.sb_loops.specs.Ways.{HasBegun};

use crate::bends::comes_before;
use crate::error::LoopError;
use crate::normalising::all_left;
use crate::turning::turned_by;
use sb_fraction::Point;
use sb_knots::{PointLists, senses};
use std::alloc::Global;

/// The plan of these loops of plan points, in whole millimetres (mm), in any sense, with doubled
/// points and with points that are not needed.
///
/// - `Ok(loops)`: each loop without its points that lie on one line with their neighbours, doubled
///   points and spikes among them, from its least point on, and turned so that the solid lies on
///   its left, by parity over all loops; in the order handed in. They are a plan.
/// - `Err(Flat)`: exactly where there is no loop, or one keeps fewer than three points. Tried
///   first.
/// - `Err(Knot)`: exactly where none is flat and two edges meet otherwise than as consecutive ends.
/// - `Err(NoMemory)`: at any time. The two others yield to it.
pub fn plan_of(alloc: Global, points: PointLists) -> Result<PointLists, LoopError>
    requires in_range { IsTrue (list_all (list_all is_plan_point) points) }
    ensures plan { IfOk result (λ plan. plan ≡ answers.plan_of points) }
    ensures is_plan { IfOk result (λ plan. IsTrue (is_plan plan)) }
    ensures flat { IsInTime result
        → (result ≡ Err LoopError.Flat) ↔ (answers.are_flat points ≡ true) }
    ensures knot { IsInTime result
        → (result ≡ Err LoopError.Knot) ↔ (answers.are_knotted points ≡ true) }
{
    match all_left(alloc, &points) {
        Ok(Some(left)) => turned(alloc, &left),
        Ok(None) => Err(LoopError::Flat),
        Err(_) => Err(LoopError::NoMemory),
    }
}

// The loops, from which nothing is left to drop, turned so that the solid lies on their left.
fn turned(alloc: Global, left: &PointLists) -> Result<PointLists, LoopError>
    requires in_range { IsTrue (list_all (list_all is_plan_point) left.now) }
    requires bent { IsTrue (list_all loops.is_bent_loop left.now) }
    requires begun { AllByRecursion HasBegun left.now }
    ensures plan { IfOk result (λ plan. plan ≡ map (put_left (edges_of left.now)) left.now) }
    ensures least { IfOk result (λ plan. list_all loops.is_least_first left.now ≡ true) }
    ensures not_flat { result ≡ Err LoopError.Flat → ⊥ }
    ensures knot { IsInTime result
        → (result ≡ Err LoopError.Knot) ↔ (are_apart left.now ≡ false) }
{
    if !are_least_first(left) {
        return Err(LoopError::Knot);
    }
    match senses(alloc, left) {
        Ok(Some(senses)) => match turned_by(alloc, left, &senses) {
            Ok(plan) => Ok(plan),
            Err(_) => Err(LoopError::NoMemory),
        },
        Ok(None) => Err(LoopError::Knot),
        Err(_) => Err(LoopError::NoMemory),
    }
}

// Whether each loop begins before all its other points: so it does if no point stands in it twice.
fn are_least_first(left: &PointLists) -> bool
    ensures { result ≡ list_all loops.is_least_first left.now }
{
    for points in left.as_slice() {
        if !is_least_first(points.as_slice()) {
            return false;
        }
    }
    true
}

fn is_least_first(points: &[Point]) -> bool
    ensures { result ≡ loops.is_least_first points.now }
{
    match points.split_first() {
        Some((first, rest)) => comes_before_all(*first, rest),
        None => true,
    }
}

fn comes_before_all(first: Point, rest: &[Point]) -> bool
    ensures { result ≡ list_all (loops.comes_before first) rest.now }
{
    for b in rest {
        if !comes_before(first, *b) {
            return false;
        }
    }
    true
}
