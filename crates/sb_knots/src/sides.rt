//! The answer: apart or not, and the sense of each loop.

ghost use Rattle.std.specs.Prelude.{◌≡◌, ◌↔◌, ℕ, ◌+◌, ◌<◌, ◌≤◌, map, true, false, None, IsTrue};
ghost use Rattle.std.specs.Prelude.{IfOk, IfSome};
ghost use Rattle.std.specs.Prelude.{length, List, slice_index_or, take};
ghost use Rattle.std.specs.List.{list_all};
ghost use Rattle.std.specs.List.Sorted.{IsNonDecreasingBy, IsPermutation};
ghost use Rattle.theory_lists.specs.Members.{Stands};
ghost use Rattle.sb_fraction.specs.declared.point.Point.{Point};
ghost use Rattle.sb_fraction.specs.Plane.{is_plan_point};
ghost use Rattle.theory_plans.specs.LoopEdges.{edges_of};
ghost use Rattle.theory_plans.specs.Loops.{is_bent_loop, is_least_first};
ghost use Rattle.theory_plans.specs.Plans.{are_apart};
ghost use Rattle.theory_parity.specs.Sides.{is_left_at_first};
ghost use Rattle.theory_sweep.specs.Corners.{Corner, corners_of};
ghost use Rattle.sb_knots.specs.Listing.{IsListing, IsSwept, IsFallen};
ghost use Rattle.sb_knots.specs.Steps.{key_of};

use crate::corners::{Corner, corners_in_order, pass_at};
use crate::lists::{PointLists, Senses};
use crate::sweep::sweep;
use sb_fraction::Point;
use sb_list::Listed;
use std::alloc::{AllocError, Global};

/// How many corners have edges with numbers of 32 bits.
const MOST: usize = 2147483648;

/// Of normalised loops, whether their edges are apart, and for each loop whether the solid lies on
/// its
/// left: for all edges of the loop or for none.
///
/// - `Ok(None)`: exactly where two edges meet otherwise than as consecutive ends, or a point is a
/// corner
///   twice.
/// - `Ok(Some(senses))`: for each loop, in order, whether the solid lies left of its first edge, by
///   the parity of the edges of all loops.
///
/// More than 2^31 corners are answered as want of memory.
pub fn senses(alloc: Global, loops: &PointLists) -> Result<Option<Senses>, AllocError>
    requires in_range { IsTrue (list_all (list_all is_plan_point) loops.now) }
    requires bent { IsTrue (list_all is_bent_loop loops.now) }
    requires least { IsTrue (list_all is_least_first loops.now) }
    ensures knot { IfOk result (λ answer. (answer ≡ None) ↔ (are_apart loops.now ≡ false)) }
    ensures senses { IfOk result (λ answer. IfSome answer
        (λ list. list ≡ map (is_left_at_first (edges_of loops.now)) loops.now)) }
{
    let corners = corners_in_order(alloc, loops)?;
    if corners.len() > MOST {
        return Err(AllocError);
    }
    senses_by(alloc, loops, corners.as_slice())
}

/// The same, by the corners in their order.
fn senses_by(
    alloc: Global,
    loops: &PointLists,
    corners: &[Corner],
) -> Result<Option<Senses>, AllocError>
    requires in_range { IsTrue (list_all (list_all is_plan_point) loops.now) }
    requires bent { IsTrue (list_all is_bent_loop loops.now) }
    requires least { IsTrue (list_all is_least_first loops.now) }
    requires are { IsPermutation (corners_of loops.now) corners.now }
    requires sorted { IsNonDecreasingBy key_of corners.now }
    requires few { length corners.now ≤ 2147483648 }
    ensures knot { IfOk result (λ answer. (answer ≡ None) ↔ (are_apart loops.now ≡ false)) }
    ensures senses { IfOk result (λ answer. IfSome answer
        (λ list. list ≡ map (is_left_at_first (edges_of loops.now)) loops.now)) }
{
    if !are_rising(corners) {
        return Ok(None);
    }
    match sweep(alloc, corners)? {
        None => Ok(None),
        Some(lefts) => {
            let senses = senses_of(alloc, loops, corners, lefts.as_slice())?;
            Ok(Some(senses))
        }
    }
}

/// Each corner is passed before the next.
fn are_rising(corners: &[Corner]) -> bool
    ensures rising { result ≡ true → (j : ℕ) (d : Corner) → j + 1 < length corners.now
        → key_of (slice_index_or corners.now j d) < key_of (slice_index_or corners.now (j + 1) d) }
    ensures fallen { result ≡ false → IsFallen corners.now }
{
    'corners: for i in 1..corners.len() {
        if corners[i - 1].pass() >= corners[i].pass() {
            return false;
        }
    }
    true
}

/// The senses of the loops, by the answers at their first corners.
fn senses_of(
    alloc: Global,
    loops: &PointLists,
    corners: &[Corner],
    lefts: &[bool],
) -> Result<Senses, AllocError>
    requires count { length lefts.now ≡ length corners.now }
    requires sorted { IsNonDecreasingBy key_of corners.now }
    ensures { IfOk result (λ senses. IsListing loops.now corners.now
        → IsSwept loops.now corners.now lefts.now
        → list_all is_least_first loops.now ≡ true
        → senses ≡ map (is_left_at_first (edges_of loops.now)) loops.now) }
{
    let mut senses = Listed::new(alloc);
    'loops: for points in loops.as_slice() {
        senses.push(sense_of(corners, lefts, points.as_slice()))?;
    }
    Ok(senses)
}

/// The answer at the first point of a loop.
fn sense_of(corners: &[Corner], lefts: &[bool], points: &[Point]) -> bool
    requires count { length lefts.now ≡ length corners.now }
    requires sorted { IsNonDecreasingBy key_of corners.now }
    ensures { (loops : List (List Point)) → IsListing loops corners.now
        → IsSwept loops corners.now lefts.now → Stands points.now loops
        → is_least_first points.now ≡ true
        → result ≡ is_left_at_first (edges_of loops) points.now }
{
    if points.is_empty() {
        return true;
    }
    match corners.binary_search_by_key(&pass_at(points[0]), |c| c.pass()) {
        Ok(at) => lefts[at],
        Err(_) => true,
    }
}
