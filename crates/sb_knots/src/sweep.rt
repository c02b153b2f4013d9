//! The line passes over the corners.

ghost use Rattle.std.specs.Prelude.{◌≡◌, ℕ, ◌<◌, ◌≤◌, Bool, Some, None, Ok, false, length};
ghost use Rattle.std.specs.Prelude.{slice_get, IsTrue};
ghost use Rattle.std.specs.Prelude.{List, IfOk, IfSome};
ghost use Rattle.std.specs.List.{concat, list_all, list_any};
ghost use Rattle.theory_lists.specs.Parted.{IsPartedAt};
ghost use Rattle.sb_fraction.specs.declared.point.Point.{Point};
ghost use Rattle.sb_fraction.specs.Plane.{is_plan_point};
ghost use Rattle.theory_plans.specs.Plans.{are_apart};
ghost use Rattle.theory_sweep.specs.Corners.{Corner};
ghost use Rattle.sb_knots.specs.Steps.{is_edge, lies_under, ids_of, are_linked, may_follow};
ghost use Rattle.sb_knots.specs.Steps.{joint_at, HaveBegun};
ghost use Rattle.sb_blocks.specs.Places.{rank_of, IsPlace};
ghost use Rattle.sb_knots.specs.Listing.{IsListing, IsSwept};
ghost use Rattle.sb_knots.specs.Steps.{closed_at, begun_at, is_even_below};

use crate::begun::{Begun, edges_begun, is_even_below};
use crate::corners::Corner;
use crate::standing::{close, may_join, place_over, put_begun};
use sb_blocks::{Blocks, Place};
use sb_fraction::Point;
use std::alloc::{AllocError, Global};

/// Lets edges begin, if they may be neighbours of those before and behind them. Answers whether an
/// even number of edges lies below that to the point after the corner, of two that begin.
fn begin(
    corners: &[Corner],
    standing: &mut Blocks,
    v: Point,
    begun: Begun,
) -> Result<Option<bool>, AllocError>
    requires ids { IsTrue (list_all (is_edge corners.now) (concat standing.old)) }
    requires v_in { IsTrue (is_plan_point v) }
    requires begun_in { IsTrue (list_all (is_edge corners.now) (ids_of begun)) }
    requires over { list_any (lies_under corners.now v) (ids_of begun) ≡ false }
    ensures ids { IsTrue (list_all (is_edge corners.now) (concat standing.new)) }
    ensures refused { result ≡ Ok None → (n : ℕ) → n ≤ length (concat standing.old)
        → IsPartedAt (lies_under corners.now v) n (concat standing.old)
        → are_linked (may_follow corners.now) (joint_at n begun (concat standing.old)) ≡ false }
    ensures begun { (left : Bool) → result ≡ Ok (Some left)
        → (n : ℕ) → n ≤ length (concat standing.old)
        → IsPartedAt (lies_under corners.now v) n (concat standing.old)
        → HaveBegun corners.now begun n (concat standing.old) (concat standing.new) left }
{
    let place = place_over(corners, standing, v);
    if !may_join(corners, standing, place, begun) {
        return Ok(None);
    }
    let even = is_even_there(standing, place, begun);
    put_begun(corners, standing, v, begun)?;
    Ok(Some(even))
}

// Of two edges that begin at the place, whether an even number lies below that to the point after.
// Only
// for two are the blocks gone through.
fn is_even_there(standing: &Blocks, place: Place, begun: Begun) -> bool
    requires { IsPlace standing.now place }
    ensures { result ≡ is_even_below (rank_of standing.now place) begun }
{
    match begun {
        Begun::Two(_, _) => is_even_below(standing.rank(place), begun),
        Begun::One(_) => false,
        Begun::Neither => false,
    }
}

/// The line passes corner `k`.
fn pass_corner(
    corners: &[Corner],
    standing: &mut Blocks,
    k: usize,
) -> Result<Option<bool>, AllocError>
    requires ids { IsTrue (list_all (is_edge corners.now) (concat standing.old)) }
    requires within { k < length corners.now }
    requires few { length corners.now ≤ 2147483648 }
    ensures ids { IsTrue (list_all (is_edge corners.now) (concat standing.new)) }
    ensures refused { result ≡ Ok None → (c : Corner) → slice_get corners.now k ≡ Some c
        → (n : ℕ) → n ≤ length (concat standing.old)
        → IsPartedAt (lies_under corners.now c.at) n (concat standing.old)
        → are_linked (may_follow corners.now)
        (joint_at n (begun_at c k) (closed_at corners.now c.at n (concat standing.old))) ≡ false }
    ensures begun { (left : Bool) → result ≡ Ok (Some left)
        → (c : Corner) → slice_get corners.now k ≡ Some c
        → (n : ℕ) → n ≤ length (concat standing.old)
        → IsPartedAt (lies_under corners.now c.at) n (concat standing.old)
        → HaveBegun corners.now (begun_at c k) n (closed_at corners.now c.at n (concat standing.old))
        (concat standing.new) left }
{
    let c = corners[k];
    let begun = edges_begun(c, k as u32);
    close(corners, standing, c.at);
    begin(corners, standing, c.at, begun)
}

/// The line passes over all corners. Answers for each whether an even number of edges lies below
/// that
/// to the point after it, where two begin; or `None` as soon as two neighbours may not be so.
pub(crate) fn sweep(alloc: Global, corners: &[Corner]) -> Result<Option<Vec<bool>>, AllocError>
    requires few { length corners.now ≤ 2147483648 }
    ensures knotted { result ≡ Ok None → (loops : List (List Point)) → IsListing loops corners.now
        → are_apart loops ≡ false }
    ensures swept { IfOk result (λ some. IfSome some (λ lefts. (loops : List (List Point))
        → IsListing loops corners.now → IsSwept loops corners.now lefts.items)) }
{
    let mut standing = Blocks::new(alloc);
    let mut lefts = Vec::new(alloc);
    'corners: for k in 0..corners.len() {
        match pass_corner(corners, &mut standing, k)? {
            Some(left) => lefts.push(left)?,
            None => return Ok(None),
        }
    }
    Ok(Some(lefts))
}
