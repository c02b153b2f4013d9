//! The edges over which the line stands, in order from below.

ghost use Rattle.std.specs.Prelude.{◌≡◌, ◌≢◌, ℕ, ◌<◌, ◌≤◌, ◌/◌, ◌++◌, ◌∷◌, [], take, drop, length};
ghost use Rattle.std.specs.Prelude.{slice_get};
ghost use Rattle.std.specs.Prelude.{remove, insert, IsTrue, OnOk, true, false, nat_lt, Option};
ghost use Rattle.std.specs.Prelude.{◌&&◌};
ghost use Rattle.std.specs.List.{concat, list_all, list_any};
ghost use Rattle.theory_lists.specs.Parted.{IsPartedAt};
ghost use Rattle.sb_fraction.specs.Plane.{is_plan_point};
ghost use Rattle.sb_blocks.specs.Places.{rank_of, IsPlace, item_before};
ghost use Rattle.sb_knots.specs.Steps.{edge_at, is_edge, lies_under, ends_at, drop_first, ids_of};
ghost use Rattle.sb_knots.specs.Steps.{are_linked};
ghost use Rattle.sb_knots.specs.Steps.{may_follow, listed, IsTaken, IsLeft, IsClosed};

use crate::begun::Begun;
use crate::corners::Corner;
use crate::edges::LoopEdge;
use crate::meeting::{is_same_point, is_under, may_be_neighbours};
use sb_blocks::{Blocks, Place, Test};
use sb_fraction::Point;
use std::alloc::AllocError;

/// The edge with this number.
pub(crate) fn edge(corners: &[Corner], id: u32) -> LoopEdge
    requires { IsTrue (is_edge corners.now id) }
    ensures { result ≡ edge_at corners.now id }
{
    let c = corners[(id / 2) as usize];
    if id % 2 == 0 {
        LoopEdge {
            a: c.at,
            b: c.before,
        }
    } else {
        LoopEdge {
            a: c.at,
            b: c.after,
        }
    }
}

/// Whether an edge lies below a point.
#[derive(Clone, Copy)]
struct Under<'a> {
    corners: &'a [Corner],
    v: Point,
}

impl Test for Under<'_> {
    ghost can_test = { λ t id. is_edge t.corners.now id && is_plan_point t.v };

    ghost passes = { λ t id. lies_under t.corners.now t.v id };

    fn is_passed(&self, id: u32) -> bool {
        is_under(self.v, edge(self.corners, id))
    }
}

/// The place behind the edges that lie below the point, if these are the first ones.
pub(crate) fn place_over(corners: &[Corner], standing: &Blocks, v: Point) -> Place
    requires ids { IsTrue (list_all (is_edge corners.now) (concat standing.now)) }
    requires v_in { IsTrue (is_plan_point v) }
    ensures place { IsPlace standing.now result }
    ensures parted { (n : ℕ) → n ≤ length (concat standing.now)
        → IsPartedAt (lies_under corners.now v) n (concat standing.now)
        → rank_of standing.now result ≡ n }
{
    standing.first_failing(&Under { corners, v })
}

/// Takes out the first edge that does not lie below the point, if it ends there.
fn close_one(corners: &[Corner], standing: &mut Blocks, v: Point) -> bool
    requires ids { IsTrue (list_all (is_edge corners.now) (concat standing.old)) }
    requires v_in { IsTrue (is_plan_point v) }
    ensures taken { (n : ℕ) → n ≤ length (concat standing.old)
        → IsPartedAt (lies_under corners.now v) n (concat standing.old)
        → result ≡ true
        → IsTaken corners.now v n (concat standing.old) (concat standing.new) }
    ensures left { (n : ℕ) → n ≤ length (concat standing.old)
        → IsPartedAt (lies_under corners.now v) n (concat standing.old)
        → result ≡ false
        → IsLeft corners.now v n (concat standing.old) (concat standing.new) }
    ensures shorter { result ≡ true
        → length (concat standing.new) < length (concat standing.old) }
    ensures ids { IsTrue (list_all (is_edge corners.now) (concat standing.new)) }
{
    let place = place_over(corners, standing, v);
    let Some(place) = standing.following(place) else {
        return false;
    };
    match standing.at(place) {
        Some(id) => {
            if is_same_point(edge(corners, id).b, v) {
                let _ = standing.remove(place);
                true
            } else {
                false
            }
        }
        None => false,
    }
}

/// Takes out the edges behind those that lie below the point, as long as they end there.
pub(crate) fn close(corners: &[Corner], standing: &mut Blocks, v: Point)
    requires ids { IsTrue (list_all (is_edge corners.now) (concat standing.old)) }
    requires v_in { IsTrue (is_plan_point v) }
    ensures closed { (n : ℕ) → n ≤ length (concat standing.old)
        → IsPartedAt (lies_under corners.now v) n (concat standing.old)
        → IsClosed corners.now v n (concat standing.old) (concat standing.new) }
    ensures ids { IsTrue (list_all (is_edge corners.now) (concat standing.new)) }
{
    'closing: while close_one(corners, standing, v) {}
}

/// Puts an edge behind those that lie below the point.
#[tactic(auto, using(crate::proofs::EditsOfIds::all_inserted))]
fn put(corners: &[Corner], standing: &mut Blocks, v: Point, id: u32) -> Result<(), AllocError>
    requires ids { IsTrue (list_all (is_edge corners.now) (concat standing.old)) }
    requires v_in { IsTrue (is_plan_point v) }
    requires id_in { IsTrue (is_edge corners.now id) }
    ensures put { OnOk result ((n : ℕ) → n ≤ length (concat standing.old)
        → IsPartedAt (lies_under corners.now v) n (concat standing.old)
        → concat standing.new ≡ take n (concat standing.old) ++ id ∷ drop n (concat standing.old)) }
    ensures ids { IsTrue (list_all (is_edge corners.now) (concat standing.new)) }
{
    let place = place_over(corners, standing, v);
    standing.insert(place, id)
}

/// Puts the edges that begin behind those that lie below their point.
pub(crate) fn put_begun(
    corners: &[Corner],
    standing: &mut Blocks,
    v: Point,
    begun: Begun,
) -> Result<(), AllocError>
    requires ids { IsTrue (list_all (is_edge corners.now) (concat standing.old)) }
    requires v_in { IsTrue (is_plan_point v) }
    requires begun_in { IsTrue (list_all (is_edge corners.now) (ids_of begun)) }
    requires over { list_any (lies_under corners.now v) (ids_of begun) ≡ false }
    ensures put { OnOk result ((n : ℕ) → n ≤ length (concat standing.old)
        → IsPartedAt (lies_under corners.now v) n (concat standing.old)
        → concat standing.new
        ≡ take n (concat standing.old) ++ (ids_of begun ++ drop n (concat standing.old))) }
    ensures ids { IsTrue (list_all (is_edge corners.now) (concat standing.new)) }
{
    match begun {
        Begun::Neither => Ok(()),
        Begun::One(x) => put(corners, standing, v, x),
        Begun::Two(x, y) => {
            put(corners, standing, v, y)?;
            put(corners, standing, v, x)
        }
    }
}

/// Whether the edges that begin may be neighbours, and the edges before and behind the place
/// theirs.
#[tactic(auto, using(crate::proofs::EditsOfIds::links))]
pub(crate) fn may_join(corners: &[Corner], standing: &Blocks, place: Place, begun: Begun) -> bool
    requires ids { IsTrue (list_all (is_edge corners.now) (concat standing.now)) }
    requires place { IsPlace standing.now place }
    requires begun_in { IsTrue (list_all (is_edge corners.now) (ids_of begun)) }
    ensures { result ≡ are_linked (may_follow corners.now)
        (listed (item_before (concat standing.now) (rank_of standing.now place))
        ++ (ids_of begun ++ listed (slice_get (concat standing.now) (rank_of standing.now place)))) }
{
    let before = item_before(corners, standing, place);
    let behind = item_behind(corners, standing, place);
    match begun {
        Begun::Neither => may_link(corners, before, behind),
        Begun::One(x) => may_link_over(corners, before, x, behind),
        Begun::Two(x, y) => {
            let low = may_link(corners, before, Some(x));
            let high = may_link_over(corners, Some(x), y, behind);
            low && high
        }
    }
}

// The edge before the place, if there is one.
#[tactic(auto, using(crate::proofs::EditsOfIds::all_before))]
fn item_before(corners: &[Corner], standing: &Blocks, place: Place) -> Option<u32>
    requires ids { IsTrue (list_all (is_edge corners.now) (concat standing.now)) }
    requires place { IsPlace standing.now place }
    ensures value { result ≡ item_before (concat standing.now) (rank_of standing.now place) }
    ensures in_list { IsTrue (list_all (is_edge corners.now) (listed result)) }
{
    standing.before(place)
}

// The edge behind it.
#[tactic(auto, using(crate::proofs::EditsOfIds::all_listed))]
fn item_behind(corners: &[Corner], standing: &Blocks, place: Place) -> Option<u32>
    requires ids { IsTrue (list_all (is_edge corners.now) (concat standing.now)) }
    requires place { IsPlace standing.now place }
    ensures value { result ≡ slice_get (concat standing.now) (rank_of standing.now place) }
    ensures in_list { IsTrue (list_all (is_edge corners.now) (listed result)) }
{
    standing.at(place)
}

// Whether an edge may be the neighbour of the two beside it.
#[tactic(auto, using(crate::proofs::EditsOfIds::links))]
fn may_link_over(corners: &[Corner], before: Option<u32>, x: u32, behind: Option<u32>) -> bool
    requires before_in { IsTrue (list_all (is_edge corners.now) (listed before)) }
    requires x_in { IsTrue (is_edge corners.now x) }
    requires behind_in { IsTrue (list_all (is_edge corners.now) (listed behind)) }
    ensures { result ≡ are_linked (may_follow corners.now) (listed before ++ x ∷ listed behind) }
{
    let low = may_link(corners, before, Some(x));
    let high = may_link(corners, Some(x), behind);
    low && high
}

/// Whether two edges may be neighbours, if there are two.
fn may_link(corners: &[Corner], before: Option<u32>, behind: Option<u32>) -> bool
    requires before_in { IsTrue (list_all (is_edge corners.now) (listed before)) }
    requires behind_in { IsTrue (list_all (is_edge corners.now) (listed behind)) }
    ensures { result ≡ are_linked (may_follow corners.now) (listed before ++ listed behind) }
{
    match (before, behind) {
        (Some(x), Some(y)) => may_be_neighbours(edge(corners, x), edge(corners, y)),
        _ => true,
    }
}
