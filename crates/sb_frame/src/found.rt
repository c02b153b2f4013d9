//! Crossings in order, each point once.

ghost use Rattle.std.specs.Prelude.{◌≡◌, ◌≤◌, ◌*ℤ◌, unsigned_abs, length, OnOk};
ghost use Rattle.std.specs.List.Sorted.{IsBinarySearchResult, IsSearchInRange};
ghost use Rattle.theory_numbers.specs.Rationals.{rational};
ghost use Rattle.sb_fraction.specs.Numbers.{order_of};
ghost use Rattle.sb_fraction.specs.Bounds.{greatest_cross, greatest_crossing};
ghost use Rattle.sb_frame.specs.Found.{order_of_points as points_order, Ascend, IsAdded};

use crate::crossing::Crossing;
use std::alloc::AllocError;
use std::cmp::Ordering;

/// Puts a crossing at its place, unless its point stands there already.
pub(crate) fn add(found: &mut Vec<Crossing>, crossing: Crossing) -> Result<(), AllocError>
    requires { Ascend found.old.items }
    ensures { OnOk result (IsAdded crossing found.old.items found.new.items) }
{
    match place_of(found, &crossing) {
        Ok(_) => Ok(()),
        Err(at) => Ok(found.insert(at, crossing)?),
    }
}

/// Where the point stands, or where it would.
fn place_of(found: &[Crossing], crossing: &Crossing) -> Result<usize, usize>
    ensures bound { IsSearchInRange result (length found.now) }
    ensures place { IsBinarySearchResult (λ c. points_order c crossing.now) found.now result }
{
    found.binary_search_by(|other| order_of_points(other, crossing))
}

/// By x, then by y.
fn order_of_points(a: &Crossing, b: &Crossing) -> Ordering
    ensures { result ≡ points_order a.now b.now }
{
    let (p, q) = (a.point, b.point);
    order_of_quotients(p.x, p.w, q.x, q.w).then(order_of_quotients(p.y, p.w, q.y, q.w))
}

/// The order of `a/m` and `b/n`.
fn order_of_quotients(a: i128, m: i128, b: i128, n: i128) -> Ordering
    requires a_in { unsigned_abs a ≤ greatest_crossing }
    requires m_in { unsigned_abs m ≤ greatest_cross }
    requires b_in { unsigned_abs b ≤ greatest_crossing }
    requires n_in { unsigned_abs n ≤ greatest_cross }
    ensures { result ≡ order_of (rational a m) (rational b n) }
{
    times(a, n).cmp(&times(b, m))
}

#[tactic(auto, using(crate::proofs::ProductsFit::products))]
fn times(a: i128, w: i128) -> i128
    requires numerator_in { unsigned_abs a ≤ greatest_crossing }
    requires denominator_in { unsigned_abs w ≤ greatest_cross }
    ensures { result ≡ a *ℤ w }
{
    a * w
}
