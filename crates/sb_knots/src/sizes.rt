//! Ways in the plane and their two products, within 64 bits.

ghost use Rattle.std.specs.Prelude.{◌≡◌, ◌≤◌, ◌-ℤ◌, ◌*ℤ◌, pos, unsigned_abs, IsTrue};
ghost use Rattle.theory_numbers.specs.Arrows.{cross, dot};
ghost use Rattle.sb_fraction.specs.Plane.{is_plan_point};
ghost use Rattle.sb_fraction.specs.Spots.{spot_at};
ghost use Rattle.sb_fraction.specs.Edges.{seen_from};

use sb_fraction::Point;
use std::marker::Model;

/// A way from one plan point to another.
#[derive(Clone, Copy)]
pub(crate) struct Way {
    x: i64,
    y: i64,
}

impl Model for Way {
    ghost use Rattle.std.specs.Prelude.{IsTrue};
    ghost use Rattle.theory_numbers.specs.Arrows.{Arrow, arrow};
    ghost use Rattle.sb_fraction.specs.Plane.{is_short};

    ghost Value = { Arrow };

    ghost view = { λ a. arrow a.x a.y };

    ghost invariant = { λ a. IsTrue (is_short (arrow a.x a.y)) };

    ghost inverse = { λ a. record { x = a.x; y = a.y } };
}

impl Way {
    /// The way to `a`, as seen from `p`.
    #[tactic(auto, using(crate::proofs::NumbersFit::numbers))]
    pub(crate) fn seen(p: Point, a: Point) -> Way
        requires from_in { IsTrue (is_plan_point p) }
        requires to_in { IsTrue (is_plan_point a) }
        ensures { result ≡ seen_from (spot_at p) a }
    {
        Way {
            x: seen_number(p.x, a.x),
            y: seen_number(p.y, a.y),
        }
    }

    /// Twice the area that two ways span.
    #[tactic(auto, using(crate::proofs::NumbersFit::numbers), unfolding(theory_numbers::specs::Arrows::cross))]
    pub(crate) fn cross(self, other: Way) -> i64
        ensures value { result ≡ cross self other }
        ensures size { unsigned_abs result ≤ 2000000000000 }
    {
        product(self.x, other.y) - product(self.y, other.x)
    }

    /// The inner product.
    #[tactic(auto, using(crate::proofs::NumbersFit::numbers), unfolding(theory_numbers::specs::Arrows::dot))]
    pub(crate) fn dot(self, other: Way) -> i64
        ensures { result ≡ dot self other }
    {
        product(self.x, other.x) + product(self.y, other.y)
    }
}

#[tactic(auto, using(crate::proofs::NumbersFit::numbers))]
fn seen_number(p: i32, a: i32) -> i64
    requires from_in { unsigned_abs p ≤ 500000 }
    requires to_in { unsigned_abs a ≤ 500000 }
    ensures value { result ≡ (a *ℤ pos 1) -ℤ p }
    ensures size { unsigned_abs result ≤ 1000000 }
{
    a as i64 - p as i64
}

#[tactic(auto, using(crate::proofs::NumbersFit::numbers))]
fn product(a: i64, b: i64) -> i64
    requires a_in { unsigned_abs a ≤ 1000000 }
    requires b_in { unsigned_abs b ≤ 1000000 }
    ensures value { result ≡ a *ℤ b }
    ensures size { unsigned_abs result ≤ 1000000000000 }
{
    a * b
}

#[tactic(auto, using(crate::proofs::NumbersFit::numbers))]
pub(crate) fn wide_product(a: i64, b: i64) -> i128
    requires a_in { unsigned_abs a ≤ 2000000000000 }
    requires b_in { unsigned_abs b ≤ 2000000000000 }
    ensures { result ≡ a *ℤ b }
{
    a as i128 * b as i128
}
