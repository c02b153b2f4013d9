//! Short vectors of the plane and their two products.

ghost use Rattle.std.specs.Prelude.{◌≡◌, ◌≤◌, ◌-ℤ◌, ◌*ℤ◌, neg_ℤ, unsigned_abs, IsTrue};
ghost use Rattle.theory_numbers.specs.Arrows.{arrow, cross, dot, opposite};
ghost use Rattle.sb_fraction.specs.Bounds.{greatest_cross};
ghost use Rattle.sb_fraction.specs.Lines.{place, arrow_along};
ghost use Rattle.sb_fraction.specs.Plane.{is_plan_point, is_short, longest_step};

use crate::{Direction, Point};
use std::marker::Model;

/// A vector whose numbers are at most 10^6 in size: the way from one plan point to another, or a
/// direction. So a product of two is at most 2·10^12 in size.
#[derive(Clone, Copy)]
pub(crate) struct Span {
    x: i64,
    y: i64,
}

impl Model for Span {
    ghost use Rattle.std.specs.Prelude.{IsTrue};
    ghost use Rattle.theory_numbers.specs.Arrows.{Arrow, arrow};
    ghost use Rattle.sb_fraction.specs.Plane.{is_short};

    ghost Value = { Arrow };

    ghost view = { λ s. arrow s.x s.y };

    ghost invariant = { λ s. IsTrue (is_short (arrow s.x s.y)) };

    ghost inverse = { λ a. record { x = a.x; y = a.y } };
}

impl Span {
    /// The way from one plan point to another.
    #[tactic(auto, using(crate::proofs::Passing::passing))]
    pub(crate) fn between(from: Point, to: Point) -> Span
        requires from_in { IsTrue (is_plan_point from) }
        requires to_in { IsTrue (is_plan_point to) }
        ensures value { result ≡ arrow (to.x -ℤ from.x) (to.y -ℤ from.y) }
    {
        Span {
            x: difference(to.x, from.x),
            y: difference(to.y, from.y),
        }
    }

    /// The way from the origin to a plan point.
    #[tactic(auto, using(crate::proofs::Ranges::ShortVectors::short_vectors))]
    pub(crate) fn to(p: Point) -> Span
        requires { IsTrue (is_plan_point p) }
        ensures value { result ≡ place p }
    {
        Span {
            x: p.x as i64,
            y: p.y as i64,
        }
    }

    /// A direction as a vector.
    #[tactic(auto, using(crate::proofs::Ranges::ShortVectors::short_vectors))]
    pub(crate) fn along(d: Direction) -> Span
        ensures value { result ≡ arrow_along d }
    {
        Span {
            x: d.x as i64,
            y: d.y as i64,
        }
    }

    /// The vector that points the other way.
    #[tactic(auto, using(crate::proofs::Ranges::ShortVectors::short_vectors))]
    pub(crate) fn opposite(self) -> Span
        ensures value { result ≡ opposite self }
    {
        Span {
            x: -self.x,
            y: -self.y,
        }
    }

    /// Its first number.
    pub(crate) fn x(self) -> i64
        ensures value { result ≡ self.x }
        ensures size { unsigned_abs result ≤ longest_step }
    {
        self.x
    }

    /// Its second number.
    pub(crate) fn y(self) -> i64
        ensures value { result ≡ self.y }
        ensures size { unsigned_abs result ≤ longest_step }
    {
        self.y
    }

    /// Twice the area that two vectors span, above 0 where the second lies left of the first.
    #[tactic(auto, using(crate::proofs::Passing::passing), unfolding(theory_numbers::specs::Arrows::cross))]
    pub(crate) fn cross(self, other: Span) -> i64
        ensures value { result ≡ cross self other }
        ensures size { unsigned_abs result ≤ greatest_cross }
    {
        product(self.x, other.y) - product(self.y, other.x)
    }

    /// The inner product.
    #[tactic(auto, using(crate::proofs::Passing::passing), unfolding(theory_numbers::specs::Arrows::dot))]
    pub(crate) fn dot(self, other: Span) -> i64
        ensures value { result ≡ dot self other }
        ensures size { unsigned_abs result ≤ greatest_cross }
    {
        product(self.x, other.x) + product(self.y, other.y)
    }
}

#[tactic(auto, using(crate::proofs::Passing::passing))]
fn difference(a: i32, b: i32) -> i64
    requires a_in { unsigned_abs a ≤ 500000 }
    requires b_in { unsigned_abs b ≤ 500000 }
    ensures value { result ≡ a -ℤ b }
    ensures size { unsigned_abs result ≤ longest_step }
{
    a as i64 - b as i64
}

#[tactic(auto, using(crate::proofs::Passing::passing))]
fn product(a: i64, b: i64) -> i64
    requires a_in { unsigned_abs a ≤ longest_step }
    requires b_in { unsigned_abs b ≤ longest_step }
    ensures value { result ≡ a *ℤ b }
    ensures size { unsigned_abs result ≤ 1000000000000 }
{
    a * b
}
