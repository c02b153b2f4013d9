//! Plan points as they are seen from a crossing.

ghost use Rattle.std.specs.Prelude.{◌≡◌, ◌≤◌, ◌-ℤ◌, ◌*ℤ◌, ◌&&◌, pos, int_lt, unsigned_abs, IsTrue};
ghost use Rattle.std.specs.Ordering.{int_eq};
ghost use Rattle.theory_numbers.specs.Arrows.{cross as cross_of, dot as dot_of};
ghost use Rattle.sb_fraction.specs.Plane.{is_plan_point, greatest_coordinate};
ghost use Rattle.sb_fraction.specs.Bounds.{greatest_crossing, greatest_cross, is_crossing_size};
ghost use Rattle.sb_fraction.specs.Spots.{spot_of};
ghost use Rattle.sb_fraction.specs.Edges.{seen_from};
ghost use Rattle.sb_frame.specs.Through.{greatest_seen, greatest_half};

use sb_fraction::{HPoint, Point};
use std::marker::Model;

/// The way from a crossing (x/w, y/w) to a plan point, w times as far.
#[derive(Clone, Copy)]
pub(crate) struct Seen {
    x: i128,
    y: i128,
}

impl Model for Seen {
    ghost use Rattle.std.specs.Prelude.{IsTrue};
    ghost use Rattle.theory_numbers.specs.Arrows.{Arrow, arrow};
    ghost use Rattle.sb_frame.specs.Through.{is_near};

    ghost Value = { Arrow };

    ghost view = { λ s. arrow s.x s.y };

    ghost invariant = { λ s. IsTrue (is_near (arrow s.x s.y)) };

    ghost inverse = { λ a. record { x = a.x; y = a.y } };
}

impl Seen {
    /// The way from `p` to `a`.
    #[tactic(auto, using(crate::proofs::ProductsFit::seen_sizes))]
    pub(crate) fn from(p: &HPoint, a: Point) -> Seen
        requires point_in { IsTrue (is_crossing_size (spot_of p.now)) }
        requires plan_point_in { IsTrue (is_plan_point a) }
        ensures { result ≡ seen_from (spot_of p.now) a }
    {
        Seen {
            x: less(scaled(a.x, p.w), p.x),
            y: less(scaled(a.y, p.w), p.y),
        }
    }

    /// Twice the area that two ways span, 0 where they lie on one line.
    #[tactic(auto, using(crate::proofs::ProductsFit::seen_sizes), unfolding(theory_numbers::specs::Arrows::cross))]
    fn cross(self, other: Seen) -> i128
        ensures { result ≡ cross_of self other }
    {
        product(self.x, other.y) - product(self.y, other.x)
    }

    /// The inner product, below 0 where they run apart.
    #[tactic(auto, using(crate::proofs::ProductsFit::seen_sizes), unfolding(theory_numbers::specs::Arrows::dot))]
    fn dot(self, other: Seen) -> i128
        ensures { result ≡ dot_of self other }
    {
        product(self.x, other.x) + product(self.y, other.y)
    }
}

/// Whether a crossing lies strictly inside the edge between two plan points.
#[tactic(auto, using(crate::proofs::ProductsFit::seen_sizes))]
pub(crate) fn is_amid(a: Seen, b: Seen) -> bool
    ensures { result ≡ (int_eq (cross_of a b) (pos 0) && int_lt (dot_of a b) (pos 0)) }
{
    a.cross(b) == 0 && a.dot(b) < 0
}

/// A coordinate of a plan point, w times.
#[tactic(auto, using(crate::proofs::ProductsFit::seen_sizes))]
fn scaled(a: i32, w: i128) -> i128
    requires a_in { unsigned_abs a ≤ greatest_coordinate }
    requires w_in { unsigned_abs w ≤ greatest_cross }
    ensures value { result ≡ a *ℤ w }
    ensures size { unsigned_abs result ≤ greatest_crossing }
{
    a as i128 * w
}

/// The difference of two coordinates.
fn less(a: i128, b: i128) -> i128
    requires a_in { unsigned_abs a ≤ greatest_crossing }
    requires b_in { unsigned_abs b ≤ greatest_crossing }
    ensures value { result ≡ a -ℤ b }
    ensures size { unsigned_abs result ≤ greatest_seen }
{
    a - b
}

/// The product of two numbers of ways.
#[tactic(auto, using(crate::proofs::ProductsFit::seen_sizes))]
fn product(a: i128, b: i128) -> i128
    requires a_in { unsigned_abs a ≤ greatest_seen }
    requires b_in { unsigned_abs b ≤ greatest_seen }
    ensures value { result ≡ a *ℤ b }
    ensures size { unsigned_abs result ≤ greatest_half }
{
    a * b
}
