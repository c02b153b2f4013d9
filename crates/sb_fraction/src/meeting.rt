//! The common point of two segments.

ghost use Rattle.std.specs.Prelude.{◌≡◌, ◌≤◌, ◌↔◌, ◌+ℤ◌, ◌*ℤ◌, pos, false, unsigned_abs};
ghost use Rattle.std.specs.Prelude.{IsTrue, IfSome};
ghost use Rattle.std.specs.Ordering.{int_eq};
ghost use Rattle.sb_fraction.specs.Plane.{greatest_coordinate, longest_step};
ghost use Rattle.sb_fraction.specs.Spots.{spot, spot_of};
ghost use Rattle.sb_fraction.specs.Edges.{edge_of, is_in_range};
ghost use Rattle.sb_fraction.specs.Crossings.{are_parallel, meeting_of, with_positive};
ghost use Rattle.sb_fraction.specs.Bounds.{greatest_cross, greatest_offset};
ghost use Rattle.sb_fraction.specs.Meetings.{AreApart, IsMeeting};
ghost use Rattle.sb_fraction.specs.Steps.{turn_between, share_of, is_share, is_met, meet_once};

use crate::products::of_crosses;
use crate::span::Span;
use crate::{HPoint, Segment};

/// The common point of two segments, their ends taken in.
///
/// - `None`: exactly where they are parallel, also where they overlap, or have no common point.
/// - `Some(p)`: `p` is the one point that lies on both, and `p.w` is the size of the cross product
///   of the two vectors from `a` to `b`. It is not in lowest terms.
#[tactic(auto, using(crate::proofs::Meetings::MeetingInRange::meetings))]
pub fn meet(a: &Segment, b: &Segment) -> Option<HPoint>
    requires first_in { IsTrue (is_in_range (edge_of a.now)) }
    requires second_in { IsTrue (is_in_range (edge_of b.now)) }
    ensures none { (result ≡ None) ↔ AreApart (edge_of a.now) (edge_of b.now) }
    ensures some { IfSome result (IsMeeting (edge_of a.now) (edge_of b.now)) }
{
    if have_one_point(a, b) {
        Some(meeting(a, b))
    } else {
        None
    }
}

/// Whether the two are not parallel, and the point where their lines meet lies on both.
#[tactic(auto, using(crate::proofs::Meetings::MeetingInRange::meetings))]
fn have_one_point(a: &Segment, b: &Segment) -> bool
    requires first_in { IsTrue (is_in_range (edge_of a.now)) }
    requires second_in { IsTrue (is_in_range (edge_of b.now)) }
    ensures value { result ≡ meet_once (edge_of a.now) (edge_of b.now) }
{
    if turn(a, b) == 0 {
        return false;
    }
    if !is_met(a, b) {
        return false;
    }
    is_met(b, a)
}

/// Whether the line of `b` meets that of `a` within `a`, where the two are not parallel.
#[tactic(auto, using(crate::proofs::Meetings::MeetingInRange::meetings))]
fn is_met(a: &Segment, b: &Segment) -> bool
    requires first_in { IsTrue (is_in_range (edge_of a.now)) }
    requires second_in { IsTrue (is_in_range (edge_of b.now)) }
    ensures value { result ≡ is_met (edge_of a.now) (edge_of b.now) }
{
    is_part(turn(a, b), share(a, b))
}

/// Whether `s/w` lies from 0 to 1. With `s·s <= s·w` the sign of `w` does not matter.
#[tactic(auto, using(crate::proofs::Ranges::ProductsFit::products))]
fn is_part(w: i64, s: i64) -> bool
    requires turn_in { unsigned_abs w ≤ greatest_cross }
    requires share_in { unsigned_abs s ≤ greatest_cross }
    ensures value { result ≡ is_share w s }
{
    of_crosses(s, s) <= of_crosses(s, w)
}

/// The cross product of the vectors of two segments, 0 where they are parallel.
#[tactic(auto, using(crate::proofs::SidesOfPoints::sides))]
fn turn(a: &Segment, b: &Segment) -> i64
    requires first_in { IsTrue (is_in_range (edge_of a.now)) }
    requires second_in { IsTrue (is_in_range (edge_of b.now)) }
    ensures value { result ≡ turn_between (edge_of a.now) (edge_of b.now) }
    ensures size { unsigned_abs result ≤ greatest_cross }
{
    Span::between(a.a, a.b).cross(Span::between(b.a, b.b))
}

/// How far along `a` the lines meet, as a share of `a`'s vector, times `turn(a, b)`.
#[tactic(auto, using(crate::proofs::SidesOfPoints::sides))]
fn share(a: &Segment, b: &Segment) -> i64
    requires first_in { IsTrue (is_in_range (edge_of a.now)) }
    requires second_in { IsTrue (is_in_range (edge_of b.now)) }
    ensures value { result ≡ share_of (edge_of a.now) (edge_of b.now) }
    ensures size { unsigned_abs result ≤ greatest_cross }
{
    Span::between(a.a, b.a).cross(Span::between(b.a, b.b))
}

/// The point where the lines of two segments meet.
#[tactic(auto, using(crate::proofs::Meetings::MeetingInRange::meetings))]
fn meeting(a: &Segment, b: &Segment) -> HPoint
    requires first_in { IsTrue (is_in_range (edge_of a.now)) }
    requires second_in { IsTrue (is_in_range (edge_of b.now)) }
    requires apart { are_parallel (edge_of a.now) (edge_of b.now) ≡ false }
    ensures value { spot_of result ≡ meeting_of (edge_of a.now) (edge_of b.now) }
    ensures size { unsigned_abs result.w ≤ greatest_cross }
{
    let (w, s) = (turn(a, b), share(a, b));
    let along = Span::between(a.a, a.b);
    let x = coordinate(a.a.x, w, s, along.x());
    let y = coordinate(a.a.y, w, s, along.y());
    positive_point(x, y, w)
}

/// A coordinate of the point that lies the share `s/w` of `step` after `a`, times `w`.
#[tactic(auto, using(crate::proofs::Ranges::CoordinatesFit::coordinates))]
fn coordinate(a: i32, w: i64, s: i64, step: i64) -> i128
    requires coordinate_in { unsigned_abs a ≤ greatest_coordinate }
    requires turn_in { unsigned_abs w ≤ greatest_cross }
    requires share_in { unsigned_abs s ≤ greatest_cross }
    requires step_in { unsigned_abs step ≤ longest_step }
    ensures value { result ≡ (a *ℤ w) +ℤ (s *ℤ step) }
    ensures size { unsigned_abs result ≤ greatest_offset }
{
    of_crosses(a as i64, w) + of_crosses(s, step)
}

/// The point `(x/w, y/w)`, with its denominator made positive.
#[tactic(auto, using(crate::proofs::Ranges::CoordinatesFit::coordinates))]
fn positive_point(x: i128, y: i128, w: i64) -> HPoint
    requires x_in { unsigned_abs x ≤ greatest_offset }
    requires y_in { unsigned_abs y ≤ greatest_offset }
    requires w_in { unsigned_abs w ≤ greatest_cross }
    requires apart { int_eq w (pos 0) ≡ false }
    ensures value { spot_of result ≡ with_positive (spot x y (pos 0) w) }
    ensures size { unsigned_abs result.w ≤ greatest_cross }
{
    if w < 0 {
        return HPoint {
            x: -x,
            y: -y,
            w: -(w as i128),
        };
    }
    HPoint { x, y, w: w as i128 }
}
