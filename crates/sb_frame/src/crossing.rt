//! Where two plan edges cross.

ghost use Rattle.std.specs.Prelude.{◌≡◌, ◌≤◌, ◌*ℤ◌, ◌&&◌, ◌||◌, unsigned_abs, IsTrue, IfSome, IfNone};
ghost use Rattle.std.specs.Ordering.{int_eq};
ghost use Rattle.sb_fraction.specs.Plane.{greatest_coordinate, is_plan_point};
ghost use Rattle.sb_fraction.specs.Spots.{spot_of};
ghost use Rattle.sb_fraction.specs.Edges.{edge_of, is_in_range};
ghost use Rattle.sb_fraction.specs.Bounds.{is_crossing_size, greatest_cross};
ghost use Rattle.sb_fraction.specs.Meetings.{IsMeeting};
ghost use Rattle.sb_frame.specs.Crossings.{IsCrossingOf, CrossNowhere, is_at as is_there, is_end};
ghost use Rattle.sb_fraction.specs.Crossings.{are_parallel};
ghost use Rattle.std.specs.Prelude.{false};

use sb_fraction::{HPoint, Point, Segment, meet};

/// A point where two plan edges cross.
#[derive(Clone, Copy)]
pub(crate) struct Crossing {
    pub(crate) point: HPoint,
    pub(crate) ghost size: { IsTrue (is_crossing_size (spot_of point)) },
}

/// The one point strictly inside two edges that are not parallel; `None` exactly where there is
/// none.
pub(crate) fn crossing_of(e: &Segment, f: &Segment) -> Option<Crossing>
    requires first_in { IsTrue (is_in_range (edge_of e.now)) }
    requires second_in { IsTrue (is_in_range (edge_of f.now)) }
    ensures some { IfSome result (λ c. IsCrossingOf (edge_of e.now) (edge_of f.now) (spot_of c.point)) }
    ensures none { IfNone result (CrossNowhere (edge_of e.now) (edge_of f.now)) }
{
    let point = meet(e, f)?;
    inner_point(e, f, point)
}

/// The common point of two edges, unless an end of one lies there.
fn inner_point(e: &Segment, f: &Segment, point: HPoint) -> Option<Crossing>
    requires first_in { IsTrue (is_in_range (edge_of e.now)) }
    requires second_in { IsTrue (is_in_range (edge_of f.now)) }
    requires meeting { IsMeeting (edge_of e.now) (edge_of f.now) point }
    requires apart { are_parallel (edge_of e.now) (edge_of f.now) ≡ false }
    ensures some { IfSome result (λ c. IsCrossingOf (edge_of e.now) (edge_of f.now) (spot_of c.point)) }
    ensures none { IfNone result (CrossNowhere (edge_of e.now) (edge_of f.now)) }
{
    if is_end_of_one(e, f, point) {
        None
    } else {
        Some(Crossing { point })
    }
}

/// Whether an end of one of the edges lies at the point.
fn is_end_of_one(e: &Segment, f: &Segment, p: HPoint) -> bool
    requires first_in { IsTrue (is_in_range (edge_of e.now)) }
    requires second_in { IsTrue (is_in_range (edge_of f.now)) }
    requires size { IsTrue (is_crossing_size (spot_of p)) }
    ensures { result ≡ (is_end (spot_of p) (edge_of e.now) || is_end (spot_of p) (edge_of f.now)) }
{
    ends_at(e, p) || ends_at(f, p)
}

/// Whether an end of the edge lies at the point.
fn ends_at(e: &Segment, p: HPoint) -> bool
    requires edge_in { IsTrue (is_in_range (edge_of e.now)) }
    requires size { IsTrue (is_crossing_size (spot_of p)) }
    ensures { result ≡ is_end (spot_of p) (edge_of e.now) }
{
    is_at(e.a, p) || is_at(e.b, p)
}

fn is_at(a: Point, p: HPoint) -> bool
    requires point_in { IsTrue (is_plan_point a) }
    requires size { IsTrue (is_crossing_size (spot_of p)) }
    ensures { result ≡ is_there (spot_of p) a }
{
    is_same(times(a.x, p.w), p.x) && is_same(times(a.y, p.w), p.y)
}

fn is_same(a: i128, b: i128) -> bool
    ensures { result ≡ int_eq a b }
{
    a == b
}

#[tactic(auto, using(crate::proofs::ProductsFit::products))]
fn times(a: i32, w: i128) -> i128
    requires coordinate_in { unsigned_abs a ≤ greatest_coordinate }
    requires denominator_in { unsigned_abs w ≤ greatest_cross }
    ensures { result ≡ a *ℤ w }
{
    a as i128 * w
}
