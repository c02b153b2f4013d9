//! The order of numbers, and of edges over an abscissa.

ghost use Rattle.std.specs.Prelude.{◌≡◌, ◌≤◌, ◌↔◌, ◌+◌, ◌+ℤ◌, ◌-ℤ◌, ◌*ℤ◌, ◌<ℤ◌};
ghost use Rattle.std.specs.Prelude.{pos, unsigned_abs, IsTrue};
ghost use Rattle.std.specs.declared.cmp.Ordering.TheVariants.{Equal};
ghost use Rattle.theory_plane.specs.Leads.{order_past};
ghost use Rattle.sb_fraction.specs.Plane.{is_plan_point};
ghost use Rattle.sb_fraction.specs.Edges.{edge_of, is_in_range, are_collinear};
ghost use Rattle.sb_fraction.specs.Numbers.{number, order_of};
ghost use Rattle.sb_fraction.specs.Bounds.{is_abscissa_size, greatest_cross, greatest_offset};
ghost use Rattle.sb_fraction.specs.Bounds.{greatest_square};
ghost use Rattle.sb_fraction.specs.Lines.{place, span_along};
ghost use Rattle.sb_fraction.specs.Orders.{line_of, is_over, HoldsUntilBreak};
ghost use Rattle.sb_fraction.specs.Steps.{gap_between, gap_order, order_of_gap};

use crate::products::{of_crosses, with_offset};
use crate::span::Span;
use crate::{Direction, Fraction, Point, Segment, Steps};
use std::cmp::Ordering;
use std::sync::ledger::Ledger;

/// The order of two fractions of an abscissa's size.
#[tactic(auto, using(crate::proofs::FractionsInOrder::fractions))]
pub fn compare(a: &Fraction, b: &Fraction) -> Ordering
    requires first_size { IsTrue (is_abscissa_size a.now) }
    requires second_size { IsTrue (is_abscissa_size b.now) }
    ensures order { result ≡ order_of (number a.now) (number b.now) }
    ensures equal { (result ≡ Equal) ↔ (a.now ≡ b.now) }
{
    let first = with_offset(a.num(), b.den());
    let second = with_offset(b.num(), a.den());
    first.cmp(&second)
}

/// The order in which two edges lie over a direction just after an abscissa: of their values of
/// `p·(-dy, dx)`, `Less` where `a` is the lower one. It is one step.
///
/// - The answer is their order at every abscissa after `at` and before the next end or crossing of
///   the two.
/// - `Equal`: exactly where the two lie on one line.
pub fn order_at<L: Ledger>(
    d: Direction,
    a: &Segment,
    b: &Segment,
    at: &Fraction,
    steps: &mut Steps<L>,
) -> Ordering
    requires first_in { IsTrue (is_in_range (edge_of a.now)) }
    requires second_in { IsTrue (is_in_range (edge_of b.now)) }
    requires first_reaches { IsTrue (is_over d a.now at.now) }
    requires second_reaches { IsTrue (is_over d b.now at.now) }
    requires size { IsTrue (is_abscissa_size at.now) }
    ensures order { HoldsUntilBreak d a.now b.now at.now result }
    ensures past { result ≡ order_past (number at.now) (line_of d a.now) (line_of d b.now) }
    ensures equal { (result ≡ Equal) ↔ IsTrue (are_collinear (edge_of a.now) (edge_of b.now)) }
    ensures counted { steps.new ≡ steps.old + 1 }
{
    steps.tick();
    order_by_gap(Span::along(d), a, b, at)
}

/// The order by the gap at the abscissa, and where it is 0 by the slope of the gap.
fn order_by_gap(way: Span, a: &Segment, b: &Segment, at: &Fraction) -> Ordering
    requires first_in { IsTrue (is_in_range (edge_of a.now)) }
    requires second_in { IsTrue (is_in_range (edge_of b.now)) }
    requires size { IsTrue (is_abscissa_size at.now) }
    ensures value { result ≡ order_of_gap way (edge_of a.now) (edge_of b.now) (number at.now) }
    ensures positive { pos 0 <ℤ at.now.den }
{
    let first = turned_along(way, a);
    let second = turned_along(way, b);
    let slope = first.cross(second);
    let offset = offset_between(way, first, a.a, second, b.a);
    order_by(gap_at(offset, slope, at), slope)
}

/// The vector of a segment, turned so that it runs along `way`.
#[tactic(auto, using(crate::proofs::SidesOfPoints::sides), unfolding(crate::specs::Lines::span_along))]
fn turned_along(way: Span, s: &Segment) -> Span
    requires segment_in { IsTrue (is_in_range (edge_of s.now)) }
    ensures value { result ≡ span_along way (edge_of s.now) }
{
    let span = Span::between(s.a, s.b);
    if way.dot(span) > 0 {
        return span;
    }
    span.opposite()
}

/// The gap of two lines at the abscissa 0, times the parts of their vectors along `way`.
#[tactic(auto, using(crate::proofs::Ranges::CoordinatesFit::coordinates))]
fn offset_between(way: Span, first: Span, a: Point, second: Span, b: Point) -> i128
    requires a_in { IsTrue (is_plan_point a) }
    requires b_in { IsTrue (is_plan_point b) }
    ensures value { result ≡ (gap_between way first (place a) second (place b)).x }
    ensures size { unsigned_abs result ≤ greatest_offset }
{
    difference(
        of_crosses(second.cross(Span::to(b)), way.dot(first)),
        of_crosses(first.cross(Span::to(a)), way.dot(second)),
    )
}

#[tactic(auto, using(crate::proofs::Ranges::CoordinatesFit::coordinates))]
fn difference(a: i128, b: i128) -> i128
    requires a_in { unsigned_abs a ≤ greatest_square }
    requires b_in { unsigned_abs b ≤ greatest_square }
    ensures value { result ≡ a -ℤ b }
    ensures size { unsigned_abs result ≤ greatest_offset }
{
    a - b
}

/// The gap at an abscissa, times its denominator.
#[tactic(auto, using(crate::proofs::FractionsInOrder::fractions))]
fn gap_at(offset: i128, slope: i64, at: &Fraction) -> i128
    requires offset_in { unsigned_abs offset ≤ greatest_offset }
    requires slope_in { unsigned_abs slope ≤ greatest_cross }
    requires size { IsTrue (is_abscissa_size at.now) }
    ensures value { result ≡ (offset *ℤ at.now.den) +ℤ (at.now.num *ℤ slope) }
    ensures positive { pos 0 <ℤ at.now.den }
{
    with_offset(offset, at.den()) + with_offset(at.num(), slope as i128)
}

/// The order that a gap shows, or where it is 0 its slope.
#[tactic(auto, using(crate::proofs::FractionsInOrder::fractions))]
fn order_by(gap: i128, slope: i64) -> Ordering
    ensures value { result ≡ gap_order gap slope }
{
    if gap == 0 {
        return 0_i64.cmp(&slope);
    }
    0_i128.cmp(&gap)
}
