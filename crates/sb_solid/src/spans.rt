// Coordinates that are moved together: a few numbers tell where all lie.
ghost use Rattle.std.specs.Prelude.{◌≡◌, ◌≤◌, ◌++◌, ◌+ℤ◌, ◌-ℤ◌, ◌*ℤ◌, ◌&&◌, ◌^◌, ℤ, pos, List, [], ◌∷◌, map, unsigned_abs, IsTrue, IfSome, None};
ghost use Rattle.std.specs.List.{list_all};
ghost use Rattle.sb_solid.specs.Grid as grid;
ghost use Rattle.sb_solid.specs.Spans as spans;
ghost use Rattle.sb_solid.specs.Steps as spec;

use crate::extents::{grown, reach_of};
use crate::points::axes::Coordinate;
use crate::points::lying::coordinate;
use crate::points::sizes::{Extent, Lying, Lyings};

/// Of coordinates in nanometres (nm) that are moved together the least and the greatest, and the least and
/// the greatest of what lies between each and the nearest whole millimetre from the least.
#[derive(Clone, Copy)]
pub(crate) struct Span {
    pub(crate) reach: Extent,
    pub(crate) rest: Extent,
}

/// The span of the coordinates of points along an axis; `None` exactly where there is no point.
pub(crate) fn span_of(loops: &[Lyings], along: Coordinate) -> Option<Span>
    ensures { spans.IsSpanWhere (spec.numbers_along along loops.now) result }
{
    match reach_of(loops, along) {
        None => None,
        Some(reach) => span_from(loops, along, reach),
    }
}

fn span_from(loops: &[Lyings], along: Coordinate, reach: Extent) -> Option<Span>
    ensures { spans.Reaches (spec.numbers_along along loops.now) reach.low reach.high
        → spans.IsSpanWhere (spec.numbers_along along loops.now) result }
{
    match rest_of(loops, along, reach.low) {
        None => None,
        Some(rest) => Some(Span { reach, rest }),
    }
}

/// The extent of the rests of the coordinates of points.
fn rest_of(loops: &[Lyings], along: Coordinate, from: i128) -> Option<Extent>
    requires { unsigned_abs from ≤ 10 ^ 18 }
    ensures { spans.IsExtentOf (map (spans.rest_from from) (spec.numbers_along along loops.now)) result }
{
    let mut extent = None;
    'loops: for points in loops {
        extent = rest_with(extent, points.as_slice(), along, from);
    }
    extent
}

/// The extent of numbers and of the rests of the coordinates of these points.
fn rest_with(
    extent: Option<Extent>,
    points: &[Lying],
    along: Coordinate,
    from: i128,
) -> Option<Extent>
    requires { unsigned_abs from ≤ 10 ^ 18 }
    ensures { (numbers : List ℤ) → spans.IsExtentOf numbers extent
        → spans.IsExtentOf (numbers ++ map (spans.rest_from from) (spec.coordinates along points.now)) result }
{
    let mut extent = extent;
    'points: for point in points {
        extent = Some(grown(extent, rest(from, coordinate(*point, along))));
    }
    extent
}

/// What lies between a number and the nearest whole millimetre from another.
fn rest(from: i128, number: i128) -> i128
    requires from_in { unsigned_abs from ≤ 10 ^ 18 }
    requires number_in { unsigned_abs number ≤ 10 ^ 18 }
    ensures value { result ≡ spans.rest_from from number }
    ensures small { unsigned_abs result ≤ 10 ^ 18 }
{
    rest_by(number - from)
}

fn rest_by(distance: i128) -> i128
    requires { unsigned_abs distance ≤ 2 ^ 64 }
    ensures value { result ≡ distance -ℤ (grid.nearest_millimetre distance *ℤ pos grid.millimetre) }
    ensures small { unsigned_abs result ≤ 10 ^ 18 }
{
    distance - nearest(distance) * 1_000_000
}

/// The nearest whole millimetre.
pub(crate) fn nearest(nm: i128) -> i128
    requires { unsigned_abs nm ≤ 2 ^ 66 }
    ensures value { result ≡ grid.nearest_millimetre nm }
    ensures small { unsigned_abs result ≤ 2 ^ 66 }
{
    let mm = (nm.unsigned_abs() + 500_000) / 1_000_000;
    if nm < 0 { -(mm as i128) } else { mm as i128 }
}

/// Whether all are in range where they are moved so far.
pub(crate) fn are_in_world(span: Span, shift: i128) -> bool
    requires { unsigned_abs shift ≤ 2 ^ 64 }
    ensures { (numbers : List ℤ) → spans.IsSpanOf numbers span
        → result ≡ list_all (λ n. grid.is_in_world (n +ℤ shift)) numbers }
{
    are_ends_in_world(span.reach.low, span.reach.high, shift)
}

fn are_ends_in_world(low: i128, high: i128, shift: i128) -> bool
    requires low_in { unsigned_abs low ≤ 10 ^ 18 }
    requires high_in { unsigned_abs high ≤ 10 ^ 18 }
    requires shift_in { unsigned_abs shift ≤ 2 ^ 64 }
    ensures { result ≡ (grid.is_in_world (low +ℤ shift) && grid.is_in_world (high +ℤ shift)) }
{
    is_in_world(plus(low, shift)) && is_in_world(plus(high, shift))
}

fn plus(a: i128, b: i128) -> i128
    requires a_in { unsigned_abs a ≤ 10 ^ 18 }
    requires b_in { unsigned_abs b ≤ 2 ^ 64 }
    ensures { result ≡ a +ℤ b }
{
    a + b
}

fn is_in_world(nm: i128) -> bool
    ensures { result ≡ grid.is_in_world nm }
{
    nm.unsigned_abs() <= 500_000_010_000
}

/// Whether each lies near a whole millimetre where they are moved so far.
pub(crate) fn are_near(span: Span, shift: i128) -> bool
    requires { unsigned_abs shift ≤ 2 ^ 64 }
    ensures { (numbers : List ℤ) → spans.IsSpanOf numbers span
        → result ≡ list_all (λ n. grid.is_near (n +ℤ shift)) numbers }
{
    let rest = span.rest;
    let ends = are_ends_near(span.reach.low, rest.low, rest.high, shift);
    and(is_narrow(rest), ends)
}

fn and(a: bool, b: bool) -> bool
    ensures { result ≡ (a && b) }
{
    a && b
}

fn are_ends_near(first: i128, low: i128, high: i128, shift: i128) -> bool
    requires first_in { unsigned_abs first ≤ 10 ^ 18 }
    requires low_in { unsigned_abs low ≤ 10 ^ 18 }
    requires high_in { unsigned_abs high ≤ 10 ^ 18 }
    requires shift_in { unsigned_abs shift ≤ 2 ^ 64 }
    ensures { result ≡ (grid.is_near ((first +ℤ low) +ℤ shift) && grid.is_near ((first +ℤ high) +ℤ shift)) }
{
    is_near(sum(first, low, shift)) && is_near(sum(first, high, shift))
}

fn sum(a: i128, b: i128, c: i128) -> i128
    requires a_in { unsigned_abs a ≤ 10 ^ 18 }
    requires b_in { unsigned_abs b ≤ 10 ^ 18 }
    requires c_in { unsigned_abs c ≤ 2 ^ 64 }
    ensures value { result ≡ (a +ℤ b) +ℤ c }
    ensures small { unsigned_abs result ≤ 2 ^ 66 }
{
    a + b + c
}

/// Whether numbers lie so close together that all can be near whole millimetres.
fn is_narrow(rest: Extent) -> bool
    ensures { result ≡ spans.is_narrow rest.low rest.high }
{
    rest.high - rest.low <= 20_000
}

/// Whether a coordinate lies near a whole millimetre.
fn is_near(nm: i128) -> bool
    requires { unsigned_abs nm ≤ 2 ^ 66 }
    ensures { result ≡ grid.is_near nm }
{
    (nm - nearest(nm) * 1_000_000).unsigned_abs() <= 10_000
}
