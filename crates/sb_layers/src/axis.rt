//! The axis that an element's layers follow.

ghost use Rattle.std.specs.Prelude.{◌≡◌, ◌≤◌, ◌||◌, ◌&&◌, ◌+◌, ◌^◌, ◌+ℤ◌, ◌*ℤ◌, pos, not, int_lt, unsigned_abs, IsTrue};
ghost use Rattle.sb_fraction.specs.Spots.{inner, opposite as opposite_of};
ghost use Rattle.sb_model.specs.Building.{is_level_axis, is_upright_axis};
ghost use Rattle.sb_model.specs.Labels.{axis_vector, IsShortAxis};
ghost use Rattle.std.specs.List.{list_any};
ghost use Rattle.std.specs.Ordering.{int_eq};
ghost use Rattle.theory_plans.specs.LoopEdges.{edges_of};
ghost use Rattle.sb_model.specs.Walks.{is_across as stands_across};
ghost use Rattle.sb_layers.specs.Axes.{longest_of, outer_edges, normal_with};
ghost use Rattle.sb_layers.specs.Axes.{axis_along, axis_numbered, across_element, sense_of, points_with as is_along};
ghost use Rattle.sb_layers.specs.Axes.{clockwise};
ghost use Rattle.theory_turns.specs.Turns.{is_signed_axis};

use crate::edges::{has_edge_across, longest_edge};
use sb_model::{Axis, Prism, Turn, facing_over};

/// The direction in the world of the axis with this number: 1, 2 or 3, reversed where it is negative.
///
/// - 1 and 3 are the element's local x and z, turned.
/// - 2 is the local y, turned, where it is vertical or some edge of the plan stands at right angles to
///   it. Otherwise it is the normal of the longest edge of the outer loop, of several the first, in the
///   sense whose product with y is above 0, or, where this is 0, whose product with y turned clockwise
///   by a quarter, seen from above, is.
///
/// It has no common divisor (ISO 16739, IfcLayerSetDirectionEnum). It takes the time of a look at each
/// edge, and no memory.
pub fn axis_of(prism: &Prism, turn: Turn, number: u32, negative: bool) -> Axis
    requires from_1 { 1 ≤ number }
    requires to_3 { number ≤ 3 }
    ensures value { axis_vector result ≡ axis_along prism.now turn number negative }
    ensures is_axis { IsTrue (is_level_axis result || is_upright_axis result) }
{
    let axis = numbered(prism, turn, number);
    if negative { opposite(axis) } else { axis }
}

/// The axis of a number.
fn numbered(prism: &Prism, turn: Turn, number: u32) -> Axis
    requires from_1 { 1 ≤ number }
    requires to_3 { number ≤ 3 }
    ensures value { axis_vector result ≡ axis_numbered prism.now turn number }
    ensures is_axis { IsTrue (is_level_axis result || is_upright_axis result) }
{
    let local = turn.local_axes();
    match number {
        1 => local.x,
        2 => across(prism, local.y),
        _ => local.z,
    }
}

/// The axis across an element whose local y is this in the world.
fn across(prism: &Prism, y: Axis) -> Axis
    requires { IsTrue (is_signed_axis (axis_vector y)) }
    ensures value { axis_vector result ≡ across_element prism.now (axis_vector y) }
    ensures is_axis { IsTrue (is_level_axis result || is_upright_axis result) }
{
    if is_across_itself(prism, y) {
        y
    } else {
        normal_across(prism, y)
    }
}

/// Whether the axis across an element is its local y: this is vertical, or an edge stands at right angles
/// to it.
fn is_across_itself(prism: &Prism, y: Axis) -> bool
    ensures { result ≡ (not (int_eq y.z (pos 0)) || list_any (stands_across (axis_vector y)) (edges_of prism.now.loops)) }
{
    y.z != 0 || has_edge_across(prism.loops(), y)
}

/// The normal of the longest edge of the outer loop, in the sense of y.
fn normal_across(prism: &Prism, y: Axis) -> Axis
    requires { IsTrue (is_signed_axis (axis_vector y)) }
    ensures value { axis_vector result ≡ normal_with (axis_vector y) (longest_of (outer_edges prism.now.loops)) }
    ensures is_axis { IsTrue (is_level_axis result || is_upright_axis result) }
{
    let (a, b) = longest_edge(prism.loops());
    with_sense(y, facing_over(a, b).normal)
}

/// The one of an axis and its opposite that points as y does.
fn with_sense(y: Axis, normal: Axis) -> Axis
    requires y_in { IsTrue (is_signed_axis (axis_vector y)) }
    requires normal_in { IsTrue (is_level_axis normal || is_upright_axis normal) }
    ensures value { axis_vector result ≡ sense_of (axis_vector y) (axis_vector normal) }
    ensures is_axis { IsTrue (is_level_axis result || is_upright_axis result) }
{
    if points_with(y, normal) {
        normal
    } else {
        opposite(normal)
    }
}

/// Whether a normal points as y does: their product is above 0, or it is 0 and that with y turned
/// clockwise by a quarter is.
fn points_with(y: Axis, normal: Axis) -> bool
    requires y_in { IsTrue (is_signed_axis (axis_vector y)) }
    requires normal_in { IsTrue (is_level_axis normal || is_upright_axis normal) }
    ensures { result ≡ is_along (axis_vector y) (axis_vector normal) }
{
    is_first_positive(inner_product(normal, y), turned_product(y, normal))
}

/// Whether the first number is above 0, or is 0 and the second is above 0.
fn is_first_positive(first: i128, second: i128) -> bool
    ensures { result ≡ (int_lt (pos 0) first || (int_eq first (pos 0) && int_lt (pos 0) second)) }
{
    first > 0 || (first == 0 && second > 0)
}

/// The product of a normal with y turned clockwise by a quarter.
#[tactic(auto, using(crate::proofs::ProductsFit::products))]
fn turned_product(y: Axis, normal: Axis) -> i128
    requires { IsTrue (is_signed_axis (axis_vector y)) }
    ensures { result ≡ inner (axis_vector normal) (clockwise (axis_vector y)) }
{
    inner_product(normal, clockwise_from(y))
}

/// An axis turned clockwise by a quarter, seen from above.
fn clockwise_from(y: Axis) -> Axis
    requires { IsTrue (is_signed_axis (axis_vector y)) }
    ensures { axis_vector result ≡ clockwise (axis_vector y) }
{
    Axis {
        x: y.y,
        y: -y.x,
        z: y.z,
    }
}

/// An axis the other way.
pub(crate) fn opposite(axis: Axis) -> Axis
    requires { IsShortAxis axis }
    ensures value { axis_vector result ≡ opposite_of (axis_vector axis) }
    ensures short { IsShortAxis result }
{
    Axis {
        x: -axis.x,
        y: -axis.y,
        z: -axis.z,
    }
}

/// The product of two directions.
pub(crate) fn inner_product(a: Axis, b: Axis) -> i128
    ensures { result ≡ inner (axis_vector a) (axis_vector b) }
{
    sum(sum(product(a.x, b.x), product(a.y, b.y)), product(a.z, b.z))
}

/// The product of two coordinates.
fn product(a: i32, b: i32) -> i128
    ensures value { result ≡ a *ℤ b }
    ensures size { unsigned_abs result ≤ 2 ^ 62 }
{
    i128::from(a) * i128::from(b)
}

/// The sum of two numbers.
fn sum(a: i128, b: i128) -> i128
    requires a_in { unsigned_abs a ≤ 2 ^ 64 }
    requires b_in { unsigned_abs b ≤ 2 ^ 64 }
    ensures value { result ≡ a +ℤ b }
    ensures size { unsigned_abs result ≤ unsigned_abs a + unsigned_abs b }
{
    a + b
}
