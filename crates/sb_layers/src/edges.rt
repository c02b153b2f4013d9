//! The edges of a plan: whether one stands at right angles to a direction, and which is the longest.

ghost use Rattle.std.specs.Prelude.{◌≡◌, ◌≢◌, ◌≤◌, ◌^◌, ◌*◌, ◌+ℤ◌, ◌-ℤ◌, ◌*ℤ◌, [], ◌∷◌, Some, int_lt, IsTrue, unsigned_abs};
ghost use Rattle.std.specs.List.{list_any};
ghost use Rattle.std.specs.Option.{option_map};
ghost use Rattle.sb_fraction.specs.Plane.{is_plan_point, are_two_points};
ghost use Rattle.sb_fraction.specs.Edges.{edge};
ghost use Rattle.theory_plans.specs.LoopEdges.{edges_of, edges_of_loop, edges_back};
ghost use Rattle.sb_model.specs.Labels.{axis_vector};
ghost use Rattle.sb_model.specs.Walks.{is_across as stands_across};
ghost use Rattle.sb_layers.specs.Axes.{longest_of, outer_edges, squared_length};
ghost use Rattle.sb_layers.specs.Longest.{longest_after, longer as longer_of};

use sb_fraction::Point;
use sb_model::{Axis, Loops, Points};

/// Whether some edge stands at right angles to a direction of the plan. It goes once over the points.
pub(crate) fn has_edge_across(loops: &Loops, y: Axis) -> bool
    ensures { result ≡ list_any (stands_across (axis_vector y)) (edges_of loops.now) }
{
    'loops: for points in loops.points().as_slice() {
        if loop_has_across(points, y) {
            return true;
        }
    }
    false
}

/// Whether some edge of a loop does.
fn loop_has_across(points: &Points, y: Axis) -> bool
    ensures { result ≡ list_any (stands_across (axis_vector y)) (edges_of_loop points.now) }
{
    match points.as_slice().split_first() {
        Some((first, rest)) => is_any_across(*first, rest, y),
        None => false,
    }
}

/// The same for a loop from its first point over the others and back.
fn is_any_across(first: Point, rest: &[Point], y: Axis) -> bool
    ensures { result ≡ list_any (stands_across (axis_vector y)) (edges_back first rest.now first) }
{
    let mut last = first;
    'points: for point in rest {
        if is_across(last, *point, y) {
            return true;
        }
        last = *point;
    }
    is_across(last, first, y)
}

/// Whether an edge stands at right angles to a direction of the plan.
fn is_across(a: Point, b: Point, y: Axis) -> bool
    ensures { result ≡ stands_across (axis_vector y) (edge a b) }
{
    reading(a, b, y) == 0
}

/// How far an edge goes along a direction of the plan.
fn reading(a: Point, b: Point, y: Axis) -> i128
    ensures { result ≡ ((b.x -ℤ a.x) *ℤ y.x) +ℤ ((b.y -ℤ a.y) *ℤ y.y) }
{
    sum(along(a.x, b.x, y.x), along(a.y, b.y, y.y))
}

/// The difference of two coordinates, so many times.
#[tactic(auto, using(crate::proofs::ProductsFit::products))]
fn along(a: i32, b: i32, by: i32) -> i128
    ensures value { result ≡ (b -ℤ a) *ℤ by }
    ensures size { unsigned_abs result ≤ 2 ^ 33 * 2 ^ 33 }
{
    product(difference(b, a), by as i128)
}

/// The longest edge of the outer loop; of several the first.
pub(crate) fn longest_edge(loops: &Loops) -> (Point, Point)
    ensures value { longest_of (outer_edges loops.now) ≡ Some (edge result.0 result.1) }
    ensures a_in { IsTrue (is_plan_point result.0) }
    ensures b_in { IsTrue (is_plan_point result.1) }
    ensures apart { IsTrue (are_two_points result.0.x result.0.y result.1.x result.1.y) }
{
    let outer = loops.points().as_slice()[0].as_slice();
    longest_in(outer)
}

/// The longest edge of a loop.
fn longest_in(points: &[Point]) -> (Point, Point)
    requires { points.now ≢ [] }
    ensures { Some (edge result.0 result.1) ≡ longest_after None (edges_of_loop points.now) }
{
    let (first, rest) = points.split_first().unwrap();
    longest_from(*first, rest)
}

/// The same for a loop from its first point over the others and back.
fn longest_from(first: Point, rest: &[Point]) -> (Point, Point)
    ensures { Some (edge result.0 result.1) ≡ longest_after None (edges_back first rest.now first) }
{
    let mut best = None;
    let mut last = first;
    'points: for point in rest {
        best = Some(longer(best, last, *point));
        last = *point;
    }
    longer(best, last, first)
}

/// The edge from `a` to `b` where it is longer than the best so far, else this one.
fn longer(best: Option<(Point, Point)>, a: Point, b: Point) -> (Point, Point)
    ensures { edge result.0 result.1 ≡ longer_of (option_map (λ e. edge e.0 e.1) best) (edge a b) }
{
    match best {
        Some((c, d)) if !is_longer(a, b, c, d) => (c, d),
        _ => (a, b),
    }
}

/// Whether the edge from `a` to `b` is longer than the one from `c` to `d`.
fn is_longer(a: Point, b: Point, c: Point, d: Point) -> bool
    ensures { result ≡ int_lt (squared_length (edge c d)) (squared_length (edge a b)) }
{
    squared(c, d) < squared(a, b)
}

/// The square of the length of an edge.
#[tactic(auto, using(crate::proofs::ProductsFit::products))]
fn squared(a: Point, b: Point) -> i128
    ensures { result ≡ squared_length (edge a b) }
{
    let x = difference(b.x, a.x);
    let y = difference(b.y, a.y);
    sum(product(x, x), product(y, y))
}

/// The difference of two coordinates.
fn difference(a: i32, b: i32) -> i128
    ensures value { result ≡ a -ℤ b }
    ensures size { unsigned_abs result ≤ 2 ^ 33 }
{
    i128::from(a) - i128::from(b)
}

/// The product of two numbers.
#[tactic(auto, using(crate::proofs::ProductsFit::products))]
fn product(a: i128, b: i128) -> i128
    requires a_in { unsigned_abs a ≤ 2 ^ 33 }
    requires b_in { unsigned_abs b ≤ 2 ^ 33 }
    ensures value { result ≡ a *ℤ b }
    ensures size { unsigned_abs result ≤ 2 ^ 33 * 2 ^ 33 }
{
    a * b
}

/// The sum of two numbers.
fn sum(a: i128, b: i128) -> i128
    requires a_in { unsigned_abs a ≤ 2 ^ 33 * 2 ^ 33 }
    requires b_in { unsigned_abs b ≤ 2 ^ 33 * 2 ^ 33 }
    ensures { result ≡ a +ℤ b }
{
    a + b
}
