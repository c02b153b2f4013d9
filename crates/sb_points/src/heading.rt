//! Which way an edge runs.

ghost use Rattle.std.specs.Prelude.{◌≡◌, ◌≤◌, ◌≢◌, ◌<ℤ◌, ◌-ℤ◌, pos, int_lt, unsigned_abs, IsTrue};
ghost use Rattle.theory_numbers.specs.Fractions.{reduced};
ghost use Rattle.sb_fraction.specs.Plane.{is_coordinate, is_plan_point, are_two_points, is_direction, longest_step};
ghost use Rattle.sb_fraction.specs.Numbers.{ratio};
ghost use Rattle.sb_fraction.specs.Lines.{arrow_along, flat};
ghost use Rattle.sb_fraction.specs.Edges.{edge};
ghost use Rattle.sb_fraction.specs.Directions.{direction_of, runs_along as is_along_direction};

use sb_fraction::{Direction, Point, reduce};

/// The direction of an edge, and whether the edge runs along it or against it.
#[derive(Clone, Copy)]
pub struct Heading {
    pub direction: Direction,
    pub is_along: bool,
}

/// The heading of the edge from one plan point to another, in whole millimetres (mm): its direction
/// is the way without common divisor, turned so that `x > 0`, or `(0, 1)`.
pub fn heading_of(a: Point, b: Point) -> Heading
    requires a_in { IsTrue (is_plan_point a) }
    requires b_in { IsTrue (is_plan_point b) }
    requires apart { IsTrue (are_two_points a.x a.y b.x b.y) }
    ensures direction { flat (arrow_along result.direction) ≡ direction_of (edge a b) }
    ensures is_along { result.is_along ≡ is_along_direction (edge a b) }
{
    if a.x == b.x {
        Heading {
            direction: Direction { x: 0, y: 1 },
            is_along: is_less(a.y, b.y),
        }
    } else {
        sloped(a, b)
    }
}

/// The same of an edge that is not along y.
fn sloped(a: Point, b: Point) -> Heading
    requires a_in { IsTrue (is_plan_point a) }
    requires b_in { IsTrue (is_plan_point b) }
    requires apart { IsTrue (are_two_points a.x a.y b.x b.y) }
    requires sloped { a.x ≢ b.x }
    ensures direction { flat (arrow_along result.direction) ≡ direction_of (edge a b) }
    ensures is_along { result.is_along ≡ is_along_direction (edge a b) }
{
    if is_less(a.x, b.x) {
        Heading {
            direction: along(less(b.x, a.x), less(b.y, a.y)),
            is_along: true,
        }
    } else {
        Heading {
            direction: along(less(a.x, b.x), less(a.y, b.y)),
            is_along: false,
        }
    }
}

/// Whether the first coordinate is below the second.
fn is_less(a: i32, b: i32) -> bool
    ensures { result ≡ int_lt a b }
{
    a < b
}

/// The difference of two coordinates.
fn less(a: i32, b: i32) -> i128
    requires a_in { IsTrue (is_coordinate a) }
    requires b_in { IsTrue (is_coordinate b) }
    ensures value { result ≡ a -ℤ b }
    ensures size { unsigned_abs result ≤ longest_step }
{
    (a - b) as i128
}

/// The direction along the vector (x, y), where x is positive.
#[tactic(auto, using(crate::proofs::EdgesHeaded::headings))]
fn along(x: i128, y: i128) -> Direction
    requires positive { pos 0 <ℤ x }
    requires x_in { unsigned_abs x ≤ longest_step }
    requires y_in { unsigned_abs y ≤ longest_step }
    ensures { ratio result.y result.x ≡ reduced y x }
{
    let (rise, run) = slope(x, y);
    Direction {
        x: run as i32,
        y: rise as i32,
    }
}

/// The slope y/x in lowest terms.
#[tactic(auto, using(crate::proofs::EdgesHeaded::headings))]
fn slope(x: i128, y: i128) -> (i128, i128)
    requires positive { pos 0 <ℤ x }
    requires x_in { unsigned_abs x ≤ longest_step }
    requires y_in { unsigned_abs y ≤ longest_step }
    ensures value { ratio result.0 result.1 ≡ reduced y x }
    ensures is_direction { IsTrue (is_direction result.1 result.0) }
{
    reduce(y, x)
}
