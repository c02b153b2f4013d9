//! Directions in plan, and lines along them.

ghost use Rattle.std.specs.Prelude.{IsTrue};
ghost use Rattle.sb_fraction.specs.Plane.{is_direction};

/// A direction in plan: two numbers without common divisor, each at most 10^6 in size, with
/// `x > 0`, or `(0, 1)`. So each line has one direction.
#[derive(Clone, Copy, PartialEq)]
pub struct Direction {
    pub x: i32,
    pub y: i32,
    ghost is_direction: { IsTrue (is_direction x y) },
}

/// The plan points `p` with `p.y·dir.x - p.x·dir.y = off`.
#[derive(Clone, Copy, PartialEq)]
pub struct Line {
    pub dir: Direction,
    pub off: i64,
}
