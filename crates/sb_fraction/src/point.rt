//! Plan points, and segments between them.

ghost use Rattle.std.specs.Prelude.{IsTrue, int_lt, pos};
ghost use Rattle.sb_fraction.specs.Plane.{are_two_points};

/// A plan point, in whole millimetres (mm).
#[derive(Clone, Copy, PartialEq)]
pub struct Point {
    pub x: i32,
    pub y: i32,
}

/// A segment from `a` to `b`, two points that differ.
#[derive(Clone, Copy)]
pub struct Segment {
    pub a: Point,
    pub b: Point,
    ghost apart: { IsTrue (are_two_points a.x a.y b.x b.y) },
}

/// The plan point `(x/w, y/w)` in millimetres (mm), where `w` is positive.
#[derive(Clone, Copy)]
pub struct HPoint {
    pub x: i128,
    pub y: i128,
    pub w: i128,
    ghost positive: { IsTrue (int_lt (pos 0) w) },
}
