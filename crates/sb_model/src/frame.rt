//! Frames: turns by quarters, and shifts.

ghost use Rattle.std.specs.Prelude.{◌≡◌, ◌≤◌, ◌^◌, ◌+◌, ◌*◌, ◌+ℤ◌, ◌-ℤ◌, ◌*ℤ◌, pos, unsigned_abs, IsTrue};
ghost use Rattle.std.specs.Ordering.{int_eq};
ghost use Rattle.sb_fraction.specs.Spots.{Vector, vector, inner};
ghost use Rattle.theory_turns.specs.Turns.{turn_of, is_signed_axis, cross_of, mixture_of, turned_by, then_of, back_of, is_quarter, y_of};
ghost use Rattle.sb_model.specs.Labels.{axis_vector};
ghost use Rattle.theory_turns.specs.Turns.{mixed as mixed_numbers};
ghost use Rattle.sb_model.specs.Frames.{IsWithin, way_of, vector_of, numbers_of, sum_of, greatest_framed, are_framed, placed_by};

use crate::layers::Axis;
use std::marker::Model;

/// One of the 24 turns that take each axis to a signed axis and keep handedness.
#[derive(Clone, Copy, PartialEq)]
pub struct Turn {
    x: Axis,
    z: Axis,
}

/// The directions of local axes in the world, each a signed axis.
#[derive(Clone, Copy)]
pub struct LocalAxes {
    pub x: Axis,
    pub y: Axis,
    pub z: Axis,
}

impl Model for Turn {
    ghost use Rattle.std.specs.Prelude.{IsTrue};
    ghost use Rattle.theory_turns.specs.Turns.{Quarter, is_quarter};
    ghost use Rattle.sb_fraction.specs.Spots.{vector};

    ghost Value = { Quarter };

    ghost view = { λ t. record { x = vector t.x.x t.x.y t.x.z; z = vector t.z.x t.z.y t.z.z } };

    ghost invariant = { λ t. IsTrue (is_quarter (vector t.x.x t.x.y t.x.z) (vector t.z.x t.z.y t.z.z)) };

    ghost inverse = { λ q. record {
      x = record { x = q.x.x; y = q.x.y; z = q.x.z };
      z = record { x = q.z.x; y = q.z.y; z = q.z.z };
    } };
}

impl Turn {
    /// The turn that takes the local x and z to these two directions and the local y to `z × x`.
    /// `None` exactly where they are not two signed axes at right angles.
    pub fn new(x: Axis, z: Axis) -> Option<Turn>
        ensures { result ≡ turn_of (vector x.x x.y x.z) (vector z.x z.y z.z) }
    {
        if is_axis(x) && is_axis(z) && is_across(x, z) {
            Some(Turn { x, z })
        } else {
            None
        }
    }

    /// This turn, and then the next.
    #[tactic(auto, using(crate::proofs::TurnsInCode::turns))]
    pub fn then(self, next: Turn) -> Turn
        ensures value { result ≡ then_of self next }
        ensures takes { (v : Vector) → turned_by result v ≡ turned_by next (turned_by self v) }
    {
        let (x, z) = self.axes();
        axes_turn(next.turned(x), next.turned(z))
    }

    /// The turn that takes back: after this one it changes nothing.
    #[tactic(auto, using(crate::proofs::TurnsInCode::turns))]
    pub fn back(self) -> Turn
        ensures value { result ≡ back_of self }
        ensures takes_back { (v : Vector) → turned_by result (turned_by self v) ≡ v }
    {
        let (x, z) = self.axes();
        let y = cross(z, x);
        let (first, last) = read_across(x, y, z);
        axes_turn(first, last)
    }

    /// Where the local axes are taken.
    #[tactic(auto, using(crate::proofs::TurnsInCode::turns))]
    pub fn local_axes(self) -> LocalAxes
        ensures x { axis_vector result.x ≡ self.x }
        ensures y { axis_vector result.y ≡ y_of self }
        ensures z { axis_vector result.z ≡ self.z }
        ensures x_signed { IsTrue (is_signed_axis (axis_vector result.x)) }
        ensures y_signed { IsTrue (is_signed_axis (axis_vector result.y)) }
        ensures z_signed { IsTrue (is_signed_axis (axis_vector result.z)) }
    {
        let (x, z) = self.axes();
        let y = cross(z, x);
        LocalAxes {
            x: signed_axis(x),
            y: signed_axis(y),
            z: signed_axis(z),
        }
    }

    /// Where the local x and z are taken.
    #[tactic(auto, using(crate::proofs::TurnsInCode::turns))]
    fn axes(self) -> (Way, Way)
        ensures x_is { way_of result.0 ≡ self.x }
        ensures z_is { way_of result.1 ≡ self.z }
        ensures is_turn { IsTrue (is_quarter self.x self.z) }
    {
        (direction(self.x), direction(self.z))
    }

    /// Where a vector is taken.
    #[tactic(auto, using(crate::proofs::TurnsInCode::turns))]
    fn turned(self, v: Way) -> Way
        requires size { IsWithin greatest_framed (way_of v) }
        ensures value { way_of result ≡ turned_by self (way_of v) }
        ensures size { IsWithin (3 * greatest_framed) (way_of result) }
        ensures is_turn { IsTrue (is_quarter self.x self.z) }
    {
        let (x, z) = self.axes();
        mixture(v, x, cross(z, x), z)
    }
}

/// A vector of space.
#[derive(Clone, Copy)]
struct Way {
    x: i128,
    y: i128,
    z: i128,
}

/// How far each of three vectors goes along x, and how far along z.
#[tactic(auto, using(crate::proofs::TurnsInCode::turns))]
fn read_across(x: Way, y: Way, z: Way) -> (Way, Way)
    ensures first { way_of result.0 ≡ vector x.x y.x z.x }
    ensures last { way_of result.1 ≡ vector x.z y.z z.z }
{
    (
        Way {
            x: x.x,
            y: y.x,
            z: z.x,
        },
        Way {
            x: x.z,
            y: y.z,
            z: z.z,
        },
    )
}

/// A direction as a vector.
#[tactic(auto, using(crate::proofs::TurnsInCode::turns))]
fn direction(a: Axis) -> Way
    ensures { way_of result ≡ vector a.x a.y a.z }
{
    Way {
        x: a.x as i128,
        y: a.y as i128,
        z: a.z as i128,
    }
}

/// A signed axis as a direction.
#[tactic(auto, using(crate::proofs::TurnsInCode::turns))]
fn signed_axis(a: Way) -> Axis
    requires { IsTrue (is_signed_axis (way_of a)) }
    ensures { vector result.x result.y result.z ≡ way_of a }
{
    Axis {
        x: a.x as i32,
        y: a.y as i32,
        z: a.z as i32,
    }
}

/// The turn that takes the local x and z to these two.
#[tactic(auto, using(crate::proofs::TurnsInCode::turns))]
fn axes_turn(x: Way, z: Way) -> Turn
    requires { IsTrue (is_quarter (way_of x) (way_of z)) }
    ensures x_is { result.x ≡ way_of x }
    ensures z_is { result.z ≡ way_of z }
{
    Turn {
        x: signed_axis(x),
        z: signed_axis(z),
    }
}

/// The vector at right angles to two signed axes.
#[tactic(auto, using(crate::proofs::TurnsInCode::turns))]
fn cross(a: Way, b: Way) -> Way
    requires a_is { IsTrue (is_signed_axis (way_of a)) }
    requires b_is { IsTrue (is_signed_axis (way_of b)) }
    ensures { way_of result ≡ cross_of (way_of a) (way_of b) }
{
    Way {
        x: area(a.y, a.z, b.y, b.z),
        y: area(a.z, a.x, b.z, b.x),
        z: area(a.x, a.y, b.x, b.y),
    }
}

/// Twice the area that two vectors of the plane span.
#[tactic(auto, using(crate::proofs::TurnsInCode::turns))]
fn area(a: i128, b: i128, c: i128, d: i128) -> i128
    requires a_in { unsigned_abs a ≤ 1 }
    requires b_in { unsigned_abs b ≤ 1 }
    requires c_in { unsigned_abs c ≤ 1 }
    requires d_in { unsigned_abs d ≤ 1 }
    ensures { result ≡ (a *ℤ d) -ℤ (b *ℤ c) }
{
    difference(times(a, d), times(b, c))
}

/// The difference of two of the numbers 1, -1 and 0.
fn difference(a: i128, b: i128) -> i128
    requires a_in { unsigned_abs a ≤ 1 }
    requires b_in { unsigned_abs b ≤ 1 }
    ensures { result ≡ a -ℤ b }
{
    a - b
}

/// Three signed axes together, each so many times as the vector has it.
#[tactic(auto, using(crate::proofs::TurnsInCode::turns))]
fn mixture(v: Way, x: Way, y: Way, z: Way) -> Way
    requires size { IsWithin greatest_framed (way_of v) }
    requires x_in { IsWithin 1 (way_of x) }
    requires y_in { IsWithin 1 (way_of y) }
    requires z_in { IsWithin 1 (way_of z) }
    ensures value { way_of result ≡ mixture_of (way_of v) (way_of x) (way_of y) (way_of z) }
    ensures size { IsWithin (3 * greatest_framed) (way_of result) }
{
    Way {
        x: mixed(v, x.x, y.x, z.x),
        y: mixed(v, x.y, y.y, z.y),
        z: mixed(v, x.z, y.z, z.z),
    }
}

/// Three numbers, each so many times as the vector has it.
#[tactic(auto, using(crate::proofs::TurnsInCode::turns))]
fn mixed(v: Way, a: i128, b: i128, c: i128) -> i128
    requires size { IsWithin greatest_framed (way_of v) }
    requires a_in { unsigned_abs a ≤ 1 }
    requires b_in { unsigned_abs b ≤ 1 }
    requires c_in { unsigned_abs c ≤ 1 }
    ensures value { result ≡ mixed_numbers (way_of v) a b c }
    ensures size { unsigned_abs result ≤ 3 * greatest_framed }
{
    total(times(a, v.x), times(b, v.y), times(c, v.z))
}

/// Three numbers together.
#[tactic(auto, using(crate::proofs::TurnsInCode::turns))]
fn total(a: i128, b: i128, c: i128) -> i128
    requires a_in { unsigned_abs a ≤ greatest_framed }
    requires b_in { unsigned_abs b ≤ greatest_framed }
    requires c_in { unsigned_abs c ≤ greatest_framed }
    ensures value { result ≡ (a +ℤ b) +ℤ c }
    ensures size { unsigned_abs result ≤ 3 * greatest_framed }
{
    a + b + c
}

/// A number times 1, -1 or 0.
#[tactic(auto, using(crate::proofs::TurnsInCode::turns))]
fn times(a: i128, number: i128) -> i128
    requires a_in { unsigned_abs a ≤ 1 }
    requires size { unsigned_abs number ≤ greatest_framed }
    ensures value { result ≡ a *ℤ number }
    ensures size { unsigned_abs result ≤ unsigned_abs number }
{
    a * number
}

/// Whether one coordinate is 1 or -1 and the others are 0.
fn is_axis(a: Axis) -> bool
    ensures { result ≡ is_signed_axis (vector a.x a.y a.z) }
{
    a.x.unsigned_abs() as u64 + a.y.unsigned_abs() as u64 + a.z.unsigned_abs() as u64 == 1
}

/// The product of two coordinates.
fn product(a: i32, b: i32) -> i128
    ensures value { result ≡ a *ℤ b }
    ensures size { unsigned_abs result ≤ 2 ^ 62 }
{
    a as i128 * b as i128
}

/// The sum of two numbers.
fn sum(a: i128, b: i128) -> i128
    requires a_in { unsigned_abs a ≤ 2 ^ 64 }
    requires b_in { unsigned_abs b ≤ 2 ^ 64 }
    ensures value { result ≡ a +ℤ b }
    ensures size { unsigned_abs result ≤ unsigned_abs a + unsigned_abs b }
{
    a + b
}

/// The inner product of two directions.
#[tactic(auto, using(crate::proofs::Passing::passing))]
fn inner_product(a: Axis, b: Axis) -> i128
    ensures { result ≡ inner (vector a.x a.y a.z) (vector b.x b.y b.z) }
{
    sum(sum(product(a.x, b.x), product(a.y, b.y)), product(a.z, b.z))
}

/// Whether two directions stand at right angles.
fn is_across(a: Axis, b: Axis) -> bool
    ensures { result ≡ int_eq (inner (vector a.x a.y a.z) (vector b.x b.y b.z)) (pos 0) }
{
    inner_product(a, b) == 0
}

/// A frame: it takes a point p in nanometres (nm) to `turn(p) + shift`.
#[derive(Clone, Copy)]
pub struct Frame {
    pub turn: Turn,
    /// In nanometres (nm).
    pub shift: [i128; 3],
}

impl Frame {
    /// Where a point is taken, in nanometres (nm).
    #[tactic(auto, using(crate::proofs::TurnsInCode::turns))]
    pub fn apply(&self, p: [i128; 3]) -> [i128; 3]
        requires point_in { IsTrue (are_framed p) }
        requires shift_in { IsTrue (are_framed self.now.shift) }
        ensures { result ≡ placed_by self.now.turn self.now.shift p }
    {
        let turned = self.turn.turned(vector_at(p));
        numbers_at(moved(turned, vector_at(self.shift)))
    }
}

/// Three numbers as a vector.
fn vector_at(p: [i128; 3]) -> Way
    requires { IsTrue (are_framed p) }
    ensures value { way_of result ≡ vector_of p }
    ensures size { IsWithin greatest_framed (way_of result) }
{
    let [x, y, z] = p;
    Way { x, y, z }
}

/// A vector as three numbers.
fn numbers_at(v: Way) -> [i128; 3]
    ensures { result ≡ numbers_of (way_of v) }
{
    [v.x, v.y, v.z]
}

/// A turned point, shifted.
#[tactic(auto, using(crate::proofs::TurnsInCode::turns))]
fn moved(v: Way, by: Way) -> Way
    requires v_in { IsWithin (3 * greatest_framed) (way_of v) }
    requires by_in { IsWithin greatest_framed (way_of by) }
    ensures { way_of result ≡ sum_of (way_of v) (way_of by) }
{
    Way {
        x: shifted(v.x, by.x),
        y: shifted(v.y, by.y),
        z: shifted(v.z, by.z),
    }
}

/// A number of a turned point with that of a shift.
#[tactic(auto, using(crate::proofs::TurnsInCode::turns))]
fn shifted(a: i128, by: i128) -> i128
    requires a_in { unsigned_abs a ≤ 3 * greatest_framed }
    requires by_in { unsigned_abs by ≤ greatest_framed }
    ensures { result ≡ a +ℤ by }
{
    a + by
}
