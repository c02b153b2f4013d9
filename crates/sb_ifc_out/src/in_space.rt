//! Points and directions as a space's own frame has them.

ghost use Rattle.std.specs.Prelude.{◌≡◌, ◌≤◌, ◌*ℤ◌, ℕ, IsTrue, unsigned_abs};
ghost use Rattle.theory_turns.specs.Turns.{is_signed_axis};
ghost use Rattle.sb_fraction.specs.Spots.{inner, vector};
ghost use Rattle.sb_model.specs.Building.{is_shift, greatest_shift};
ghost use Rattle.sb_model.specs.Frames.{vector_of};
ghost use Rattle.sb_model.specs.Labels.{axis_vector};
ghost use Rattle.sb_ifc_out.specs.InTheSpace.{turned_back, in_frame, from_origin, nanometres};
ghost use Rattle.sb_ifc_out.specs.Steps.{span_of, greatest_span, greatest_ratio, IsWithin};

use sb_fixed::round_nano;
use sb_fraction::Fraction;
use sb_model::{Axis, Corner, Frame, Turn};

/// How far something goes along three axes.
#[derive(Clone, Copy)]
pub struct Span {
    pub x: i128,
    pub y: i128,
    pub z: i128,
}

/// A corner in the frame's own axes, in nanometres (nm).
pub fn in_frame(frame: &Frame, corner: &Corner) -> Span
    requires { IsTrue (is_shift frame.now.shift) }
    ensures { span_of result ≡ in_frame frame.now corner.now }
{
    turned_back(frame.turn, from_origin(frame.shift, corner))
}

/// A corner as seen from the frame's origin, in nanometres (nm).
fn from_origin(shift: [i128; 3], corner: &Corner) -> Span
    requires { IsTrue (is_shift shift) }
    ensures value { span_of result ≡ from_origin (vector_of shift) corner.now }
    ensures size { IsWithin greatest_span (span_of result) }
{
    let [x, y, z] = shift;
    Span {
        x: nanometres(x, &corner.x),
        y: nanometres(y, &corner.y),
        z: nanometres(z, &corner.z),
    }
}

/// A coordinate in nanometres (nm), less a shift.
#[tactic(auto, using(crate::proofs::SpansFit::spans))]
fn nanometres(shift: i128, coordinate: &Fraction) -> i128
    requires { unsigned_abs shift ≤ greatest_shift }
    ensures value { result ≡ nanometres shift coordinate.now }
    ensures size { unsigned_abs result ≤ greatest_span }
{
    // What holds of every fraction is told with its denominator.
    let _den = coordinate.den();
    round_nano(coordinate, shift)
}

/// A direction in the frame's own axes.
pub fn direction_in(turn: Turn, axis: Axis) -> Span
    ensures value { span_of result ≡ turned_back turn (axis_vector axis) }
    ensures size { IsWithin greatest_ratio (span_of result) }
{
    turned_back(turn, axis_span(axis))
}

/// An axis as a span.
#[tactic(auto, using(crate::proofs::SpansFit::spans))]
fn axis_span(axis: Axis) -> Span
    ensures value { span_of result ≡ axis_vector axis }
    ensures size { IsWithin greatest_ratio (span_of result) }
{
    Span {
        x: axis.x as i128,
        y: axis.y as i128,
        z: axis.z as i128,
    }
}

/// How far a span goes along the local axes of a turn.
#[tactic(auto, using(crate::proofs::SpansFit::spans))]
fn turned_back(turn: Turn, v: Span) -> Span
    requires { IsWithin greatest_span (span_of v) }
    ensures value { span_of result ≡ turned_back turn (span_of v) }
    ensures size { (most : ℕ) → IsWithin most (span_of v) → IsWithin most (span_of result) }
{
    let axes = turn.local_axes();
    Span {
        x: along(axes.x, v),
        y: along(axes.y, v),
        z: along(axes.z, v),
    }
}

/// How far a span goes along a signed axis.
#[tactic(auto, using(crate::proofs::SpansFit::spans))]
fn along(axis: Axis, v: Span) -> i128
    requires axis_is { IsTrue (is_signed_axis (axis_vector axis)) }
    requires size { IsWithin greatest_span (span_of v) }
    ensures value { result ≡ inner (axis_vector axis) (span_of v) }
    ensures size { (most : ℕ) → IsWithin most (span_of v) → unsigned_abs result ≤ most }
{
    if axis.x != 0 {
        signed(axis.x, v.x)
    } else if axis.y != 0 {
        signed(axis.y, v.y)
    } else {
        signed(axis.z, v.z)
    }
}

/// A number times 1 or -1.
#[tactic(auto, using(crate::proofs::SpansFit::spans))]
fn signed(sign: i32, number: i128) -> i128
    requires sign_is { unsigned_abs sign ≡ 1 }
    requires size { unsigned_abs number ≤ greatest_span }
    ensures value { result ≡ sign *ℤ number }
    ensures size { unsigned_abs result ≡ unsigned_abs number }
{
    if sign < 0 { -number } else { number }
}
