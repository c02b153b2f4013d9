// Rectangles as they are read.
ghost use Rattle.std.specs.Prelude.{◌≡◌, ◌≤◌, false, Option, Some, None, map, IfOk, IsTrue, neg_ℤ, unsigned_abs};
ghost use Rattle.theory_turns.specs.Turns.{is_quarter};
ghost use Rattle.sb_fixed.specs.Lengths.{greatest_nanometres};
ghost use Rattle.sb_model.specs.Frames.{are_framed};
ghost use Rattle.sb_place.specs.declared.sight.Seen.{Seen as SeenOf};
ghost use Rattle.sb_place.specs.declared.position.Position.{Position};
ghost use Rattle.sb_place.specs.Positions.{IsPlanPosition, IsSpacePosition};
ghost use Rattle.sb_place.specs.Sizes.{are_lengths};
ghost use Rattle.sb_prism.specs.Shapes.{IsWhere};
ghost use Rattle.sb_prism.specs.Outlines.{corners_about, half_of};
ghost use Rattle.sb_prism.specs.Kept as spec;

use crate::faults::Faults;
use crate::measure::{Measure, measured_length};
use crate::sections::areas::no_loops;
use crate::sections::contour::Contour;
use sb_fraction::Unit;
use sb_list::Listed;
use sb_model::{Axis, Frame, Turn};
use sb_place::{Local, plan_position, space_position, told};
use sb_schema::RectangleProfileDef;
use sb_solid::{Spot, Spots};
use sb_step::StepFile;
use std::alloc::{AllocError, Global};

/// What is kept of a rectangle.
pub(crate) fn rectangle(
    alloc: Global,
    file: &StepFile<'_>,
    sides: &RectangleProfileDef,
    unit: Unit,
) -> Result<Contour, AllocError>
    ensures { IfOk result (λ contour. (p : Option (SeenOf Position)) × IsWhere (IsPlanPosition file.now) sides.now.a3 p
        × spec.IsRectangleOf unit p sides.now.a4 sides.now.a5 contour) }
{
    let local = plan_local(alloc, file, sides.a3, unit)?;
    let x = measured_length(sides.a4.bytes(), unit);
    let y = measured_length(sides.a5.bytes(), unit);
    let faults = Faults::of_local(&local).and(of_measure(x).and(of_measure(y)));
    contour_of(alloc, faults, &local.frame, x.length, y.length)
}

/// What is at fault with a length.
pub(crate) fn of_measure(length: Measure) -> Faults
    ensures { result ≡ spec.measure_faults length }
{
    Faults::of_lengths(!length.above, length.length.is_none())
}

/// What a position in the plan says; one that is left out says nothing.
fn plan_local(
    alloc: Global,
    file: &StepFile<'_>,
    at: Option<u32>,
    unit: Unit,
) -> Result<Local, AllocError>
    ensures value { IfOk result (λ local. (p : Option (SeenOf Position)) × IsWhere (IsPlanPosition file.now) at p
        × (local ≡ spec.local_where unit p)) }
    ensures size { IfOk result (λ local. IsTrue (are_lengths local.frame.shift)) }
    ensures upright { IfOk result (λ local. IsTrue (is_quarter local.frame.turn.x local.frame.turn.z)) }
{
    match at {
        None => Ok(nowhere()),
        Some(number) => {
            let position = plan_position(alloc, file, number)?;
            Ok(told(&position, unit))
        }
    }
}

/// What a position in space says; one that is left out says nothing.
pub(crate) fn space_local(
    alloc: Global,
    file: &StepFile<'_>,
    at: Option<u32>,
    unit: Unit,
) -> Result<Local, AllocError>
    ensures value { IfOk result (λ local. (p : Option (SeenOf Position)) × IsWhere (IsSpacePosition file.now) at p
        × (local ≡ spec.local_where unit p)) }
    ensures size { IfOk result (λ local. IsTrue (are_lengths local.frame.shift)) }
    ensures upright { IfOk result (λ local. IsTrue (is_quarter local.frame.turn.x local.frame.turn.z)) }
{
    match at {
        None => Ok(nowhere()),
        Some(number) => {
            let position = space_position(alloc, file, number)?;
            Ok(told(&position, unit))
        }
    }
}

/// What a position says that is left out.
pub(crate) fn nowhere() -> Local
    ensures value { result ≡ spec.nowhere }
    ensures size { IsTrue (are_lengths result.frame.shift) }
    ensures upright { IsTrue (is_quarter result.frame.turn.x result.frame.turn.z) }
{
    Local {
        broken: None,
        absent: None,
        stray: false,
        turned: false,
        far: false,
        frame: unmoved(),
    }
}

/// The frame that takes every point to itself.
fn unmoved() -> Frame
    ensures value { result ≡ spec.unmoved }
    ensures upright { IsTrue (is_quarter result.turn.x result.turn.z) }
{
    Frame {
        turn: no_turn(),
        shift: [0, 0, 0],
    }
}

fn no_turn() -> Turn
    ensures value { result ≡ spec.unturned }
    ensures upright { IsTrue (is_quarter result.x result.z) }
{
    Turn::new(Axis { x: 1, y: 0, z: 0 }, Axis { x: 0, y: 0, z: 1 }).unwrap()
}

/// The contour of a rectangle of these sides about a frame; without loops where a side is out of range.
fn contour_of(
    alloc: Global,
    faults: Faults,
    frame: &Frame,
    x: Option<i128>,
    y: Option<i128>,
) -> Result<Contour, AllocError>
    requires size { IsTrue (are_lengths frame.now.shift) }
    requires x_in { spec.IsLengthWhere x }
    requires y_in { spec.IsLengthWhere y }
    ensures { IfOk result (λ contour. contour ≡ record { faults = faults; loops = spec.rectangle_loops frame.now x y }) }
{
    let mut contour = no_loops(alloc, faults);
    if let (Some(x), Some(y)) = (x, y) {
        let corners = corners(alloc, frame, half(x), half(y))?;
        contour.loops.push(corners)?;
    }
    Ok(contour)
}

/// Half of a length, rounded away from 0.
fn half(length: i128) -> i128
    requires { unsigned_abs length ≤ greatest_nanometres }
    ensures value { result ≡ half_of length }
    ensures size { unsigned_abs result ≤ greatest_nanometres }
{
    ((length.unsigned_abs() + 1) / 2) as i128
}

/// The corners at plus and minus these about a frame.
fn corners(alloc: Global, frame: &Frame, x: i128, y: i128) -> Result<Spots, AllocError>
    requires size { IsTrue (are_lengths frame.now.shift) }
    requires x_in { unsigned_abs x ≤ greatest_nanometres }
    requires y_in { unsigned_abs y ≤ greatest_nanometres }
    ensures { IfOk result (λ spots. spots ≡ map spec.spot_of (corners_about frame.now x y)) }
{
    let left = opposite(x);
    let low = opposite(y);
    let corners = [
        corner(frame, left, low),
        corner(frame, x, low),
        corner(frame, x, y),
        corner(frame, left, y),
    ];
    Listed::from_slice(alloc, &corners)
}

fn opposite(length: i128) -> i128
    requires { unsigned_abs length ≤ greatest_nanometres }
    ensures value { result ≡ neg_ℤ length }
    ensures size { unsigned_abs result ≤ greatest_nanometres }
{
    -length
}

/// Where a frame takes a point of the plane.
fn corner(frame: &Frame, x: i128, y: i128) -> Spot
    requires size { IsTrue (are_lengths frame.now.shift) }
    requires x_in { unsigned_abs x ≤ greatest_nanometres }
    requires y_in { unsigned_abs y ≤ greatest_nanometres }
    ensures { result ≡ spec.corner_at frame.now x y }
{
    let [x, y, z] = frame.apply([x, y, 0]);
    Spot { x, y, z }
}
