//! The lines of a boundary's surface, in the space's own frame.

ghost use Rattle.std.specs.Prelude.{◌≡◌, ◌≤◌, ◌<◌, ◌+◌, ◌^◌, ◌++◌, [], ◌∷◌, IfOk, OnOk, IsTrue, Some, length};
ghost use Rattle.std.specs.List.{range_with_len};
ghost use Rattle.sb_model.specs.Building.{is_shift};
ghost use Rattle.sb_ifc_out.specs.InTheSpace.{in_frame, places_in};
ghost use Rattle.sb_ifc_out.specs.Lines.{line, direction_body, loop_body};
ghost use Rattle.sb_ifc_out.specs.Numbers.{corners_listed};
ghost use Rattle.sb_ifc_out.specs.BoundaryLines.{coordinate, corner_lines, outline_text, plane_text, connected_text, surface_text, point_text};
ghost use Rattle.sb_ifc_out.specs.Steps.{span_of, IsWithin, greatest_ratio};

use crate::in_space::{Span, in_frame};
use crate::lines::{
    append_bound, append_connection, append_direction, append_face, append_loop, append_placement,
    append_plane, append_point,
};
use sb_fixed::print_scaled;
use sb_fraction::Unit;
use sb_list::Text;
use sb_model::{Corner, Corners, Frame};
use std::alloc::{AllocError, Global};

/// How many places a length has in the file's unit.
fn places_in(unit: Unit) -> u32
    ensures value { result ≡ places_in unit }
    ensures some { 1 ≤ result }
    ensures few { result ≤ 9 }
{
    match unit {
        Unit::Metre => 9,
        Unit::Millimetre => 6,
    }
}

/// A length in the file's unit, from nanometres (nm).
fn coordinate(alloc: Global, unit: Unit, nanometres: i128) -> Result<Vec<u8>, AllocError>
    ensures { IfOk result (λ text. text.items ≡ coordinate unit nanometres) }
{
    let mut text = Vec::new(alloc);
    print_scaled(&mut text, nanometres, places_in(unit))?;
    Ok(text)
}

/// Appends the line of a point given in nanometres (nm).
fn append_span(
    text: &mut Text,
    alloc: Global,
    unit: Unit,
    n: u64,
    at: Span,
) -> Result<(), AllocError>
    ensures { OnOk result (text.new ≡ text.old ++ line n (point_text unit (span_of at))) }
{
    let x = coordinate(alloc, unit, at.x)?;
    let y = coordinate(alloc, unit, at.y)?;
    let z = coordinate(alloc, unit, at.z)?;
    append_point(text, n, x.as_slice(), y.as_slice(), z.as_slice())
}

/// Appends the line of a corner.
fn append_corner(
    text: &mut Text,
    alloc: Global,
    unit: Unit,
    frame: &Frame,
    n: u64,
    corner: &Corner,
) -> Result<(), AllocError>
    requires { IsTrue (is_shift frame.now.shift) }
    ensures { OnOk result (text.new ≡ text.old ++ line n (point_text unit (in_frame frame.now corner.now))) }
{
    append_span(text, alloc, unit, n, in_frame(frame, corner))
}

/// Appends the lines of the corners, from this number on.
pub fn append_corners(
    text: &mut Text,
    alloc: Global,
    unit: Unit,
    frame: &Frame,
    n: u64,
    corners: &Corners,
) -> Result<(), AllocError>
    requires shift { IsTrue (is_shift frame.now.shift) }
    requires fits { n + 4 < 2 ^ 64 }
    ensures { OnOk result (text.new
        ≡ text.old ++ corner_lines unit frame.now n (corners_listed (Some corners.now))) }
{
    match corners {
        Corners::Three(a, b, c) => append_three(text, alloc, unit, frame, n, a, b, c),
        Corners::Four(a, b, c, d) => {
            append_corner(text, alloc, unit, frame, n, a)?;
            append_three(text, alloc, unit, frame, n + 1, b, c, d)
        }
    }
}

/// Appends the lines of three corners.
fn append_three(
    text: &mut Text,
    alloc: Global,
    unit: Unit,
    frame: &Frame,
    n: u64,
    a: &Corner,
    b: &Corner,
    c: &Corner,
) -> Result<(), AllocError>
    requires shift { IsTrue (is_shift frame.now.shift) }
    requires fits { n + 3 < 2 ^ 64 }
    ensures { OnOk result (text.new
        ≡ text.old ++ corner_lines unit frame.now n (a.now ∷ b.now ∷ c.now ∷ [])) }
{
    let second = n + 1;
    let third = second + 1;
    append_corner(text, alloc, unit, frame, n, a)?;
    append_corner(text, alloc, unit, frame, second, b)?;
    append_corner(text, alloc, unit, frame, third, c)
}

/// Appends the loop through the corners, which stand on the lines from `first` on, and its bound.
fn append_outline(text: &mut Text, first: u64, corners: &Corners, n: u64) -> Result<(), AllocError>
    requires first_fits { first + 4 < 2 ^ 64 }
    requires fits { n + 1 < 2 ^ 64 }
    ensures { OnOk result (text.new
        ≡ text.old ++ outline_text first (length (corners_listed (Some corners.now))) n) }
{
    append_loop_of(text, first, corners, n)?;
    append_bound(text, n + 1, n)
}

fn append_loop_of(text: &mut Text, first: u64, corners: &Corners, n: u64) -> Result<(), AllocError>
    requires { first + 4 < 2 ^ 64 }
    ensures { OnOk result (text.new
        ≡ text.old ++ line n (loop_body (range_with_len first (length (corners_listed (Some corners.now)))))) }
{
    let second = first + 1;
    let third = second + 1;
    match corners {
        Corners::Three(_, _, _) => append_loop(text, n, &[first, second, third]),
        Corners::Four(_, _, _, _) => append_loop(text, n, &[first, second, third, third + 1]),
    }
}

/// Appends the line of a direction whose ratios are small.
fn append_ratios(text: &mut Text, n: u64, along: Span) -> Result<(), AllocError>
    requires { IsWithin greatest_ratio (span_of along) }
    ensures { OnOk result (text.new ≡ text.old ++ line n (direction_body (span_of along))) }
{
    append_direction(text, n, along.x as i64, along.y as i64, along.z as i64)
}

/// Appends the plane through the first corner, with its normal and its direction.
fn append_plane_through(
    text: &mut Text,
    first: u64,
    n: u64,
    normal: Span,
    across: Span,
) -> Result<(), AllocError>
    requires normal_in { IsWithin greatest_ratio (span_of normal) }
    requires across_in { IsWithin greatest_ratio (span_of across) }
    requires fits { n + 3 < 2 ^ 64 }
    ensures { OnOk result (text.new
        ≡ text.old ++ plane_text (span_of normal) (span_of across) first n) }
{
    append_ratios(text, n, normal)?;
    append_ratios(text, n + 1, across)?;
    append_placement(text, n + 2, first, n, n + 1)?;
    append_plane(text, n + 3, n + 2)
}

/// Appends the face of a bound and a plane, and its connection.
fn append_connected(text: &mut Text, bound: u64, plane: u64, n: u64) -> Result<(), AllocError>
    requires { n + 1 < 2 ^ 64 }
    ensures { OnOk result (text.new ≡ text.old ++ connected_text bound plane n) }
{
    append_face(text, n, bound, plane)?;
    append_connection(text, n + 1, n)
}

/// Appends the eight lines of a surface whose corners stand on the lines from `first` on.
pub fn append_surface(
    text: &mut Text,
    first: u64,
    corners: &Corners,
    n: u64,
    normal: Span,
    across: Span,
) -> Result<(), AllocError>
    requires normal_in { IsWithin greatest_ratio (span_of normal) }
    requires across_in { IsWithin greatest_ratio (span_of across) }
    requires first_fits { first + 4 < 2 ^ 64 }
    requires fits { n + 7 < 2 ^ 64 }
    ensures { OnOk result (text.new ≡ text.old
        ++ surface_text (span_of normal) (span_of across) first (length (corners_listed (Some corners.now))) n) }
{
    append_outline(text, first, corners, n)?;
    append_plane_through(text, first, n + 2, normal, across)?;
    append_connected(text, n + 1, n + 5, n + 6)
}
