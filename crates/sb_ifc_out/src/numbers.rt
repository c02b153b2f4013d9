//! The elements that boundaries are related to, and the numbers of their lines.

ghost use Rattle.std.specs.Prelude.{◌≡◌, ◌≤◌, ◌<◌, ◌+◌, ◌^◌, ℕ, IfOk, IsTrue, Some, length, map, option_map, slice_get, slice_index};
ghost use Rattle.std.specs.List.{range_with_len};
ghost use Rattle.sb_model.specs.Building.{Building};
ghost use Rattle.sb_model.specs.Surfaces.Corners.{corners_of};
ghost use Rattle.sb_model.specs.Surfaces.Faces.{is_face_of};
ghost use Rattle.sb_model.specs.ListOfModel.{is_list_of, is_id_in};
ghost use Rattle.sb_ifc_out.specs.Numbers.{element_of, first_element, end_element, first_there, virtual_lines};
ghost use Rattle.sb_ifc_out.specs.Numbers.{corners_listed, surface_lines, line_count, last_line};
ghost use Rattle.sb_ifc_out.specs.Steps.{AreOutlines};

use crate::places::boundary_at;
use sb_list::Listed;
use sb_model::{Boundaries, Boundary, Corners, End, Item, Model, corners};
use std::alloc::{AllocError, Global};

/// How many lines stand between the corners and what stands for the element.
pub const SURFACE_LINES: u64 = 8;

/// The lines of the relations of a list, in its order.
pub type Relations = Listed<u64>;

/// The corners of the boundaries of a list, in its order.
pub type Outlines = Listed<Corners>;

/// The element that a boundary is related to, where there is one.
pub fn element_of(boundary: &Boundary) -> Option<u32>
    ensures { result ≡ element_of boundary.now }
{
    first_there(
        boundary.key,
        first_there(
            first_element(boundary.walk.items.as_slice()),
            end_element(boundary.walk.end),
        ),
    )
}

/// The first of the two that is there.
fn first_there(one: Option<u32>, other: Option<u32>) -> Option<u32>
    ensures { result ≡ first_there one other }
{
    match one {
        Some(number) => Some(number),
        None => other,
    }
}

/// The element of the first item.
fn first_element(items: &[Item]) -> Option<u32>
    ensures { result ≡ first_element items.now }
{
    match items.split_first() {
        Some((first, _)) => Some(first.element),
        None => None,
    }
}

/// The element of a solid end.
fn end_element(end: End) -> Option<u32>
    ensures { result ≡ end_element end }
{
    match end {
        End::Solid(number) => Some(number),
        End::Space(_) | End::Outside | End::Earth => None,
    }
}

/// How many lines stand for an element.
pub fn virtual_lines(element: Option<u32>) -> u64
    ensures value { result ≡ virtual_lines element }
    ensures few { result ≤ 1 }
{
    match element {
        Some(_) => 0,
        None => 1,
    }
}

/// How many corners there are.
pub fn count_of(corners: &Corners) -> u64
    ensures value { result ≡ length (corners_listed (Some corners.now)) }
    ensures few { result ≤ 4 }
{
    match corners {
        Corners::Three(_, _, _) => 3,
        Corners::Four(_, _, _, _) => 4,
    }
}

/// How many lines a boundary with these corners has.
fn line_count(corners: &Corners, boundary: &Boundary) -> u64
    ensures { (m : Building) → Some corners.now ≡ corners_of m boundary.now.patch
        → result ≡ line_count m boundary.now }
{
    count_of(corners) + SURFACE_LINES + virtual_lines(element_of(boundary)) + 1
}

/// The corners of a list's boundaries, in its order. They are kept, since to work them out takes
/// longer than to write them.
pub fn outlines(alloc: Global, model: &Model, bounds: &Boundaries) -> Result<Outlines, AllocError>
    requires of_model { IsTrue (is_list_of model.now bounds.now) }
    ensures { IfOk result (λ list. AreOutlines model.now bounds.now list) }
{
    let mut outlines = Outlines::new(alloc);
    for index in 0..bounds.len() {
        outlines.push(corners(model, &boundary_at(bounds, index).patch))?;
    }
    Ok(outlines)
}

/// The corners of the boundary at a place of the list, counted from 0.
pub fn outline_at(outlines: &[Corners], index: usize) -> &Corners
    requires { index < length outlines.now }
    ensures { slice_get outlines.now index ≡ Some result.now }
{
    &outlines[index]
}

/// The number after so many more. A text whose numbers pass 64 bits has no room in any memory.
fn after(number: u64, more: u64) -> Result<u64, AllocError>
    ensures { IfOk result (λ n. n ≡ number + more) }
{
    match number.checked_add(more) {
        Some(number) => Ok(number),
        None => Err(AllocError),
    }
}

/// The lines of the relations, behind the greatest number of the input.
pub fn relations(
    alloc: Global,
    bounds: &Boundaries,
    outlines: &[Corners],
    greatest: u32,
) -> Result<Relations, AllocError>
    requires { length outlines.now ≡ length bounds.now }
    ensures { (m : Building) → AreOutlines m bounds.now outlines.now → IfOk result (λ list. list
        ≡ map (last_line m greatest bounds.now) (range_with_len 1 (length bounds.now))) }
{
    let mut relations = Relations::new(alloc);
    let mut last = u64::from(greatest);
    for index in 0..bounds.len() {
        let corners = outline_at(outlines, index);
        last = after(last, line_count(corners, boundary_at(bounds, index)))?;
        relations.push(last)?;
    }
    Ok(relations)
}

/// The line of the relation of the boundary with this id, if one is given.
pub fn relation_of(relations: &[u64], id: Option<u64>) -> Option<u64>
    requires within { IsTrue (is_id_in (length relations.now) id) }
    ensures { (f : ℕ → ℕ) → relations.now ≡ map f (range_with_len 1 (length relations.now))
        → result ≡ option_map f id }
{
    match id {
        Some(id) => Some(relations[(id - 1) as usize]),
        None => None,
    }
}

/// The line at a place of the table, counted from 0.
pub fn line_at(relations: &[u64], index: usize) -> u64
    requires { index < length relations.now }
    ensures { result ≡ slice_index relations.now index }
{
    relations[index]
}
