//! The lines of one boundary.

ghost use Rattle.std.specs.Prelude.{◌≡◌, ◌<◌, ◌+◌, ◌^◌, ◌++◌, ℕ, List, OnOk, IsTrue, Some};
ghost use Rattle.sha1.specs.Sha1.{Holds};
ghost use Rattle.sb_model.specs.Building.{is_shift};
ghost use Rattle.sb_model.specs.Surfaces.Corners.{corners_of};
ghost use Rattle.sb_model.specs.Surfaces.Faces.{is_face_of, space_numbered};
ghost use Rattle.sb_ifc_out.specs.Numbers.{element_of, virtual_lines, line_count};
ghost use Rattle.sb_ifc_out.specs.BoundaryLines.{virtual_text, element_number, related_text, told_of};
ghost use Rattle.sb_ifc_out.specs.Lines.{line, relation_body};
ghost use Rattle.sb_ifc_out.specs.IfcText.{lines_in};
ghost use Rattle.sb_ifc_out.specs.Steps.{beginning, drawn_text};

use crate::in_space::direction_in;
use crate::lines::append_virtual;
use crate::names::{relation_identifier, virtual_identifier};
use crate::numbers::{count_of, element_of, virtual_lines};
use crate::relation::{
    Relation, append_relation, is_opening_key, outside_name, physical_name, type_name,
};
use crate::surface::{append_corners, append_surface};
use sb_list::Text;
use sb_model::{Boundary, Corners, Facing, Model, Space, facing_of};
use sha1::Sha1;
use std::alloc::{AllocError, Global};

/// A boundary with the numbers of its lines.
#[derive(Clone, Copy)]
pub struct Entry<'a> {
    pub boundary: &'a Boundary,
    pub corners: &'a Corners,
    pub id: u64,
    /// The line before its first.
    pub before: u64,
    /// The line of the parent's relation.
    pub parent: Option<u64>,
    /// The line of the counterpart's relation.
    pub pair: Option<u64>,
}

/// Appends the lines of a boundary of this space, whose names have begun.
pub fn append_boundary(
    text: &mut Text,
    alloc: Global,
    model: &Model,
    space: &Space,
    begun: &Sha1,
    entry: &Entry,
) -> Result<(), AllocError>
    requires face { IsTrue (is_face_of model.now entry.now.boundary.now.patch.face) }
    requires space_is { space_numbered model.now entry.now.boundary.now.patch.face.space ≡ Some space.now }
    requires shift { IsTrue (is_shift space.now.frame.shift) }
    requires corners { Some entry.now.corners.now ≡ corners_of model.now entry.now.boundary.now.patch }
    requires names { Holds begun.now (beginning space.now.global_id) }
    requires fits { entry.now.before + line_count model.now entry.now.boundary.now < 2 ^ 64 }
    ensures { OnOk result (text.new ≡ text.old
        ++ lines_in model.now (Some space.now) entry.now.parent entry.now.pair entry.now.before entry.now.id entry.now.boundary.now) }
{
    let facing = facing_of(model, entry.boundary.patch.face);
    let first = entry.before + 1;
    let behind = first + count_of(entry.corners);
    append_drawn(
        text,
        alloc,
        model,
        space,
        first,
        entry.corners,
        facing,
        behind,
    )?;
    append_related(text, model, begun, entry, behind + 7)
}

/// Appends the corners and the surface of a boundary.
fn append_drawn(
    text: &mut Text,
    alloc: Global,
    model: &Model,
    space: &Space,
    first: u64,
    corners: &Corners,
    facing: Facing,
    behind: u64,
) -> Result<(), AllocError>
    requires shift { IsTrue (is_shift space.now.frame.shift) }
    requires first_fits { first + 4 < 2 ^ 64 }
    requires fits { behind + 7 < 2 ^ 64 }
    ensures { OnOk result (text.new ≡ text.old
        ++ drawn_text model.now.unit space.now.frame first corners.now facing behind) }
{
    append_corners(text, alloc, model.unit(), &space.frame, first, corners)?;
    let normal = direction_in(space.frame.turn, facing.normal);
    let across = direction_in(space.frame.turn, facing.across);
    append_surface(text, first, corners, behind, normal, across)
}

/// Appends what stands behind the connection on this line: a virtual element where it is needed,
/// and the relation.
fn append_related(
    text: &mut Text,
    model: &Model,
    begun: &Sha1,
    entry: &Entry,
    connection: u64,
) -> Result<(), AllocError>
    requires { connection + virtual_lines (element_of entry.now.boundary.now) + 1 < 2 ^ 64 }
    ensures { (global_id : List ℕ) → Holds begun.now (beginning global_id)
        → OnOk result (text.new ≡ text.old
        ++ related_text model.now global_id entry.now.id entry.now.parent entry.now.pair entry.now.boundary.now connection) }
{
    let element = element_of(entry.boundary);
    append_stand_in(text, begun, entry.id, connection + 1, element)?;
    append_tie(text, model, begun, entry, connection, element)
}

/// Appends the virtual element that stands in for an element, where there is none.
fn append_stand_in(
    text: &mut Text,
    begun: &Sha1,
    id: u64,
    n: u64,
    element: Option<u32>,
) -> Result<(), AllocError>
    ensures { (global_id : List ℕ) → Holds begun.now (beginning global_id)
        → OnOk result (text.new ≡ text.old ++ virtual_text global_id id n element) }
{
    match element {
        Some(_) => Ok(()),
        None => append_virtual(text, n, &virtual_identifier(begun, id)?),
    }
}

/// The number of the element's instance: that of the element, or of the line that stands for it.
fn element_number(line: u64, element: Option<u32>) -> u64
    ensures { result ≡ element_number line element }
{
    match element {
        Some(number) => u64::from(number),
        None => line,
    }
}

/// Appends the relation of a boundary whose connection stands on this line.
fn append_tie(
    text: &mut Text,
    model: &Model,
    begun: &Sha1,
    entry: &Entry,
    connection: u64,
    element: Option<u32>,
) -> Result<(), AllocError>
    requires element_is { element ≡ element_of entry.now.boundary.now }
    requires fits { connection + virtual_lines (element_of entry.now.boundary.now) + 1 < 2 ^ 64 }
    ensures { (global_id : List ℕ) → Holds begun.now (beginning global_id)
        → OnOk result (text.new ≡ text.old
        ++ line (connection + virtual_lines (element_of entry.now.boundary.now) + 1)
        (relation_body (told_of model.now global_id entry.now.id entry.now.parent entry.now.pair entry.now.boundary.now connection))) }
{
    let boundary = entry.boundary;
    let identifier = relation_identifier(begun, entry.id)?;
    let is_open = is_opening_key(model, boundary.key);
    append_relation(
        text,
        connection + virtual_lines(element) + 1,
        &Relation {
            identifier: &identifier,
            type_name: type_name(boundary.walk.end),
            space: u64::from(boundary.patch.face.space),
            element: element_number(connection + 1, element),
            connection,
            physical: physical_name(is_open, element),
            outside: outside_name(boundary.walk.end),
            parent: entry.parent,
            pair: entry.pair,
        },
    )
}
