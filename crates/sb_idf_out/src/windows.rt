//! The objects of children: windows and doors.

ghost use Rattle.std.specs.Prelude.{◌≡◌, ◌++◌, Option, OnOk, IsTrue, option_and_then, option_map};
ghost use Rattle.sb_model.specs.Building.{filling_numbered};
ghost use Rattle.sb_model.specs.Surfaces.Corners.{corners_of};
ghost use Rattle.sb_model.specs.Surfaces.Faces.{is_face_of};
ghost use Rattle.sb_idf_out.specs.Fields.{kind_name as name_of, kind_construction as construction_of};
ghost use Rattle.sb_idf_out.specs.Objects.{child_object, filling_object};
ghost use Rattle.sb_idf_out.specs.Steps.Surfaces.{filling_start, filling_rest};

use crate::corner_fields::corner_fields;
use crate::surfaces::append_name_where;
use sb_list::Text;
use sb_model::{Boundary, FillKind, Model, corners};
use sb_texts::{Piece, append_all};
use std::alloc::{AllocError, Global};

/// Appends the object of a child with this id and parent; nothing where its key is an opening.
pub(crate) fn append_child(
    alloc: Global,
    text: &mut Text,
    model: &Model,
    id: u64,
    parent: u64,
    boundary: &Boundary,
) -> Result<(), AllocError>
    requires face { IsTrue (is_face_of model.now boundary.now.patch.face) }
    ensures { OnOk result (text.new
        ≡ text.old ++ child_object id parent boundary.now.pair
        (option_and_then (filling_numbered model.now) boundary.now.key)
        (corners_of model.now boundary.now.patch)) }
{
    match filling_kind(model, boundary.key) {
        Some(kind) => append_filling(alloc, text, model, id, parent, kind, boundary),
        None => Ok(()),
    }
}

/// The kind of the filling that a key names.
fn filling_kind(model: &Model, key: Option<u32>) -> Option<FillKind>
    ensures { result ≡ option_map (λ f. f.kind) (option_and_then (filling_numbered model.now) key) }
{
    match key {
        Some(number) => match model.filling(number) {
            Some(filling) => Some(filling.kind),
            None => None,
        },
        None => None,
    }
}

/// Appends the object of a filling.
#[tactic(auto, unfolding(crate::specs::Objects::filling_object))]
fn append_filling(
    alloc: Global,
    text: &mut Text,
    model: &Model,
    id: u64,
    parent: u64,
    kind: FillKind,
    boundary: &Boundary,
) -> Result<(), AllocError>
    requires face { IsTrue (is_face_of model.now boundary.now.patch.face) }
    ensures { OnOk result (text.new
        ≡ text.old ++ filling_object id parent boundary.now.pair kind
        (corners_of model.now boundary.now.patch)) }
{
    let corners = corner_fields(alloc, &corners(model, &boundary.patch))?;
    append_start(text, id, parent, kind)?;
    append_name_where(text, boundary.pair)?;
    append_rest(text, corners.as_slice())
}

/// Appends the fields up to the parent.
fn append_start(text: &mut Text, id: u64, parent: u64, kind: FillKind) -> Result<(), AllocError>
    ensures { OnOk result (text.new ≡ text.old ++ filling_start id parent kind) }
{
    append_all(
        text,
        &[
            Piece::Bytes(b"FenestrationSurface:Detailed,B_"),
            Piece::Number(id),
            Piece::Bytes(b","),
            Piece::Bytes(kind_name(kind)),
            Piece::Bytes(b","),
            Piece::Bytes(kind_construction(kind)),
            Piece::Bytes(b",B_"),
            Piece::Number(parent),
            Piece::Bytes(b","),
        ],
    )
}

/// Appends the fields behind the counterpart.
fn append_rest(text: &mut Text, corners: &[u8]) -> Result<(), AllocError>
    ensures { OnOk result (text.new ≡ text.old ++ filling_rest corners.now) }
{
    append_all(
        text,
        &[
            Piece::Bytes(b",autocalculate,,1"),
            Piece::Bytes(corners),
            Piece::Bytes(b";\n"),
        ],
    )
}

/// What a filling is.
fn kind_name(kind: FillKind) -> &'static [u8]
    ensures { result.now ≡ name_of kind }
{
    match kind {
        FillKind::Window => b"Window",
        FillKind::Door => b"Door",
    }
}

/// The construction of a filling.
fn kind_construction(kind: FillKind) -> &'static [u8]
    ensures { result.now ≡ construction_of kind }
{
    match kind {
        FillKind::Window => b"C_WINDOW",
        FillKind::Door => b"C_DOOR",
    }
}
