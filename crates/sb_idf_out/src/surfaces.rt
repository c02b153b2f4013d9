//! The objects of top-level boundaries.

ghost use Rattle.std.specs.Prelude.{◌≡◌, ◌++◌, codes, IfOk, OnOk, IsTrue};
ghost use Rattle.sb_model.specs.Surfaces.Corners.{corners_of};
ghost use Rattle.sb_model.specs.Surfaces.Faces.{is_face_of};
ghost use Rattle.sb_idf_out.specs.Fields.{surface_type as type_of, top_type as top_type_of, condition as condition_of};
ghost use Rattle.sb_idf_out.specs.Fields.{condition_object, name_where, sun as sun_at, wind as wind_at};
ghost use Rattle.sb_idf_out.specs.Objects.{surface_object};
ghost use Rattle.sb_idf_out.specs.Steps.Surfaces.{surface_start, surface_rest};

use crate::corner_fields::corner_fields;
use sb_list::Text;
use sb_model::{Boundary, End, FaceKind, Model, corners};
use sb_texts::{Piece, append_all};
use std::alloc::{AllocError, Global};

/// Appends the object of a top-level boundary with this construction and id.
#[tactic(auto, unfolding(crate::specs::Objects::surface_object))]
pub(crate) fn append_surface(
    alloc: Global,
    text: &mut Text,
    model: &Model,
    construction: u64,
    id: u64,
    boundary: &Boundary,
) -> Result<(), AllocError>
    requires face { IsTrue (is_face_of model.now boundary.now.patch.face) }
    ensures { OnOk result (text.new
        ≡ text.old ++ surface_object construction id boundary.now (corners_of model.now boundary.now.patch)) }
{
    let corners = corner_fields(alloc, &corners(model, &boundary.patch))?;
    let face = boundary.patch.face;
    append_start(
        text,
        construction,
        id,
        face.space as u64,
        face.kind,
        boundary.walk.end,
    )?;
    append_condition_object(text, boundary.walk.end, boundary.pair)?;
    append_rest(text, boundary.walk.end, corners.as_slice())
}

/// Appends the fields up to what lies behind.
fn append_start(
    text: &mut Text,
    construction: u64,
    id: u64,
    space: u64,
    kind: FaceKind,
    end: End,
) -> Result<(), AllocError>
    ensures { OnOk result (text.new ≡ text.old ++ surface_start construction id space kind end) }
{
    append_all(
        text,
        &[
            Piece::Bytes(b"BuildingSurface:Detailed,B_"),
            Piece::Number(id),
            Piece::Bytes(b","),
            Piece::Bytes(surface_type(kind, end)),
            Piece::Bytes(b",C_"),
            Piece::Number(construction),
            Piece::Bytes(b",SPACE_"),
            Piece::Number(space),
            Piece::Bytes(b","),
            Piece::Bytes(condition(end)),
            Piece::Bytes(b","),
        ],
    )
}

/// Appends the fields behind the counterpart.
fn append_rest(text: &mut Text, end: End, corners: &[u8]) -> Result<(), AllocError>
    ensures { OnOk result (text.new ≡ text.old ++ surface_rest end corners.now) }
{
    append_all(
        text,
        &[
            Piece::Bytes(b","),
            Piece::Bytes(sun(end)),
            Piece::Bytes(b","),
            Piece::Bytes(wind(end)),
            Piece::Bytes(b",autocalculate"),
            Piece::Bytes(corners),
            Piece::Bytes(b";\n"),
        ],
    )
}

/// Appends the name of the counterpart of a boundary that ends at a space.
fn append_condition_object(text: &mut Text, end: End, pair: Option<u64>) -> Result<(), AllocError>
    ensures { OnOk result (text.new ≡ text.old ++ condition_object end pair) }
{
    match end {
        End::Space(_) => append_name_where(text, pair),
        End::Outside | End::Earth | End::Solid(_) => Ok(()),
    }
}

/// Appends the name of a boundary, where there is one.
pub(crate) fn append_name_where(text: &mut Text, id: Option<u64>) -> Result<(), AllocError>
    ensures { OnOk result (text.new ≡ text.old ++ name_where id) }
{
    match id {
        Some(id) => append_all(text, &[Piece::Bytes(b"B_"), Piece::Number(id)]),
        None => Ok(()),
    }
}

/// The type of a surface.
fn surface_type(kind: FaceKind, end: End) -> &'static [u8]
    ensures { result.now ≡ type_of kind end }
{
    match kind {
        FaceKind::Bottom => b"Floor",
        FaceKind::Side(_) => b"Wall",
        FaceKind::Top => top_type(end),
    }
}

/// The type of a top.
fn top_type(end: End) -> &'static [u8]
    ensures { result.now ≡ top_type_of end }
{
    match end {
        End::Outside | End::Earth => b"Roof",
        End::Space(_) | End::Solid(_) => b"Ceiling",
    }
}

/// What lies behind.
fn condition(end: End) -> &'static [u8]
    ensures { result.now ≡ condition_of end }
{
    match end {
        End::Space(_) => b"Surface",
        End::Outside => b"Outdoors",
        End::Earth => b"Ground",
        End::Solid(_) => b"Adiabatic",
    }
}

/// Whether a surface is exposed to the sun.
fn sun(end: End) -> &'static [u8]
    ensures { result.now ≡ sun_at end }
{
    match end {
        End::Outside => b"SunExposed",
        End::Space(_) | End::Earth | End::Solid(_) => b"NoSun",
    }
}

/// Whether it is exposed to the wind.
fn wind(end: End) -> &'static [u8]
    ensures { result.now ≡ wind_at end }
{
    match end {
        End::Outside => b"WindExposed",
        End::Space(_) | End::Earth | End::Solid(_) => b"NoWind",
    }
}
