//! The entry of a boundary.

ghost use Rattle.std.specs.Prelude.{◌≡◌, ◌||◌, IfOk, OnOk, Some, IsTrue, codes};
ghost use Rattle.serde_json.specs.Data.{string, put as with};
ghost use Rattle.serde_json.specs.View.{view, members_view};
ghost use Rattle.sb_model.specs.Surfaces.Corners.{corners_of};
ghost use Rattle.sb_model.specs.Surfaces.Faces.{is_face_of};
ghost use Rattle.sb_report.specs.Strings.{face_name, end_name};
ghost use Rattle.sb_model.specs.Building.{is_level_axis, is_upright_axis};
ghost use Rattle.sb_model.specs.Labels.{axis_vector};
ghost use Rattle.sb_report.specs.Entries.{count, signed, count_or_null, target, items_data};
ghost use Rattle.sb_report.specs.Entries.{corners_data, normal_data, unit_data, boundary_data};

use crate::corner::corners_value;
use crate::item::items_value;
use crate::strings::{name_of_end, name_of_face};
use crate::unit::unit_of;
use sb_model::{Axis, Boundary, Corners, End, Face, Model, Walk, corners, facing_of};
use serde_json::{Map, Value, json, put};
use std::alloc::{AllocError, Global};

/// The id of a boundary, or null.
fn id_or_null(id: Option<u64>) -> Value
    ensures { view result ≡ count_or_null id }
{
    match id {
        Some(id) => Value::from(id),
        None => Value::Null,
    }
}

/// The number of a product, or null.
fn product_or_null(product: Option<u32>) -> Value
    ensures { view result ≡ count_or_null product }
{
    id_or_null(product.map(u64::from))
}

/// The number of the space or element at an end.
fn target_of(end: End) -> Option<u32>
    ensures { result ≡ target end }
{
    match end {
        End::Space(number) | End::Solid(number) => Some(number),
        End::Outside | End::Earth => None,
    }
}

/// Adds what a walk crosses and meets.
fn put_walk(
    entry: &mut Map<String, Value>,
    alloc: Global,
    model: &Model,
    walk: &Walk,
) -> Result<(), AllocError>
    ensures { OnOk result (members_view entry.new.entries
        ≡ with (codes "target") (count_or_null (target walk.now.end))
        (with (codes "items") (items_data model.now walk.now.items)
        (with (codes "end") (string (end_name walk.now.end))
        (with (codes "depth") (signed walk.now.depth) (members_view entry.old.entries))))) }
{
    put(entry, alloc, "depth", Value::from(walk.depth))?;
    let end = Value::try_from_str(alloc, name_of_end(walk.end))?;
    put(entry, alloc, "end", end)?;
    let items = items_value(alloc, model, &walk.items)?;
    put(entry, alloc, "items", items)?;
    put(entry, alloc, "target", product_or_null(target_of(walk.end)))
}

/// Adds the key, the counterpart and the parent of a boundary.
fn put_ties(
    entry: &mut Map<String, Value>,
    alloc: Global,
    boundary: &Boundary,
) -> Result<(), AllocError>
    ensures { OnOk result (members_view entry.new.entries
        ≡ with (codes "parent") (count_or_null boundary.now.parent)
        (with (codes "pair") (count_or_null boundary.now.pair)
        (with (codes "key") (count_or_null boundary.now.key) (members_view entry.old.entries)))) }
{
    put(entry, alloc, "key", product_or_null(boundary.key))?;
    put(entry, alloc, "pair", id_or_null(boundary.pair))?;
    put(entry, alloc, "parent", id_or_null(boundary.parent))
}

/// The three coordinates of a normal.
fn normal_value(alloc: Global, normal: Axis) -> Result<Value, AllocError>
    ensures { IfOk result (λ v. view v ≡ normal_data (Some (axis_vector normal))) }
{
    json!(in alloc; [normal.x, normal.y, normal.z])
}

/// Adds the face, its corners, its outward normal and the unit of the normal.
fn put_face(
    entry: &mut Map<String, Value>,
    alloc: Global,
    face: Face,
    corners: &Corners,
    normal: Axis,
) -> Result<(), AllocError>
    requires { IsTrue (is_level_axis normal || is_upright_axis normal) }
    ensures { OnOk result (members_view entry.new.entries
        ≡ with (codes "unit") (unit_data (Some (axis_vector normal)))
        (with (codes "space") (count face.space)
        (with (codes "normal") (normal_data (Some (axis_vector normal)))
        (with (codes "face") (string (face_name face.kind))
        (with (codes "corners") (corners_data (Some corners.now))
        (members_view entry.old.entries)))))) }
{
    put(entry, alloc, "corners", corners_value(alloc, corners)?)?;
    let name = Value::try_from_str(alloc, name_of_face(face.kind))?;
    put(entry, alloc, "face", name)?;
    put(entry, alloc, "normal", normal_value(alloc, normal)?)?;
    put(entry, alloc, "space", Value::from(face.space))?;
    put(entry, alloc, "unit", Value::from(unit_of(normal)))
}

/// A boundary, whose id is this number.
#[tactic(auto, unfolding(crate::specs::Entries::boundary_data))]
pub fn boundary_value(
    alloc: Global,
    model: &Model,
    id: u64,
    boundary: &Boundary,
) -> Result<Value, AllocError>
    requires face { IsTrue (is_face_of model.now boundary.now.patch.face) }
    ensures { IfOk result (λ v. view v ≡ boundary_data model.now id boundary.now) }
{
    let face = boundary.patch.face;
    let corners = corners(model, &boundary.patch);
    let mut entry = Map::new(alloc);
    put(&mut entry, alloc, "id", Value::from(id))?;
    put_face(
        &mut entry,
        alloc,
        face,
        &corners,
        facing_of(model, face).normal,
    )?;
    put_walk(&mut entry, alloc, model, &boundary.walk)?;
    put_ties(&mut entry, alloc, boundary)?;
    Ok(Value::Object(entry))
}
