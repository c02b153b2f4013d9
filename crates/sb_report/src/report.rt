//! The report.

ghost use Rattle.std.specs.Prelude.{◌≡◌, ◌<◌, ◌+◌, IfOk, Some, IsTrue, length, slice_get};
ghost use Rattle.std.specs.Prelude.{option_map};
ghost use Rattle.serde_json.specs.View.{view, items_of};
ghost use Rattle.serde_json.specs.Data.{array};
ghost use Rattle.sb_model.specs.ListOfModel.{is_list_of};
ghost use Rattle.sb_report.specs.Entries.{boundary_data};
ghost use Rattle.sb_report.specs.Report.{entries_from, space_numbers, report_data, report_of};

use crate::entry::boundary_value;
use sb_model::{Boundaries, Model, Spaces};
use serde_json::{Map, Value, put};
use std::alloc::{AllocError, Global};

/// The report of a list of boundaries and its model, in UTF-8.
///
/// Each boundary names faces, spaces, elements and keys of the model, and its pair and its parent
/// are ids of the list. The one error is want of memory. The form of the text is this project's
/// own.
#[tactic(auto, using(crate::proofs::NoFloats::report_has_no_float), unfolding(crate::specs::Report::report_of))]
pub fn report_text(alloc: Global, model: &Model, bounds: &Boundaries) -> Result<Vec<u8>, AllocError>
    requires of_model { IsTrue (is_list_of model.now bounds.now) }
    ensures { IfOk result (λ text. text.items ≡ report_of model.now bounds.now) }
{
    let mut text = report_value(alloc, model, bounds)?.to_string(alloc)?;
    text.push('\n')?;
    Ok(text.into_bytes())
}

/// The whole report.
#[tactic(auto, unfolding(crate::specs::Report::report_data))]
fn report_value(alloc: Global, model: &Model, bounds: &Boundaries) -> Result<Value, AllocError>
    requires of_model { IsTrue (is_list_of model.now bounds.now) }
    ensures { IfOk result (λ v. view v ≡ report_data model.now bounds.now) }
{
    let entries = entries_value(alloc, model, bounds)?;
    let format = Value::try_from_str(alloc, "sbgen-1")?;
    let spaces = spaces_value(alloc, model.spaces())?;
    let mut whole = Map::new(alloc);
    put(&mut whole, alloc, "boundaries", entries)?;
    put(&mut whole, alloc, "format", format)?;
    put(&mut whole, alloc, "ground", Value::from(model.ground()))?;
    put(&mut whole, alloc, "reach", Value::from(model.reach()))?;
    put(&mut whole, alloc, "spaces", spaces)?;
    Ok(Value::Object(whole))
}

/// The entries of all boundaries, in order of their ids.
fn entries_value(alloc: Global, model: &Model, bounds: &Boundaries) -> Result<Value, AllocError>
    requires of_model { IsTrue (is_list_of model.now bounds.now) }
    ensures { IfOk result (λ v. view v ≡ array (items_of (entries_from model.now 1 bounds.now))) }
{
    let mut values = Vec::new(alloc);
    for index in 0..bounds.len() {
        let entry = entry_at(alloc, model, bounds, index)?;
        serde_json::push(&mut values, entry)?;
    }
    Ok(Value::Array(values))
}

/// The entry of the boundary at a place of the list, counted from 0. Its id is one more.
fn entry_at(
    alloc: Global,
    model: &Model,
    bounds: &Boundaries,
    index: usize,
) -> Result<Value, AllocError>
    requires within { index < length bounds.now }
    requires fits { index < usize.MAX }
    requires of_model { IsTrue (is_list_of model.now bounds.now) }
    ensures { IfOk result (λ v. Some (view v)
        ≡ option_map (boundary_data model.now (index + 1)) (slice_get bounds.now index)) }
{
    let id = index as u64 + 1;
    let boundary = bounds.get(id).unwrap();
    boundary_value(alloc, model, id, boundary)
}

/// The numbers of the spaces, in order.
fn spaces_value(alloc: Global, spaces: &Spaces) -> Result<Value, AllocError>
    ensures { IfOk result (λ v. view v ≡ space_numbers spaces.now) }
{
    let mut values = Vec::new(alloc);
    for space in spaces.as_slice() {
        serde_json::push(&mut values, Value::from(space.number))?;
    }
    Ok(Value::Array(values))
}
