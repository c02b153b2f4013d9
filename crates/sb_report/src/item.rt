//! The layers that a walk crosses.

ghost use Rattle.std.specs.Prelude.{◌≡◌, IfOk};
ghost use Rattle.serde_json.specs.View.{view};
ghost use Rattle.sb_report.specs.Entries.{item_data, items_data};

use crate::strings::{written_fraction, written_material};
use sb_model::{Item, Items, Model};
use serde_json::{Value, json};
use std::alloc::{AllocError, Global};

/// A crossed layer.
#[tactic(auto, unfolding(crate::specs::Entries::item_data))]
fn item_value(alloc: Global, model: &Model, item: &Item) -> Result<Value, AllocError>
    ensures { IfOk result (λ v. view v ≡ item_data model.now item.now) }
{
    let material = written_material(alloc, model.material(item.element, item.layer))?;
    let thickness = written_fraction(alloc, &item.thickness)?;
    json!(in alloc; {
        "element": item.element,
        "layer": item.layer,
        "material": material,
        "thickness": thickness
    })
}

/// The crossed layers, in the ray's order.
pub fn items_value(alloc: Global, model: &Model, items: &Items) -> Result<Value, AllocError>
    ensures { IfOk result (λ v. view v ≡ items_data model.now items.now) }
{
    let mut values = Vec::new(alloc);
    for item in items.as_slice() {
        serde_json::push(&mut values, item_value(alloc, model, item)?)?;
    }
    Ok(Value::Array(values))
}
