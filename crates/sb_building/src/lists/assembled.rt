// The model of its parts.
ghost use Rattle.std.specs.Prelude.{IfOk, IsTrue};
ghost use Rattle.sb_step.specs.Indexed.{Indexed};
ghost use Rattle.sb_model.specs.Building.{is_in_range};
ghost use Rattle.sb_profile.specs.Contents.{Contents};
ghost use Rattle.sb_building.specs.Models.{IsModelBy};
ghost use Rattle.sb_building.specs.Steps.Parts as spec;

use sb_fraction::Unit;
use sb_model::{Elements, Fillings, Model, Openings, Spaces};
use std::alloc::{AllocError, Global};

/// The products of a model, each kind by rising numbers.
#[derive(Drop)]
pub(crate) struct Parts {
    pub unit: Unit,
    pub spaces: Spaces,
    pub elements: Elements,
    pub openings: Openings,
    pub fillings: Fillings,
}

/// The model of these products.
pub(crate) fn assembled(
    alloc: Global,
    parts: Parts,
    ground_height: i32,
    reach: u32,
) -> Result<Model, AllocError>
    requires { IsTrue (is_in_range (spec.model_with parts ground_height reach)) }
    ensures { IfOk result (λ m. (i : Indexed) (c : Contents) → spec.AreParts i c parts
        → IsModelBy i c ground_height reach m) }
{
    let Parts {
        unit,
        spaces,
        elements,
        openings,
        fillings,
    } = parts;
    match Model::new(
        alloc,
        unit,
        ground_height,
        reach,
        spaces,
        elements,
        openings,
        fillings,
    ) {
        Ok(model) => Ok(model),
        Err(_) => Err(AllocError),
    }
}
