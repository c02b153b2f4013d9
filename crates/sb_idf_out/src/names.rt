//! The names of materials by number.

ghost use Rattle.std.specs.Prelude.{◌≡◌, ℕ, List, [], IfOk};
ghost use Rattle.sb_model.specs.Building.{Building, material_of};
ghost use Rattle.sb_idf_out.specs.FirstUse.{with_new, number_in};
ghost use Rattle.sb_idf_out.specs.Materials.{is_same_name};
ghost use Rattle.sb_idf_out.specs.Steps.Names.{AreNames, NamesAre, layer_cmp};
ghost use Rattle.std.specs.BTreeMap.{get};

use crate::table::{add, next_number, number_of};
use sb_model::Model;
use std::alloc::{AllocError, Global};
use std::collections::BTreeMap;

/// The names so far with their numbers, and those of the layers whose names have been looked at: a long
/// name is looked at once for each layer.
#[derive(Drop)]
pub(crate) struct Names<'a> {
    pub numbers: BTreeMap<&'a [u8], u64>,
    pub layers: BTreeMap<(u32, u32), u64>,
}

/// No names.
pub(crate) fn no_names<'a>(alloc: Global) -> Names<'a>
    ensures { (m : Building) → AreNames m [] result }
{
    Names {
        numbers: BTreeMap::new(alloc),
        layers: BTreeMap::new(alloc),
    }
}

/// The number of the name of a layer's material.
pub(crate) fn number_of_layer<'a>(
    names: &mut Names<'a>,
    model: &'a Model,
    element: u32,
    layer: u32,
) -> Result<u64, AllocError>
    ensures { IfOk result (λ n. (ns : List (List ℕ)) → AreNames model.now ns names.old
        → AreNames model.now (with_new is_same_name ns (material_of model.now element layer)) names.new
        × (n ≡ number_in is_same_name ns (material_of model.now element layer))) }
{
    match known_number(&names.layers, element, layer) {
        Some(number) => Ok(number),
        None => {
            let number = number_of_name(&mut names.numbers, model.material(element, layer))?;
            names.layers.insert((element, layer), number)?;
            Ok(number)
        }
    }
}

/// The number of a name, which gets the next where it has none.
fn number_of_name<'a>(
    numbers: &mut BTreeMap<&'a [u8], u64>,
    name: &'a [u8],
) -> Result<u64, AllocError>
    ensures { IfOk result (λ n. (ns : List (List ℕ)) → NamesAre ns numbers.old
        → NamesAre (with_new is_same_name ns name.now) numbers.new
        × (n ≡ number_in is_same_name ns name.now)) }
{
    match number_of(numbers, &name) {
        Some(number) => Ok(number),
        None => {
            let number = next_number(numbers)?;
            add(numbers, name, number)?;
            Ok(number)
        }
    }
}

/// The number of the name of a layer that has been looked at.
fn known_number(layers: &BTreeMap<(u32, u32), u64>, element: u32, layer: u32) -> Option<u64>
    ensures { result ≡ get layer_cmp layers.now (element, layer) }
{
    layers.get(&(element, layer)).copied()
}
