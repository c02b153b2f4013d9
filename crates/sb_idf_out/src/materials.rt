//! Materials by number, with their objects.

ghost use Rattle.std.specs.Prelude.{◌≡◌, ◌++◌, ℕ, List, [], IfOk, OnOk};
ghost use Rattle.sb_model.specs.Building.{Building};
ghost use Rattle.sb_idf_out.specs.FirstUse.{with_new, number_in};
ghost use Rattle.sb_idf_out.specs.Materials.{Material, is_same_material, of_item};
ghost use Rattle.sb_idf_out.specs.Objects.{material_object};
ghost use Rattle.sb_idf_out.specs.Fields.{metres};
ghost use Rattle.sb_idf_out.specs.Steps.Uses.{AreMaterials};

use crate::names::{Names, no_names, number_of_layer};
use crate::table::{add, next_number, number_of};
use sb_fixed::{print_scaled, round_whole};
use sb_list::Text;
use sb_model::{Item, Model};
use sb_texts::{Piece, append_all};
use std::alloc::{AllocError, Global};
use std::collections::BTreeMap;

/// The materials so far: each is the number of a name with a thickness in micrometres (µm).
#[derive(Drop)]
pub(crate) struct Materials<'a> {
    pub names: Names<'a>,
    pub numbers: BTreeMap<(u64, i128), u64>,
    /// Their objects, in order.
    pub objects: Text,
}

/// No materials.
pub(crate) fn no_materials<'a>(alloc: Global) -> Materials<'a>
    ensures { (m : Building) → AreMaterials m [] result }
{
    Materials {
        names: no_names(alloc),
        numbers: BTreeMap::new(alloc),
        objects: Text::new(alloc),
    }
}

/// The number of an item's material, which gets the next, and its object, where it has none.
pub(crate) fn number_of_item<'a>(
    alloc: Global,
    materials: &mut Materials<'a>,
    model: &'a Model,
    item: &Item,
) -> Result<u64, AllocError>
    ensures { IfOk result (λ n. (ms : List Material) → AreMaterials model.now ms materials.old
        → AreMaterials model.now (with_new is_same_material ms (of_item model.now item.now)) materials.new
        × (n ≡ number_in is_same_material ms (of_item model.now item.now))) }
{
    let name = number_of_layer(&mut materials.names, model, item.element, item.layer)?;
    let thickness = round_whole(&item.thickness);
    match number_of(&materials.numbers, &(name, thickness)) {
        Some(number) => Ok(number),
        None => {
            let number = next_number(&materials.numbers)?;
            append_material(alloc, &mut materials.objects, number, thickness)?;
            add(&mut materials.numbers, (name, thickness), number)?;
            Ok(number)
        }
    }
}

/// Appends the object of a material of this thickness.
#[tactic(auto, unfolding(crate::specs::Objects::material_object))]
fn append_material(
    alloc: Global,
    text: &mut Text,
    number: u64,
    thickness: i128,
) -> Result<(), AllocError>
    ensures { OnOk result (text.new ≡ text.old ++ material_object number thickness) }
{
    let metres = metres_of(alloc, thickness)?;
    append_all(
        text,
        &[
            Piece::Bytes(b"Material,M_"),
            Piece::Number(number),
            Piece::Bytes(b",MediumRough,"),
            Piece::Bytes(metres.as_slice()),
            Piece::Bytes(b",1.000000,1000.000000,1000.000000;\n"),
        ],
    )
}

/// Whole micrometres (µm) in metres.
fn metres_of(alloc: Global, micrometres: i128) -> Result<Vec<u8>, AllocError>
    ensures { IfOk result (λ text. text.items ≡ metres micrometres) }
{
    let mut text = Vec::new(alloc);
    print_scaled(&mut text, micrometres, 6)?;
    Ok(text)
}
