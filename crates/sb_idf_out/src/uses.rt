//! Constructions by number, with their objects, and the boundaries that use them.

ghost use Rattle.std.specs.Prelude.{◌≡◌, ◌++◌, ℕ, List, [], IfOk, OnOk, map, codes, decimal};
ghost use Rattle.sb_model.specs.Building.{Building};
ghost use Rattle.sb_idf_out.specs.FirstUse.{with_new, with_all, number_in};
ghost use Rattle.sb_idf_out.specs.Materials.{Material, is_same_material, of_item};
ghost use Rattle.sb_idf_out.specs.Constructions.{construction_number, is_same_construction};
ghost use Rattle.sb_idf_out.specs.Constructions.{has_construction as needs_construction};
ghost use Rattle.std.specs.List.{flat_map};
ghost use Rattle.sb_idf_out.specs.Objects.{construction_object};
ghost use Rattle.sb_idf_out.specs.Steps.Uses.{AreMaterials, AreUses, ConstructionsAre};
ghost use Rattle.sb_idf_out.specs.Steps.Tables.{used_numbers};
ghost use Rattle.sb_idf_out.specs.Steps.Uses.{with_materials, with_construction};
ghost use Rattle.sb_idf_out.specs.Steps.Uses.{materials_after, constructions_after, numbers_used};

use crate::materials::{Materials, no_materials, number_of_item};
use crate::table::{add, next_number, number_of};
use sb_list::Text;
use sb_model::{Boundaries, Boundary, Items, Model};
use sb_texts::{Piece, append, append_all};
use std::alloc::{AllocError, Global};
use std::collections::BTreeMap;

/// The materials and constructions so far. A construction is the list of its materials' numbers, from
/// outside to inside.
#[derive(Drop)]
pub(crate) struct Uses<'a> {
    pub materials: Materials<'a>,
    pub constructions: BTreeMap<Vec<u64>, u64>,
    /// Their objects, in order.
    pub objects: Text,
}

/// The materials and constructions of a list, and the number of the construction of each boundary.
#[derive(Drop)]
pub(crate) struct Surveyed<'a> {
    pub uses: Uses<'a>,
    pub numbers: Vec<u64>,
}

/// Goes over a list.
pub(crate) fn survey<'a>(
    alloc: Global,
    model: &'a Model,
    bounds: &Boundaries,
) -> Result<Surveyed<'a>, AllocError>
    ensures uses { IfOk result (λ s. AreUses model.now (materials_after model.now [] bounds.now)
        (constructions_after model.now [] [] bounds.now) s.uses) }
    ensures numbers { IfOk result (λ s. s.numbers.items ≡ numbers_used model.now [] [] bounds.now) }
{
    let mut uses = no_uses(alloc);
    let mut numbers = Vec::new(alloc);
    'bounds: for boundary in bounds.as_slice() {
        numbers.push(number_of_boundary(alloc, &mut uses, model, boundary)?)?;
    }
    Ok(Surveyed { uses, numbers })
}

/// No materials and no constructions.
fn no_uses<'a>(alloc: Global) -> Uses<'a>
    ensures { (m : Building) → AreUses m [] [] result }
{
    Uses {
        materials: no_materials(alloc),
        constructions: BTreeMap::new(alloc),
        objects: Text::new(alloc),
    }
}

/// The number of a boundary's construction, 0 where it has none of its own.
fn number_of_boundary<'a>(
    alloc: Global,
    uses: &mut Uses<'a>,
    model: &'a Model,
    boundary: &Boundary,
) -> Result<u64, AllocError>
    ensures { IfOk result (λ n. (ms : List Material) (cs : List (List ℕ)) → AreUses model.now ms cs uses.old
        → AreUses model.now (with_materials model.now ms boundary.now)
        (with_construction model.now (with_materials model.now ms boundary.now) cs boundary.now) uses.new
        × (n ≡ construction_number model.now (with_materials model.now ms boundary.now)
        (with_construction model.now (with_materials model.now ms boundary.now) cs boundary.now)
        boundary.now)) }
{
    if !has_construction(boundary) {
        return Ok(0);
    }
    let mut numbers = numbers_of_items(alloc, &mut uses.materials, model, &boundary.walk.items)?;
    numbers.reverse();
    number_of_construction(&mut uses.constructions, &mut uses.objects, numbers)
}

/// Whether a boundary is of the top level and has items.
fn has_construction(boundary: &Boundary) -> bool
    ensures { result ≡ needs_construction boundary.now }
{
    boundary.parent.is_none() && !boundary.walk.items.is_empty()
}

/// The numbers of the materials of items, in their order.
fn numbers_of_items<'a>(
    alloc: Global,
    materials: &mut Materials<'a>,
    model: &'a Model,
    items: &Items,
) -> Result<Vec<u64>, AllocError>
    ensures materials { OnOk result ((ms : List Material) → AreMaterials model.now ms materials.old
        → AreMaterials model.now (with_all is_same_material ms (map (of_item model.now) items.now))
        materials.new) }
    ensures numbers { IfOk result (λ ns. (ms : List Material) → AreMaterials model.now ms materials.old
        → ns.items ≡ used_numbers is_same_material ms (map (of_item model.now) items.now)) }
{
    let mut numbers = Vec::with_capacity(alloc, items.len())?;
    'items: for item in items.as_slice() {
        numbers.push(number_of_item(alloc, materials, model, item)?)?;
    }
    Ok(numbers)
}

/// The number of a construction, which gets the next, and its object, where it has none.
fn number_of_construction(
    constructions: &mut BTreeMap<Vec<u64>, u64>,
    objects: &mut Text,
    numbers: Vec<u64>,
) -> Result<u64, AllocError>
    ensures { IfOk result (λ n. (cs : List (List ℕ)) → ConstructionsAre cs constructions.old (λ k. k.items) objects.old
        → ConstructionsAre (with_new is_same_construction cs numbers.items) constructions.new (λ k. k.items) objects.new
        × (n ≡ number_in is_same_construction cs numbers.items)) }
{
    match number_of(constructions, &numbers) {
        Some(number) => Ok(number),
        None => {
            let number = next_number(constructions)?;
            append_construction(objects, number, numbers.as_slice())?;
            add(constructions, numbers, number)?;
            Ok(number)
        }
    }
}

/// Appends the object of a construction.
fn append_construction(text: &mut Text, number: u64, materials: &[u64]) -> Result<(), AllocError>
    ensures { OnOk result (text.new ≡ text.old ++ construction_object number materials.now) }
{
    append_construction_name(text, number)?;
    append_materials(text, materials)?;
    append(text, b";\n")
}

/// Appends the class and the name of a construction.
fn append_construction_name(text: &mut Text, number: u64) -> Result<(), AllocError>
    ensures { OnOk result (text.new ≡ text.old ++ (codes "Construction,C_" ++ decimal number)) }
{
    append_all(
        text,
        &[Piece::Bytes(b"Construction,C_"), Piece::Number(number)],
    )
}

/// Appends the names of materials, each behind a comma.
fn append_materials(text: &mut Text, materials: &[u64]) -> Result<(), AllocError>
    ensures { OnOk result (text.new ≡ text.old ++ flat_map (λ k. codes ",M_" ++ decimal k) materials.now) }
{
    'materials: for number in materials {
        append_all(text, &[Piece::Bytes(b",M_"), Piece::Number(*number)])?;
    }
    Ok(())
}
