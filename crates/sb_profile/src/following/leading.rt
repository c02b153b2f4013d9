// The leads with which the following begins: to the placements of chains, to shapes and to materials.
ghost use Rattle.std.specs.Prelude.{◌≡◌, ◌↔◌, ◌++◌, [], ℕ, option_to_list, IfOk, OnOk};
ghost use Rattle.std.specs.Ordering.{nat_cmp};
ghost use Rattle.std.specs.BTreeMap.{get};
ghost use Rattle.theory_lists.specs.Members.{Stands};
ghost use Rattle.sb_profile.specs.Contents.{Contents, Says};
ghost use Rattle.sb_profile.specs.Following as following;
ghost use Rattle.sb_profile.specs.Steps.Chains.{IsSeen};
ghost use Rattle.sb_profile.specs.Steps.Found.{Leads};
ghost use Rattle.sb_profile.specs.Steps.Read as spec;
ghost use Rattle.sb_profile.specs.Steps.Read.{AreTables, AreFirstLeads, ArePlaced, starts_of, first_of, shapes_of, materials_of};

use crate::following::chains::{Chain, add, below, chains, no_chain};
use crate::following::found::{Found, lead, lead_each, lead_to};
use crate::following::places::Place;
use crate::reading::links::Links;
use crate::reading::products::Shaped;
use crate::tables::Tables;
use sb_step::StepFile;
use std::alloc::{AllocError, Global};

/// Appends the leads from products that are taken, where no lead was found before. Beside them is
/// answered what was found of the placements to which they lead.
pub(crate) fn first_leads(
    alloc: Global,
    file: &StepFile<'_>,
    tables: &Tables,
    building: Option<u32>,
    found: &mut Found,
) -> Result<Found, AllocError>
    ensures leads { OnOk result ((c : Contents) → Says file.now c → AreTables c tables.now
        → building ≡ following.building_placement c → found.old.leads.items ≡ []
        → AreFirstLeads c found.new.leads.items) }
    ensures placed { IfOk result (λ beside. (c : Contents) → Says file.now c
        → found.old.leads.items ≡ []
        → ArePlaced c found.new beside) }
    ensures unfit { OnOk result (found.new.unfit ≡ found.old.unfit) }
    ensures absent { OnOk result (found.new.absent ≡ found.old.absent) }
{
    let starts = starts(alloc, tables, building)?;
    let first = reached(alloc, starts.as_slice())?;
    let mut beside = Found {
        leads: Vec::new(alloc),
        unfit: found.unfit,
        absent: found.absent,
    };
    let placements = chains(alloc, file, first, building, &mut beside)?;
    lead_first(found, placements.as_slice(), tables)?;
    Ok(beside)
}

/// Appends the leads to these placements, to the shapes of products and to what elements are made of.
fn lead_first(found: &mut Found, placements: &[u32], tables: &Tables) -> Result<(), AllocError>
    ensures { OnOk result (Leads (first_of placements.now tables.now) found.old found.new) }
{
    lead_each(found, Place::Placement, placements)?;
    lead_shapes(found, tables.spaces.as_slice())?;
    lead_shapes(found, tables.elements.as_slice())?;
    lead_shapes(found, tables.openings.as_slice())?;
    lead_materials(found, tables)?;
    Ok(())
}

/// Where the chains of products begin.
fn starts(alloc: Global, tables: &Tables, building: Option<u32>) -> Result<Vec<u32>, AllocError>
    ensures { IfOk result (λ starts. starts.items
        ≡ starts_of building tables.now.spaces.items
        ++ starts_of building tables.now.elements.items
        ++ starts_of building tables.now.openings.items) }
{
    let mut starts = Vec::new(alloc);
    add_starts(&mut starts, tables.spaces.as_slice(), building)?;
    add_starts(&mut starts, tables.elements.as_slice(), building)?;
    add_starts(&mut starts, tables.openings.as_slice(), building)?;
    Ok(starts)
}

fn add_starts(
    starts: &mut Vec<u32>,
    products: &[Shaped],
    building: Option<u32>,
) -> Result<(), AllocError>
    ensures { OnOk result (starts.new.items
        ≡ starts.old.items ++ starts_of building products.now) }
{
    'products: for product in products {
        add_start(starts, below(product.placement, building))?;
    }
    Ok(())
}

fn add_start(starts: &mut Vec<u32>, start: Option<u32>) -> Result<(), AllocError>
    ensures { OnOk result (starts.new.items ≡ starts.old.items ++ option_to_list start) }
{
    if let Some(start) = start {
        starts.push(start)?;
    }
    Ok(())
}

/// Reaches these placements.
fn reached(alloc: Global, numbers: &[u32]) -> Result<Chain, AllocError>
    ensures seen { IfOk result IsSeen }
    ensures reached { IfOk result (λ chain. (n : ℕ) → Stands n chain.placements.items
        ↔ Stands n numbers.now) }
{
    let mut chain = no_chain(alloc);
    'numbers: for number in numbers {
        add(&mut chain, *number)?;
    }
    Ok(chain)
}

fn lead_shapes(found: &mut Found, products: &[Shaped]) -> Result<(), AllocError>
    ensures { OnOk result (Leads (shapes_of products.now) found.old found.new) }
{
    'products: for product in products {
        lead(found, Place::Shape, product.shape)?;
    }
    Ok(())
}

fn lead_materials(found: &mut Found, tables: &Tables) -> Result<(), AllocError>
    ensures { OnOk result (Leads (materials_of tables.now.materials tables.now.types
        tables.now.elements.items) found.old found.new) }
{
    'products: for product in tables.elements.as_slice() {
        let material = made_of(&tables.materials, &tables.types, product.number);
        lead_to(found, Place::Material, material)?;
    }
    Ok(())
}

/// What an element is made of: by a relation of its own, or else by one of its type.
fn made_of(materials: &Links, types: &Links, number: u32) -> Option<u32>
    ensures { result ≡ spec.made_of materials.now types.now number }
{
    match target(materials, number) {
        Some(material) => Some(material),
        None => target(materials, target(types, number)?),
    }
}

/// What the link of the number says.
fn target(links: &Links, number: u32) -> Option<u32>
    ensures { result ≡ spec.target_in (get nat_cmp links.now number) }
{
    let link = links.get(&number)?;
    Some(link.target)
}
