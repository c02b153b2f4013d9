// The tables of a file: the products that are taken, and what elements are made of.
ghost use Rattle.std.specs.Prelude.{◌≡◌, None, IfOk, OnOk};
ghost use Rattle.sb_profile.specs.Contents.{Contents, Says};
ghost use Rattle.sb_profile.specs.Steps.Kinds.{AreSorted};
ghost use Rattle.sb_profile.specs.Steps.Links.{lowered};
ghost use Rattle.sb_profile.specs.Steps.Read.{AreTables, unfit_roots};

use crate::reading::kinds::Kinds;
use crate::reading::links::{Links, fills, materials, types, voids};
use crate::reading::products::{Shaped, numbers_of, products, spaces, unfit_among, voided};
use sb_schema::{Building, OpeningFilling};
use sb_step::StepFile;
use std::alloc::{AllocError, Global};

/// The products that are taken, of each object that some relation lists its material or type, and of
/// openings and fillings what has them.
#[derive(Drop)]
pub struct Tables {
    /// Those that have shapes, in file order; so are elements and openings.
    pub spaces: Vec<Shaped>,
    pub elements: Vec<Shaped>,
    pub openings: Vec<Shaped>,
    /// The material instance of each object that a relation gives one, and of each type.
    pub materials: Links,
    /// The type of each object.
    pub types: Links,
    /// The element of each opening.
    pub voids: Links,
    /// The opening of each door or window.
    pub fills: Links,
}

/// The tables, each made in one pass. The lowest instance that is not of its row is kept.
pub(crate) fn read_tables(
    alloc: Global,
    file: &StepFile<'_>,
    kinds: &Kinds,
    unfit: &mut Option<u32>,
) -> Result<Tables, AllocError>
    ensures tables { IfOk result (λ tables. (c : Contents) → Says file.now c
        → AreSorted c c.numbers kinds.now → AreTables c tables) }
    ensures unfit { OnOk result ((c : Contents) → Says file.now c → unfit.new
        ≡ lowered unfit.old (unfit_roots c kinds.now)) }
{
    unfit_among::<Building>(alloc, file, kinds.buildings.as_slice(), unfit)?;
    let spaces = spaces(alloc, file, kinds.spaces.as_slice(), unfit)?;
    let elements = products(alloc, file, kinds.elements.as_slice(), unfit)?;
    let shaped = products(alloc, file, kinds.openings.as_slice(), unfit)?;
    unfit_among::<OpeningFilling>(alloc, file, kinds.fillings.as_slice(), unfit)?;
    let numbers = numbers_of(alloc, elements.as_slice())?;
    let voids = voids(alloc, file, kinds.voids.as_slice(), &numbers, unfit)?;
    let openings = voided(alloc, shaped.as_slice(), &voids)?;
    let opening_numbers = numbers_of(alloc, openings.as_slice())?;
    let fills = fills(alloc, file, kinds.fills.as_slice(), &opening_numbers, unfit)?;
    let materials = materials(alloc, file, kinds.materials.as_slice(), unfit)?;
    let types = types(alloc, file, kinds.types.as_slice(), unfit)?;
    Ok(Tables {
        spaces,
        elements,
        openings,
        materials,
        types,
        voids,
        fills,
    })
}
