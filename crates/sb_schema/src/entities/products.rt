// Buildings, spaces, elements, openings and what fills them.
ghost use Rattle.sb_schema.specs.Rows as rows;

use crate::attributes::Attributes;
use crate::error::ViewError;
use crate::viewing::Entity;
use sb_list::Text;
use std::alloc::Global;

/// IFCBUILDING: the building.
#[derive(Drop)]
pub struct Building {
    /// ObjectPlacement: where it is placed.
    pub a6: Option<u32>,
}

impl<'a> Entity<'a, ()> for Building {
    ghost table_row = { rows.building };

    ghost fields = { λ v. (v.a6, tt) };

    fn read(_memory: (), left: &mut Attributes<'a>) -> Result<Self, ViewError> {
        left.skip(5);
        let a6 = left.reference_or_none()?;
        left.has(6)?;
        Ok(Building { a6 })
    }
}

/// IFCSPACE: a space.
#[derive(Drop)]
pub struct Space {
    /// GlobalId: its identifier.
    pub a1: Text,
    /// ObjectPlacement: where it is placed.
    pub a6: Option<u32>,
    /// Representation: its shape.
    pub a7: Option<u32>,
}

impl<'a> Entity<'a, Global> for Space {
    ghost table_row = { rows.space };

    ghost fields = { λ v. (v.a1, (v.a6, (v.a7, tt))) };

    fn read(alloc: Global, left: &mut Attributes<'a>) -> Result<Self, ViewError> {
        let a1 = left.string(alloc)?;
        left.skip(4);
        let a6 = left.reference_or_none()?;
        let a7 = left.reference_or_none()?;
        left.has(4)?;
        Ok(Space { a1, a6, a7 })
    }
}

/// A wall, slab, roof, column, beam, covering or opening.
#[derive(Drop)]
pub struct Product {
    /// ObjectPlacement: where it is placed.
    pub a6: Option<u32>,
    /// Representation: its shape.
    pub a7: Option<u32>,
}

impl<'a> Entity<'a, ()> for Product {
    ghost table_row = { rows.product };

    ghost fields = { λ v. (v.a6, (v.a7, tt)) };

    fn read(_memory: (), left: &mut Attributes<'a>) -> Result<Self, ViewError> {
        left.skip(5);
        let a6 = left.reference_or_none()?;
        let a7 = left.reference_or_none()?;
        left.has(2)?;
        Ok(Product { a6, a7 })
    }
}

/// IFCDOOR or IFCWINDOW: what fills an opening. No attribute is read.
#[derive(Drop)]
pub struct OpeningFilling;

impl<'a> Entity<'a, ()> for OpeningFilling {
    ghost table_row = { rows.opening_filling };

    ghost fields = { λ _. tt };

    fn read(_memory: (), left: &mut Attributes<'a>) -> Result<Self, ViewError> {
        left.has(13)?;
        Ok(OpeningFilling)
    }
}
