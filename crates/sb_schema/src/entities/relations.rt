// Relations between products, and to materials and types.
ghost use Rattle.sb_schema.specs.Rows as rows;

use crate::attributes::Attributes;
use crate::error::ViewError;
use crate::lent::LentReferences;
use crate::lists::References;
use crate::viewing::Entity;
use std::alloc::Global;

/// IFCRELVOIDSELEMENT: an element has an opening.
#[derive(Drop)]
pub struct RelVoidsElement {
    /// RelatingBuildingElement: the element.
    pub a5: u32,
    /// RelatedOpeningElement: the opening.
    pub a6: u32,
}

impl<'a> Entity<'a, ()> for RelVoidsElement {
    ghost table_row = { rows.rel_voids_element };

    ghost fields = { λ v. (v.a5, (v.a6, tt)) };

    fn read(_memory: (), left: &mut Attributes<'a>) -> Result<Self, ViewError> {
        left.skip(4);
        let a5 = left.reference()?;
        let a6 = left.reference()?;
        Ok(RelVoidsElement { a5, a6 })
    }
}

/// IFCRELFILLSELEMENT: something fills an opening.
#[derive(Drop)]
pub struct RelFillsElement {
    /// RelatingOpeningElement: the opening.
    pub a5: u32,
    /// RelatedBuildingElement: what fills it.
    pub a6: u32,
}

impl<'a> Entity<'a, ()> for RelFillsElement {
    ghost table_row = { rows.rel_fills_element };

    ghost fields = { λ v. (v.a5, (v.a6, tt)) };

    fn read(_memory: (), left: &mut Attributes<'a>) -> Result<Self, ViewError> {
        left.skip(4);
        let a5 = left.reference()?;
        let a6 = left.reference()?;
        Ok(RelFillsElement { a5, a6 })
    }
}

/// IFCRELASSOCIATESMATERIAL: products are of a material.
#[derive(Drop)]
pub struct RelAssociatesMaterial {
    /// RelatedObjects: the products.
    pub a5: References,
    /// RelatingMaterial: the material.
    pub a6: u32,
}

impl<'a> Entity<'a, Global> for RelAssociatesMaterial {
    ghost table_row = { rows.rel_associates_material };

    ghost fields = { λ v. (v.a5, (v.a6, tt)) };

    fn read(alloc: Global, left: &mut Attributes<'a>) -> Result<Self, ViewError> {
        left.skip(4);
        let a5 = left.references(alloc)?;
        let a6 = left.reference()?;
        Ok(RelAssociatesMaterial { a5, a6 })
    }
}

/// IFCRELDEFINESBYTYPE: products are of a type.
#[derive(Drop)]
pub struct RelDefinesByType {
    /// RelatedObjects: the products.
    pub a5: References,
    /// RelatingType: the type.
    pub a6: u32,
}

impl<'a> Entity<'a, Global> for RelDefinesByType {
    ghost table_row = { rows.rel_defines_by_type };

    ghost fields = { λ v. (v.a5, (v.a6, tt)) };

    fn read(alloc: Global, left: &mut Attributes<'a>) -> Result<Self, ViewError> {
        left.skip(4);
        let a5 = left.references(alloc)?;
        let a6 = left.reference()?;
        Ok(RelDefinesByType { a5, a6 })
    }
}

/// IFCRELASSOCIATESMATERIAL, whose products are gone over.
#[derive(Drop)]
pub struct LentRelAssociatesMaterial<'a> {
    /// RelatedObjects: the products.
    pub a5: LentReferences<'a>,
    /// RelatingMaterial: the material.
    pub a6: u32,
}

impl<'a> Entity<'a, ()> for LentRelAssociatesMaterial<'a> {
    ghost table_row = { rows.rel_associates_material };

    ghost fields = { λ v. (v.a5, (v.a6, tt)) };

    fn read(_memory: (), left: &mut Attributes<'a>) -> Result<Self, ViewError> {
        left.skip(4);
        let a5 = left.lent_references()?;
        let a6 = left.reference()?;
        Ok(LentRelAssociatesMaterial { a5, a6 })
    }
}

/// IFCRELDEFINESBYTYPE, whose products are gone over.
#[derive(Drop)]
pub struct LentRelDefinesByType<'a> {
    /// RelatedObjects: the products.
    pub a5: LentReferences<'a>,
    /// RelatingType: the type.
    pub a6: u32,
}

impl<'a> Entity<'a, ()> for LentRelDefinesByType<'a> {
    ghost table_row = { rows.rel_defines_by_type };

    ghost fields = { λ v. (v.a5, (v.a6, tt)) };

    fn read(_memory: (), left: &mut Attributes<'a>) -> Result<Self, ViewError> {
        left.skip(4);
        let a5 = left.lent_references()?;
        let a6 = left.reference()?;
        Ok(LentRelDefinesByType { a5, a6 })
    }
}
