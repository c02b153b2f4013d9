// Shapes and solids.
ghost use Rattle.sb_schema.specs.Rows as rows;

use crate::attributes::Attributes;
use crate::error::ViewError;
use crate::lists::References;
use crate::viewing::Entity;
use sb_list::Text;
use std::alloc::Global;

/// IFCPRODUCTDEFINITIONSHAPE: the shape of a product.
#[derive(Drop)]
pub struct ProductDefinitionShape {
    /// Representations: in which ways it is given.
    pub a3: References,
}

impl<'a> Entity<'a, Global> for ProductDefinitionShape {
    ghost table_row = { rows.product_definition_shape };

    ghost fields = { λ v. (v.a3, tt) };

    fn read(alloc: Global, left: &mut Attributes<'a>) -> Result<Self, ViewError> {
        left.skip(2);
        let a3 = left.references(alloc)?;
        Ok(ProductDefinitionShape { a3 })
    }
}

/// IFCSHAPEREPRESENTATION: one way in which a shape is given.
#[derive(Drop)]
pub struct ShapeRepresentation {
    /// RepresentationIdentifier: which way.
    pub a2: Option<Text>,
    /// Items: of what it is made.
    pub a4: References,
}

impl<'a> Entity<'a, Global> for ShapeRepresentation {
    ghost table_row = { rows.shape_representation };

    ghost fields = { λ v. (v.a2, (v.a4, tt)) };

    fn read(alloc: Global, left: &mut Attributes<'a>) -> Result<Self, ViewError> {
        left.skip(1);
        let a2 = left.string_or_none(alloc)?;
        left.skip(1);
        let a4 = left.references(alloc)?;
        Ok(ShapeRepresentation { a2, a4 })
    }
}

/// IFCEXTRUDEDAREASOLID: a profile moved along a direction.
#[derive(Drop)]
pub struct ExtrudedAreaSolid {
    /// SweptArea: the profile.
    pub a1: u32,
    /// Position: its axes.
    pub a2: Option<u32>,
    /// ExtrudedDirection: the direction.
    pub a3: u32,
    /// Depth: how far it is moved, as it stands.
    pub a4: Text,
}

impl<'a> Entity<'a, Global> for ExtrudedAreaSolid {
    ghost table_row = { rows.extruded_area_solid };

    ghost fields = { λ v. (v.a1, (v.a2, (v.a3, (v.a4, tt)))) };

    fn read(alloc: Global, left: &mut Attributes<'a>) -> Result<Self, ViewError> {
        let a1 = left.reference()?;
        let a2 = left.reference_or_none()?;
        let a3 = left.reference()?;
        let a4 = left.number(alloc)?;
        Ok(ExtrudedAreaSolid { a1, a2, a3, a4 })
    }
}
