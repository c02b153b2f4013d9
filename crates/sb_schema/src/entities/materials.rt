// Materials and their layers.
ghost use Rattle.sb_schema.specs.Rows as rows;

use crate::attributes::Attributes;
use crate::error::ViewError;
use crate::lists::References;
use crate::viewing::Entity;
use sb_list::Text;
use std::alloc::Global;

/// IFCMATERIAL: a material.
#[derive(Drop)]
pub struct Material {
    /// Name: its name.
    pub a1: Text,
}

impl<'a> Entity<'a, Global> for Material {
    ghost table_row = { rows.material };

    ghost fields = { λ v. (v.a1, tt) };

    fn read(alloc: Global, left: &mut Attributes<'a>) -> Result<Self, ViewError> {
        let a1 = left.string(alloc)?;
        left.has(2)?;
        Ok(Material { a1 })
    }
}

/// IFCMATERIALLAYER: a layer of a material.
#[derive(Drop)]
pub struct MaterialLayer {
    /// Material: the material.
    pub a1: Option<u32>,
    /// LayerThickness: how thick it is, as it stands.
    pub a2: Text,
}

impl<'a> Entity<'a, Global> for MaterialLayer {
    ghost table_row = { rows.material_layer };

    ghost fields = { λ v. (v.a1, (v.a2, tt)) };

    fn read(alloc: Global, left: &mut Attributes<'a>) -> Result<Self, ViewError> {
        let a1 = left.reference_or_none()?;
        let a2 = left.number(alloc)?;
        left.has(5)?;
        Ok(MaterialLayer { a1, a2 })
    }
}

/// IFCMATERIALLAYERSET: layers side by side.
#[derive(Drop)]
pub struct MaterialLayerSet {
    /// MaterialLayers: the layers in order.
    pub a1: References,
}

impl<'a> Entity<'a, Global> for MaterialLayerSet {
    ghost table_row = { rows.material_layer_set };

    ghost fields = { λ v. (v.a1, tt) };

    fn read(alloc: Global, left: &mut Attributes<'a>) -> Result<Self, ViewError> {
        let a1 = left.references(alloc)?;
        left.has(2)?;
        Ok(MaterialLayerSet { a1 })
    }
}

/// IFCMATERIALLAYERSETUSAGE: how layers lie in an element.
#[derive(Drop)]
pub struct MaterialLayerSetUsage {
    /// ForLayerSet: the layers.
    pub a1: u32,
    /// LayerSetDirection: along which axis they follow each other.
    pub a2: Text,
    /// DirectionSense: in which sense.
    pub a3: Text,
}

impl<'a> Entity<'a, Global> for MaterialLayerSetUsage {
    ghost table_row = { rows.material_layer_set_usage };

    ghost fields = { λ v. (v.a1, (v.a2, (v.a3, tt))) };

    fn read(alloc: Global, left: &mut Attributes<'a>) -> Result<Self, ViewError> {
        let a1 = left.reference()?;
        let a2 = left.enumeration(alloc)?;
        let a3 = left.enumeration(alloc)?;
        left.has(2)?;
        Ok(MaterialLayerSetUsage { a1, a2, a3 })
    }
}
