// Materials and layers.
ghost use Rattle.std.specs.Prelude.{[], ◌∷◌};
ghost use Rattle.sb_schema.specs.Views.Taking.{with_memory};
ghost use Rattle.sb_profile.specs.declared.following.places.Place.TheVariants as place;
ghost use Rattle.sb_profile.specs.Entities.Entity.{material, material_layer, material_layer_set, material_layer_set_usage};
ghost use Rattle.sb_profile.specs.Following.{to, to_each};

use crate::following::found::{Found, lead, lead_each, lead_to};
use crate::following::places::Place;
use crate::sights::Seen;
use sb_schema as views;
use sb_schema::{Material, MaterialLayer, MaterialLayerSet, MaterialLayerSetUsage, ViewError};
use sb_step::StepFile;
use std::alloc::{AllocError, Global};

impl<'a> Seen<'a> for Material {
    ghost entity = { material };

    ghost taking = { with_memory };

    ghost fields = { λ v. (v.a1, tt) };

    ghost follow = { λ _. [] };

    fn view(alloc: Global, file: &StepFile<'a>, number: u32) -> Result<Self, ViewError> {
        views::material(alloc, file, number)
    }

    fn push(&mut self, _found: &mut Found) -> Result<(), AllocError> {
        Ok(())
    }
}

impl<'a> Seen<'a> for MaterialLayer {
    ghost entity = { material_layer };

    ghost taking = { with_memory };

    ghost fields = { λ v. (v.a1, (v.a2, tt)) };

    ghost follow = { λ v. to place.LayerMaterial v.0 };

    fn view(alloc: Global, file: &StepFile<'a>, number: u32) -> Result<Self, ViewError> {
        views::material_layer(alloc, file, number)
    }

    fn push(&mut self, found: &mut Found) -> Result<(), AllocError> {
        lead_to(found, Place::LayerMaterial, self.a1)
    }
}

impl<'a> Seen<'a> for MaterialLayerSet {
    ghost entity = { material_layer_set };

    ghost taking = { with_memory };

    ghost fields = { λ v. (v.a1, tt) };

    ghost follow = { λ v. to_each place.Layer v.0 };

    fn view(alloc: Global, file: &StepFile<'a>, number: u32) -> Result<Self, ViewError> {
        views::material_layer_set(alloc, file, number)
    }

    fn push(&mut self, found: &mut Found) -> Result<(), AllocError> {
        lead_each(found, Place::Layer, self.a1.as_slice())
    }
}

impl<'a> Seen<'a> for MaterialLayerSetUsage {
    ghost entity = { material_layer_set_usage };

    ghost taking = { with_memory };

    ghost fields = { λ v. (v.a1, (v.a2, (v.a3, tt))) };

    ghost follow = { λ v. (place.LayerSet, v.0) ∷ [] };

    fn view(alloc: Global, file: &StepFile<'a>, number: u32) -> Result<Self, ViewError> {
        views::material_layer_set_usage(alloc, file, number)
    }

    fn push(&mut self, found: &mut Found) -> Result<(), AllocError> {
        lead(found, Place::LayerSet, self.a1)
    }
}
