// Shapes, their representations and solids. The bodies of a shape are found apart.
ghost use Rattle.std.specs.Prelude.{[], ◌∷◌};
ghost use Rattle.sb_schema.specs.Views.Taking.{with_memory};
ghost use Rattle.sb_profile.specs.declared.following.places.Place.TheVariants as place;
ghost use Rattle.sb_profile.specs.Entities.Entity.{product_definition_shape, shape_representation, extruded_area_solid};
ghost use Rattle.sb_profile.specs.Following.{to, to_each};

use crate::following::found::{Found, lead, lead_each, lead_to};
use crate::following::places::Place;
use crate::sights::Seen;
use sb_schema as views;
use sb_schema::{ExtrudedAreaSolid, ProductDefinitionShape, ShapeRepresentation, ViewError};
use sb_step::StepFile;
use std::alloc::{AllocError, Global};

impl<'a> Seen<'a> for ProductDefinitionShape {
    ghost entity = { product_definition_shape };

    ghost taking = { with_memory };

    ghost fields = { λ v. (v.a3, tt) };

    ghost follow = { λ _. [] };

    fn view(alloc: Global, file: &StepFile<'a>, number: u32) -> Result<Self, ViewError> {
        views::product_definition_shape(alloc, file, number)
    }

    fn push(&mut self, _found: &mut Found) -> Result<(), AllocError> {
        Ok(())
    }
}

impl<'a> Seen<'a> for ShapeRepresentation {
    ghost entity = { shape_representation };

    ghost taking = { with_memory };

    ghost fields = { λ v. (v.a2, (v.a4, tt)) };

    ghost follow = { λ v. to_each place.Solid v.1.0 };

    fn view(alloc: Global, file: &StepFile<'a>, number: u32) -> Result<Self, ViewError> {
        views::shape_representation(alloc, file, number)
    }

    fn push(&mut self, found: &mut Found) -> Result<(), AllocError> {
        lead_each(found, Place::Solid, self.a4.as_slice())
    }
}

impl<'a> Seen<'a> for ExtrudedAreaSolid {
    ghost entity = { extruded_area_solid };

    ghost taking = { with_memory };

    ghost fields = { λ v. (v.a1, (v.a2, (v.a3, (v.a4, tt)))) };

    ghost follow = { λ v. (place.Profile, v.0) ∷ (place.Direction, v.1.1.0)
        ∷ to place.Position3d v.1.0 };

    fn view(alloc: Global, file: &StepFile<'a>, number: u32) -> Result<Self, ViewError> {
        views::extruded_area_solid(alloc, file, number)
    }

    fn push(&mut self, found: &mut Found) -> Result<(), AllocError> {
        lead(found, Place::Profile, self.a1)?;
        lead(found, Place::Direction, self.a3)?;
        lead_to(found, Place::Position3d, self.a2)
    }
}
