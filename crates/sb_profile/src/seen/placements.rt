// Placements, positions, points and directions.
ghost use Rattle.std.specs.Prelude.{[], ◌∷◌, ◌++◌};
ghost use Rattle.sb_schema.specs.Views.Taking.{with_memory, without_memory};
ghost use Rattle.sb_profile.specs.declared.following.places.Place.TheVariants as place;
ghost use Rattle.sb_profile.specs.Entities.Entity.{local_placement, axis2_placement_3d, axis2_placement_2d, cartesian_point, direction};
ghost use Rattle.sb_profile.specs.Following.{to};

use crate::following::found::{Found, lead, lead_to};
use crate::following::places::Place;
use crate::sights::Seen;
use sb_schema as views;
use sb_schema::{
    Axis2Placement2d, Axis2Placement3d, CartesianPoint, Direction, LocalPlacement, ViewError,
};
use sb_step::StepFile;
use std::alloc::{AllocError, Global};

impl<'a> Seen<'a> for LocalPlacement {
    ghost entity = { local_placement };

    ghost taking = { without_memory };

    ghost fields = { λ v. (v.a1, (v.a2, tt)) };

    ghost follow = { λ v. (place.Position3d, v.1.0) ∷ [] };

    fn view(_alloc: Global, file: &StepFile<'a>, number: u32) -> Result<Self, ViewError> {
        views::local_placement(file, number)
    }

    fn push(&mut self, found: &mut Found) -> Result<(), AllocError> {
        lead(found, Place::Position3d, self.a2)
    }
}

impl<'a> Seen<'a> for Axis2Placement3d {
    ghost entity = { axis2_placement_3d };

    ghost taking = { without_memory };

    ghost fields = { λ v. (v.a1, (v.a2, (v.a3, tt))) };

    ghost follow = { λ v. (place.Point, v.0)
        ∷ (to place.Direction v.1.0 ++ to place.Direction v.1.1.0) };

    fn view(_alloc: Global, file: &StepFile<'a>, number: u32) -> Result<Self, ViewError> {
        views::axis2_placement_3d(file, number)
    }

    fn push(&mut self, found: &mut Found) -> Result<(), AllocError> {
        lead(found, Place::Point, self.a1)?;
        lead_to(found, Place::Direction, self.a2)?;
        lead_to(found, Place::Direction, self.a3)
    }
}

impl<'a> Seen<'a> for Axis2Placement2d {
    ghost entity = { axis2_placement_2d };

    ghost taking = { without_memory };

    ghost fields = { λ v. (v.a1, (v.a2, tt)) };

    ghost follow = { λ v. (place.Point, v.0) ∷ to place.Direction v.1.0 };

    fn view(_alloc: Global, file: &StepFile<'a>, number: u32) -> Result<Self, ViewError> {
        views::axis2_placement_2d(file, number)
    }

    fn push(&mut self, found: &mut Found) -> Result<(), AllocError> {
        lead(found, Place::Point, self.a1)?;
        lead_to(found, Place::Direction, self.a2)
    }
}

impl<'a> Seen<'a> for CartesianPoint {
    ghost entity = { cartesian_point };

    ghost taking = { with_memory };

    ghost fields = { λ v. (v.a1, tt) };

    ghost follow = { λ _. [] };

    fn view(alloc: Global, file: &StepFile<'a>, number: u32) -> Result<Self, ViewError> {
        views::cartesian_point(alloc, file, number)
    }

    fn push(&mut self, _found: &mut Found) -> Result<(), AllocError> {
        Ok(())
    }
}

impl<'a> Seen<'a> for Direction {
    ghost entity = { direction };

    ghost taking = { with_memory };

    ghost fields = { λ v. (v.a1, tt) };

    ghost follow = { λ _. [] };

    fn view(alloc: Global, file: &StepFile<'a>, number: u32) -> Result<Self, ViewError> {
        views::direction(alloc, file, number)
    }

    fn push(&mut self, _found: &mut Found) -> Result<(), AllocError> {
        Ok(())
    }
}
