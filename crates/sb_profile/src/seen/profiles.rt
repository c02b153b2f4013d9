// Profiles and curves.
ghost use Rattle.std.specs.Prelude.{[], ◌∷◌};
ghost use Rattle.sb_schema.specs.Views.Taking.{with_memory, without_memory};
ghost use Rattle.sb_profile.specs.declared.following.places.Place.TheVariants as place;
ghost use Rattle.sb_profile.specs.Entities.Entity.{rectangle_profile_def, arbitrary_closed_profile_def, arbitrary_profile_def_with_voids, polyline, indexed_poly_curve, cartesian_point_list_2d};
ghost use Rattle.sb_profile.specs.Following.{to, to_each};

use crate::following::found::{Found, lead, lead_each, lead_lent, lead_to};
use crate::following::places::Place;
use crate::sights::Seen;
use sb_schema as views;
use sb_schema::{
    ArbitraryClosedProfileDef, ArbitraryProfileDefWithVoids, IndexedPolyCurve,
    LentCartesianPointList2d, LentPolyline, RectangleProfileDef, ViewError,
};
use sb_step::StepFile;
use std::alloc::{AllocError, Global};

impl<'a> Seen<'a> for RectangleProfileDef {
    ghost entity = { rectangle_profile_def };

    ghost taking = { with_memory };

    ghost fields = { λ v. (v.a3, (v.a4, (v.a5, tt))) };

    ghost follow = { λ v. to place.Position2d v.0 };

    fn view(alloc: Global, file: &StepFile<'a>, number: u32) -> Result<Self, ViewError> {
        views::rectangle_profile_def(alloc, file, number)
    }

    fn push(&mut self, found: &mut Found) -> Result<(), AllocError> {
        lead_to(found, Place::Position2d, self.a3)
    }
}

impl<'a> Seen<'a> for ArbitraryClosedProfileDef {
    ghost entity = { arbitrary_closed_profile_def };

    ghost taking = { without_memory };

    ghost fields = { λ v. (v.a3, tt) };

    ghost follow = { λ v. (place.Curve, v.0) ∷ [] };

    fn view(_alloc: Global, file: &StepFile<'a>, number: u32) -> Result<Self, ViewError> {
        views::arbitrary_closed_profile_def(file, number)
    }

    fn push(&mut self, found: &mut Found) -> Result<(), AllocError> {
        lead(found, Place::Curve, self.a3)
    }
}

impl<'a> Seen<'a> for ArbitraryProfileDefWithVoids {
    ghost entity = { arbitrary_profile_def_with_voids };

    ghost taking = { with_memory };

    ghost fields = { λ v. (v.a3, (v.a4, tt)) };

    ghost follow = { λ v. (place.Curve, v.0) ∷ to_each place.Curve v.1.0 };

    fn view(alloc: Global, file: &StepFile<'a>, number: u32) -> Result<Self, ViewError> {
        views::arbitrary_profile_def_with_voids(alloc, file, number)
    }

    fn push(&mut self, found: &mut Found) -> Result<(), AllocError> {
        lead(found, Place::Curve, self.a3)?;
        lead_each(found, Place::Curve, self.a4.as_slice())
    }
}

impl<'a> Seen<'a> for LentPolyline<'a> {
    ghost entity = { polyline };

    ghost taking = { without_memory };

    ghost fields = { λ v. (v.a1, tt) };

    ghost follow = { λ v. to_each place.Point v.0 };

    fn view(_alloc: Global, file: &StepFile<'a>, number: u32) -> Result<Self, ViewError> {
        views::lent_polyline(file, number)
    }

    fn push(&mut self, found: &mut Found) -> Result<(), AllocError> {
        lead_lent(found, Place::Point, &mut self.a1)
    }
}

impl<'a> Seen<'a> for IndexedPolyCurve {
    ghost entity = { indexed_poly_curve };

    ghost taking = { with_memory };

    ghost fields = { λ v. (v.a1, (v.a2, tt)) };

    ghost follow = { λ v. (place.PointList, v.0) ∷ [] };

    fn view(alloc: Global, file: &StepFile<'a>, number: u32) -> Result<Self, ViewError> {
        views::indexed_poly_curve(alloc, file, number)
    }

    fn push(&mut self, found: &mut Found) -> Result<(), AllocError> {
        lead(found, Place::PointList, self.a1)
    }
}

impl<'a> Seen<'a> for LentCartesianPointList2d<'a> {
    ghost entity = { cartesian_point_list_2d };

    ghost taking = { without_memory };

    ghost fields = { λ v. (v.a1, tt) };

    ghost follow = { λ _. [] };

    fn view(_alloc: Global, file: &StepFile<'a>, number: u32) -> Result<Self, ViewError> {
        views::lent_cartesian_point_list_2d(file, number)
    }

    fn push(&mut self, _found: &mut Found) -> Result<(), AllocError> {
        Ok(())
    }
}
