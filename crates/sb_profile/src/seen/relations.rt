// Relations: nothing follows from them by themselves.
ghost use Rattle.std.specs.Prelude.{[]};
ghost use Rattle.sb_schema.specs.Views.Taking.{without_memory};
ghost use Rattle.sb_profile.specs.Entities.Entity.{rel_voids_element, rel_fills_element, rel_associates_material, rel_defines_by_type};

use crate::following::found::Found;
use crate::sights::Seen;
use sb_schema as views;
use sb_schema::{
    LentRelAssociatesMaterial, LentRelDefinesByType, RelFillsElement, RelVoidsElement, ViewError,
};
use sb_step::StepFile;
use std::alloc::{AllocError, Global};

impl<'a> Seen<'a> for RelVoidsElement {
    ghost entity = { rel_voids_element };

    ghost taking = { without_memory };

    ghost fields = { λ v. (v.a5, (v.a6, tt)) };

    ghost follow = { λ _. [] };

    fn view(_alloc: Global, file: &StepFile<'a>, number: u32) -> Result<Self, ViewError> {
        views::rel_voids_element(file, number)
    }

    fn push(&mut self, _found: &mut Found) -> Result<(), AllocError> {
        Ok(())
    }
}

impl<'a> Seen<'a> for RelFillsElement {
    ghost entity = { rel_fills_element };

    ghost taking = { without_memory };

    ghost fields = { λ v. (v.a5, (v.a6, tt)) };

    ghost follow = { λ _. [] };

    fn view(_alloc: Global, file: &StepFile<'a>, number: u32) -> Result<Self, ViewError> {
        views::rel_fills_element(file, number)
    }

    fn push(&mut self, _found: &mut Found) -> Result<(), AllocError> {
        Ok(())
    }
}

impl<'a> Seen<'a> for LentRelAssociatesMaterial<'a> {
    ghost entity = { rel_associates_material };

    ghost taking = { without_memory };

    ghost fields = { λ v. (v.a5, (v.a6, tt)) };

    ghost follow = { λ _. [] };

    fn view(_alloc: Global, file: &StepFile<'a>, number: u32) -> Result<Self, ViewError> {
        views::lent_rel_associates_material(file, number)
    }

    fn push(&mut self, _found: &mut Found) -> Result<(), AllocError> {
        Ok(())
    }
}

impl<'a> Seen<'a> for LentRelDefinesByType<'a> {
    ghost entity = { rel_defines_by_type };

    ghost taking = { without_memory };

    ghost fields = { λ v. (v.a5, (v.a6, tt)) };

    ghost follow = { λ _. [] };

    fn view(_alloc: Global, file: &StepFile<'a>, number: u32) -> Result<Self, ViewError> {
        views::lent_rel_defines_by_type(file, number)
    }

    fn push(&mut self, _found: &mut Found) -> Result<(), AllocError> {
        Ok(())
    }
}
