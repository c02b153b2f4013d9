// Buildings, products and what fills openings: nothing follows from them by themselves.
ghost use Rattle.std.specs.Prelude.{[]};
ghost use Rattle.sb_schema.specs.Views.Taking.{with_memory, without_memory};
ghost use Rattle.sb_profile.specs.Entities.Entity.{building, space, product, opening_filling};

use crate::following::found::Found;
use crate::sights::Seen;
use sb_schema as views;
use sb_schema::{Building, OpeningFilling, Product, Space, ViewError};
use sb_step::StepFile;
use std::alloc::{AllocError, Global};

impl<'a> Seen<'a> for Building {
    ghost entity = { building };

    ghost taking = { without_memory };

    ghost fields = { λ v. (v.a6, tt) };

    ghost follow = { λ _. [] };

    fn view(_alloc: Global, file: &StepFile<'a>, number: u32) -> Result<Self, ViewError> {
        views::building(file, number)
    }

    fn push(&mut self, _found: &mut Found) -> Result<(), AllocError> {
        Ok(())
    }
}

impl<'a> Seen<'a> for Space {
    ghost entity = { space };

    ghost taking = { with_memory };

    ghost fields = { λ v. (v.a1, (v.a6, (v.a7, tt))) };

    ghost follow = { λ _. [] };

    fn view(alloc: Global, file: &StepFile<'a>, number: u32) -> Result<Self, ViewError> {
        views::space(alloc, file, number)
    }

    fn push(&mut self, _found: &mut Found) -> Result<(), AllocError> {
        Ok(())
    }
}

impl<'a> Seen<'a> for Product {
    ghost entity = { product };

    ghost taking = { without_memory };

    ghost fields = { λ v. (v.a6, (v.a7, tt)) };

    ghost follow = { λ _. [] };

    fn view(_alloc: Global, file: &StepFile<'a>, number: u32) -> Result<Self, ViewError> {
        views::product(file, number)
    }

    fn push(&mut self, _found: &mut Found) -> Result<(), AllocError> {
        Ok(())
    }
}

impl<'a> Seen<'a> for OpeningFilling {
    ghost entity = { opening_filling };

    ghost taking = { without_memory };

    ghost fields = { λ _. tt };

    ghost follow = { λ _. [] };

    fn view(_alloc: Global, file: &StepFile<'a>, number: u32) -> Result<Self, ViewError> {
        views::opening_filling(file, number)
    }

    fn push(&mut self, _found: &mut Found) -> Result<(), AllocError> {
        Ok(())
    }
}
