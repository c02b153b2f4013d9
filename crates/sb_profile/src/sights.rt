// What is seen of an instance that is looked at as one of an entity.
ghost use Rattle.std.specs.Prelude.{◌≡◌, List, Some, IfOk, OnOk};
ghost use Rattle.sb_schema.specs.Table.{Values};
ghost use Rattle.sb_schema.specs.Views.{Views, Taking};
ghost use Rattle.sb_profile.specs.Contents.{Contents, Says};
ghost use Rattle.sb_profile.specs.Entities.{Entity, row_of};
ghost use Rattle.sb_profile.specs.Following.{Lead};
ghost use Rattle.sb_profile.specs.Steps.Found.{Leads};
ghost use Rattle.sb_profile.specs.Steps.Sights.{sight_of, Shows};

use crate::following::found::Found;
use sb_schema::ViewError;
use sb_step::StepFile;
use std::alloc::{AllocError, Global};

/// What is seen.
#[derive(Drop)]
pub(crate) enum Sight<V> {
    /// Its attributes.
    Of(V),
    /// It has a keyword of the entity, and is not of its row.
    Unfit,
    /// It has another keyword, or none.
    Other,
    /// No instance has the number.
    Absent,
}

/// An entity that is looked at.
pub(crate) trait Seen<'a>: Sized + Drop {
    ghost entity: { Entity };

    ghost taking: { Taking };

    ghost fields: { Self → Values (row_of entity).read };

    ghost follow: { Values (row_of entity).read → List Lead };

    /// The view of the instance of this number.
    fn view(alloc: Global, file: &StepFile<'a>, number: u32) -> Result<Self, ViewError>
        ensures { Views taking (row_of entity) fields file.now number result };

    /// Appends what follows.
    fn push(&mut self, found: &mut Found) -> Result<(), AllocError>
        ensures { OnOk result (Leads (follow (fields self.old)) found.old found.new) };
}

/// What is seen of the instance of this number.
pub(crate) fn look<'a, V: Seen<'a>>(
    alloc: Global,
    file: &StepFile<'a>,
    number: u32,
) -> Result<Sight<V>, AllocError>
    ensures { IfOk result (λ s. (c : Contents) → Says file.now c
        → Shows V.entity V.fields c number s) }
{
    let answer = V::view(alloc, file, number);
    shown(answer)
}

/// The sight of a view.
fn shown<V: Drop>(answer: Result<V, ViewError>) -> Result<Sight<V>, AllocError>
    ensures { IfOk result (λ s. sight_of answer ≡ Some s) }
{
    match answer {
        Ok(view) => Ok(Sight::Of(view)),
        Err(ViewError::Missing(_)) => Ok(Sight::Absent),
        Err(ViewError::Other(_)) => Ok(Sight::Other),
        Err(ViewError::Fields(_)) => Ok(Sight::Unfit),
        Err(ViewError::NoMemory) => Err(AllocError),
    }
}
