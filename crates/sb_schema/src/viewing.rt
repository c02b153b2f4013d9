// How every entity is viewed.
ghost use Rattle.std.specs.Prelude.{◌≡◌, List, map};
ghost use Rattle.sb_schema.specs.Table.{Row, Values};
ghost use Rattle.sb_schema.specs.Views.{Views, Taking};
ghost use Rattle.sb_schema.specs.Steps.{Tells};
ghost use Rattle.sb_schema.specs.Views.Taking.{with_memory, without_memory};

use crate::attributes::{Attributes, begin};
use crate::error::ViewError;
use sb_step::StepFile;
use std::alloc::Global;

/// What a view takes its memory from.
pub(crate) trait Memory: Drop {
    ghost taking: { Taking };
}

impl Memory for () {
    ghost taking = { without_memory };
}

impl Memory for Global {
    ghost taking = { with_memory };
}

/// An entity, viewed with this memory.
pub(crate) trait Entity<'a, M: Memory>: Sized + Drop {
    ghost table_row: { Row };

    ghost fields: { Self → Values table_row.read };

    /// Reads the attributes that are read, where all are left.
    fn read(memory: M, left: &mut Attributes<'a>) -> Result<Self, ViewError>
        ensures { Tells M.taking table_row fields left.old result };
}

/// The view of the instance of this number, whose keyword is one of these.
pub(crate) fn view<'a, M: Memory, V: Entity<'a, M>>(
    memory: M,
    file: &StepFile<'a>,
    number: u32,
    keywords: &[&[u8]],
) -> Result<V, ViewError>
    requires { map (λ k. k.now) keywords.now ≡ V.table_row.keywords }
    ensures { Views M.taking V.table_row V.fields file.now number result }
{
    let mut left = begin(file, number, keywords)?;
    V::read(memory, &mut left)
}
