// What a reference leads to.
ghost use Rattle.std.specs.Prelude.{◌≡◌, ℕ, List, slice_get, IfOk};
ghost use Rattle.sb_step.specs.Indexed.{Indexed};
ghost use Rattle.sb_schema.specs.Table.{Row, Values};
ghost use Rattle.sb_schema.specs.Views.{Views, Taking};
ghost use Rattle.sb_place.specs.Sight as spec;
ghost use Rattle.sb_place.specs.Steps.{seen_of};

use sb_schema::ViewError;
use std::alloc::AllocError;

/// What is seen of an instance, where one of a certain entity is wanted.
#[derive(Drop)]
pub enum Seen<V> {
    /// No instance has this number.
    Absent(u32),
    /// The instance of this number is of the entity, and its attributes are not.
    Broken(u32),
    /// The instance is of another entity, or complex.
    Other,
    /// What its attributes show.
    Shown(V),
}

/// What is seen by a view of an instance: its one fault, or its attributes. `Err` exactly where the view
/// wanted memory.
pub fn sighted<V: Drop>(view: Result<V, ViewError>) -> Result<Seen<V>, AllocError>
    ensures value { result ≡ seen_of view }
    ensures seen { (taking : Taking) (row : Row) (fields : V → Values row.read) (indexed : Indexed) (n : ℕ)
        → Views taking row fields indexed n view → IfOk result (λ s. spec.IsSeen row indexed n fields s) }
{
    seen_by(view)
}

fn seen_by<V: Drop>(view: Result<V, ViewError>) -> Result<Seen<V>, AllocError>
    ensures { result ≡ seen_of view }
{
    match view {
        Ok(v) => Ok(Seen::Shown(v)),
        Err(ViewError::Missing(n)) => Ok(Seen::Absent(n)),
        Err(ViewError::Other(_)) => Ok(Seen::Other),
        Err(ViewError::Fields(n)) => Ok(Seen::Broken(n)),
        Err(ViewError::NoMemory) => Err(AllocError),
    }
}

impl<V> Seen<V> {
    /// The number that no instance has.
    pub fn absent(&self) -> Option<u32>
        ensures { result ≡ slice_get (spec.absent_at self.now) 0 }
    {
        match self {
            Seen::Absent(n) => Some(*n),
            _ => None,
        }
    }

    /// The number of the instance that is not of its row.
    pub fn broken(&self) -> Option<u32>
        ensures { result ≡ slice_get (spec.broken_at self.now) 0 }
    {
        match self {
            Seen::Broken(n) => Some(*n),
            _ => None,
        }
    }

    /// Whether the instance is of another entity.
    pub fn is_other(&self) -> bool
        ensures { result ≡ spec.is_other self.now }
    {
        matches!(self, Seen::Other)
    }
}
