ghost use Rattle.std.specs.Prelude.{◌≡◌};
ghost use Rattle.sb_schema.specs.declared.error.ViewError.TheVariants.{NoMemory};

use std::alloc::AllocError;
use thiserror::Error;

/// Why an instance has no view.
#[derive(Debug, Drop, Error)]
pub enum ViewError {
    /// No instance has this number.
    #[error("no instance has number {0}")]
    Missing(u32),
    /// The instance of this number has another keyword, or is complex.
    #[error("instance {0} is of another entity")]
    Other(u32),
    /// The instance of this number has too few attributes, or one that is read is not of its form.
    #[error("instance {0} has other attributes than its entity")]
    Fields(u32),
    /// There was no memory.
    #[error("no memory")]
    NoMemory,
}

impl From<AllocError> for ViewError {
    ghost from_gives = { λ _ e. e ≡ NoMemory };

    fn from(_error: AllocError) -> ViewError {
        ViewError::NoMemory
    }
}
