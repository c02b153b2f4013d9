ghost use Rattle.std.specs.Prelude.{◌≡◌};
ghost use Rattle.sb_place.specs.declared.error.PlaceError.TheVariants.{NoMemory};

use std::alloc::AllocError;
use thiserror::Error;

/// Why a chain of placements gives no frame.
#[derive(Debug, Drop, Error)]
pub enum PlaceError {
    /// The chain does not end at the building, is too long, or has an instance of another entity.
    #[error("the chain of placements is broken off")]
    Chain,
    /// A direction lies along no axis, or Axis and RefDirection lie along one.
    #[error("a placement is turned by no quarters")]
    Turned,
    /// A coordinate or the whole shift is out of range.
    #[error("a placement is out of range")]
    Range,
    /// The instance of this number is not of the row of its entity.
    #[error("instance {0} has other attributes than its entity")]
    Fields(u32),
    /// No instance has this number.
    #[error("no instance has number {0}")]
    Missing(u32),
    /// There was no memory.
    #[error("no memory")]
    NoMemory,
}

impl From<AllocError> for PlaceError {
    ghost from_gives = { λ _ e. e ≡ NoMemory };

    fn from(_error: AllocError) -> PlaceError {
        PlaceError::NoMemory
    }
}
