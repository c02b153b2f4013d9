ghost use Rattle.std.specs.Prelude.{◌≡◌};
ghost use Rattle.sb_prism.specs.declared.error.PrismError.TheVariants.{NoMemory};
ghost use Rattle.sb_prism.specs.Errors.{of_solid};

use sb_solid::SolidError;
use std::alloc::AllocError;
use thiserror::Error;

/// Why a shape gives no prism.
#[derive(Debug, Drop, Error)]
pub enum PrismError {
    /// The solid's position or its rectangle's is turned by no quarters.
    #[error("the solid is turned by no quarters")]
    Turned,
    /// It is no Body of one extruded solid of the three profiles.
    #[error("the shape is none of those that are read")]
    Shape,
    /// A length or a world coordinate is out of range.
    #[error("the solid is out of range")]
    Range,
    /// A world coordinate lies more than 10 µm from every whole millimetre.
    #[error("the solid is off the grid")]
    OffGrid,
    /// The loops are flat or knotted, the heights are equal, or an upright profile is no rectangle.
    #[error("the profile gives no plan")]
    Loops,
    /// The instance of this number is not of the row of its entity.
    #[error("instance {0} has other attributes than its entity")]
    Fields(u32),
    /// No instance has this number.
    #[error("no instance has number {0}")]
    Missing(u32),
    /// There was no memory.
    #[error("no memory")]
    NoMemory,
}

impl From<AllocError> for PrismError {
    ghost from_gives = { λ _ e. e ≡ NoMemory };

    fn from(_error: AllocError) -> PrismError {
        PrismError::NoMemory
    }
}

impl From<SolidError> for PrismError {
    ghost from_gives = { λ e p. p ≡ of_solid e };

    fn from(error: SolidError) -> PrismError {
        match error {
            SolidError::Range => PrismError::Range,
            SolidError::OffGrid => PrismError::OffGrid,
            SolidError::Loops => PrismError::Loops,
            SolidError::NoMemory => PrismError::NoMemory,
        }
    }
}
