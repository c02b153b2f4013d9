ghost use Rattle.std.specs.Prelude.{◌≡◌};
ghost use Rattle.sb_solid.specs.declared.error.SolidError.TheVariants.{NoMemory};

use std::alloc::AllocError;
use thiserror::Error;

/// Why an extruded solid gives no prism where it lies.
#[derive(Debug, Drop, Error)]
pub enum SolidError {
    /// A world coordinate lies more than 500 m and 10 µm from the origin.
    #[error("the solid is out of range")]
    Range,
    /// A world coordinate lies more than 10 µm from every whole millimetre.
    #[error("the solid is off the grid")]
    OffGrid,
    /// The loops are flat or knotted, the ends lie at one height, or an upright profile is no rectangle.
    #[error("the profile gives no plan")]
    Loops,
    /// There was no memory.
    #[error("no memory")]
    NoMemory,
}

impl From<AllocError> for SolidError {
    ghost from_gives = { λ _ e. e ≡ NoMemory };

    fn from(_error: AllocError) -> SolidError {
        SolidError::NoMemory
    }
}
