//! An extruded solid that is turned by quarters: judged once, and its prism wherever it is moved.
//!
//! Read `specs/Solids.antt` first, what is answered of a solid that is moved, and `specs/Judged.antt`, what
//! is kept of it for all shifts. Begin with [`judge`].
#![tactic(auto)]

mod base;
mod boxes;
mod counting;
mod error;
mod extents;
mod grid;
mod judged;
mod judging;
mod moving;
mod placing;
mod points;
mod spans;
mod spot;
mod turning;

pub use crate::error::SolidError;
pub use crate::grid::{GridError, one_millimetre, snap};
pub use crate::judged::Judged;
pub use crate::judging::judge;
pub use crate::spot::{Spot, Spots};
