//! Which vertical prism a product fills: from the entities of its shape (ISO 16739) to its plan and its
//! heights.
//!
//! Read `specs/Shapes.antt` first, what is read of a shape, and `specs/Prisms.antt`, what is answered of it.
#![tactic(auto)]

mod error;
mod faults;
mod items;
mod kept;
mod laws;
mod measure;
mod picked;
mod prism;
mod reading;
mod sections;
mod sound;
mod spot;

pub use crate::error::PrismError;
pub use crate::items::shapes::shape_at;
pub use crate::kept::{Extrusion, Kept};
pub use crate::laws::{points_lie_across, solids_move};
pub use crate::prism::prism_of;
pub use sb_solid::{GridError, Judged, SolidError, one_millimetre, snap};
