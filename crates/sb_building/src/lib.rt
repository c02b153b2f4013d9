//! The model of a file: what of it is built. The frames of its products, each placement read once, and the
//! law that what is at fault where a product is read is a defect of the file.
//!
//! Read `specs/Placings.antt` first, where a product stands and which prism it fills, then
//! `specs/Models.antt`, the model of a file.
#![tactic(auto)]

mod frames;
mod judging;
mod laws;
mod lists;
mod made;
mod materials;
mod once;

pub use crate::frames::{Placements, frame_in, no_placements};
pub use crate::laws::{least_of_products, one_first_of_all, one_model, products_are_read};
pub use crate::made::{Along, LayerAxis, Made};
pub use crate::materials::made_of;
pub use crate::once::{Materials, layering_of, no_materials};
