//! Where a product stands: the frame of a chain of placements (IfcLocalPlacement of ISO 16739), exact
//! from the decimals of the file on.
//!
//! Read `specs/Chains.antt` first, which placements a chain has and how their frames are composed, and
//! `specs/Judgement.antt`, what is answered of it.
#![tactic(auto)]

mod directions;
mod error;
mod frames;
mod kept;
mod laws;
mod placed;
mod position;
mod reading;
mod sight;

pub use crate::directions::axis_of;
pub use crate::error::PlaceError;
pub use crate::frames::frame_of;
pub use crate::kept::{Placed, Sighting};
pub use crate::laws::one_chain;
pub use crate::placed::placed_on;
pub use crate::position::{Local, Position, told};
pub use crate::reading::{plan_position, space_position};
pub use crate::sight::{Seen, sighted};
