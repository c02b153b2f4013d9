//! Worked rows of spaces that overlap over slabs, and of walks up and down.
//!
//! They stand above `sb_walk`, so that its proofs are not done again for them.
#![tactic(auto)]

mod rooms;
#[cfg(test)]
mod rows;
mod told;
mod walks;

pub use rooms::{Height, Room, plain_room, with_hole};
pub use told::{NONE, are_overlaps};
pub use walks::{Wanted, is_told};
