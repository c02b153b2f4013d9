//! Worked rows of the layers of one element.
//!
//! They stand above `sb_layers`, so that it is not proved again for them.
#![tactic(auto)]

#[cfg(test)]
mod rows;
mod walls;

pub use walls::{layered_wall, plain_wall};
