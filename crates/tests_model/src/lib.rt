//! Worked rows of the model: numbers of products, labels of points, turns and frames.
//!
//! They stand above `sb_model`, so that its own proofs are not done again for them.
#![tactic(auto)]

mod building;
#[cfg(test)]
mod corner_rows;
mod house;
mod patches;
#[cfg(test)]
mod tests;
mod wedges;

pub use building::{elements, fillings, openings, spaces};
pub use house::{height, storey};
pub use patches::{left_of_crossing, names_face, right_of_crossing, slanted_side};
pub use wedges::{cube, wedge};
