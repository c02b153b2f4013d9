//! Worked rows of plan edges, their crossings, directions and abscissae, and the models of these rows.
//!
//! They stand above `sb_frame`, so that it is not proved again for them.
#![tactic(auto)]

mod headings;
mod models;
mod outlines;
#[cfg(test)]
mod rows;

pub use headings::{along_x, along_y, falling, rising};
pub use models::{crossing_slabs, fan, rooms, walls};
pub use outlines::{Outline, model_of, rectangle, triangle};
