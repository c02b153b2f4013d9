//! Where rational points lie: inside a plan and between heights; and which way edges run.
//!
//! All is exact within 128 bits: the coordinates of a point are at most 10^18 over 2·10^12, those of
//! plan points and heights at most 500,000 mm.
#![tactic(auto)]

mod heading;
mod heights;
mod seen;
mod within;

pub use heading::{Heading, heading_of};
pub use heights::contains;
pub use within::is_inside;
