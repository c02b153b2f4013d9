//! What is read of the file of a building, and its first defect.
//!
//! Read `specs/Contents.antt` first, what a file says, then `specs/Products.antt`, which products are
//! taken, `specs/Following.antt`, which instances are read, and `specs/Defects.antt`, what is a defect.
#![tactic(auto)]

mod defects;
mod first;
mod following;
mod laws;
mod reading;
mod seeing;
mod seen;
mod sights;
mod tables;

pub use crate::defects::{Code, Defect};
pub use crate::first::{Taken, Verdict, first_defect, judge};
pub use crate::following::places::Place;
pub use crate::laws::{each_file_says, one_first_defect};
pub use crate::reading::links::Link;
pub use crate::reading::products::Shaped;
