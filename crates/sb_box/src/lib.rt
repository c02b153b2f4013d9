//! The boundaries of one box-shaped space in the open, with nothing near it: one for each face, two
//! for a side that the ground cuts.
//!
//! Read `specs/BoxList.antt` first: it says which patches stand on each face and what lies behind
//! them. `specs/BoxModel.antt` says of which models the list is true.
#![tactic(auto)]

mod boundaries;
mod extent;

pub use boundaries::box_boundaries;
pub use extent::Extent;
