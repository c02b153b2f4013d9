//! What a slab tells of the faces over it: the spaces that overlap there.
//!
//! Begin with [`overlap`]. `specs/Overlaps.antt` says in words what it answers.
#![tactic(auto)]

mod behind;
mod cells;
mod columns;
mod gaps;
mod heights;
mod laws;
mod levels;
mod pairs;
mod present;
mod reading;
mod sides;
mod strip;
mod way;

pub use laws::cells_have_points;
pub use levels::level_walk;
pub use pairs::overlap;
pub use way::Way;
