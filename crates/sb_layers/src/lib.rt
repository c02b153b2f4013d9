//! What lies behind a patch, layer by layer: the axis that an element's layers follow, and what a
//! straight way through an element crosses.
//!
//! Begin with [`crossed`]. `docs/definitions.md` says in words what the items of a crossing are.
#![tactic(auto)]

mod axis;
mod crossing;
mod edges;
mod parts;
mod thickness;

pub use axis::axis_of;
pub use crossing::crossed;
