//! The plan edges of a model, their crossings, and the abscissae of a direction.
//!
//! Begin with [`PlanEdges::new`]. `docs/definitions.md` says in words what a plan edge, a crossing
//! and an abscissa are; `specs/Network.antt` says what a list of them is.
#![tactic(auto)]

mod abscissa;
mod abscissae;
mod cell;
mod crossing;
mod edge;
mod finding;
mod found;
mod network;
mod owners;
mod reading;
mod seen;
mod sides;
mod slab;
mod through;

pub use abscissae::Fractions;
pub use edge::PlanEdge;
pub use network::{EdgesError, HPoints, PlanEdges};
pub use sides::{Directions, directions};
pub use slab::{Indices, Slab};
