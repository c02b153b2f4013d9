//! The plan of loops as they are handed in, in any sense and with doubled points.
//!
//! Points that are not needed are dropped in one pass with a stack, each loop is begun at its least
//! point, and turned so that the solid lies on its left. `theory_loops` says what the answer is,
//! and `sb_knots` finds knots and senses. Begin with [`plan_of`].
#![tactic(auto)]

mod beginning;
mod bends;
mod error;
mod normalising;
mod planning;
mod straightening;
mod turning;

pub use error::LoopError;
pub use planning::plan_of;
pub use sb_knots::{PointLists, Points};
