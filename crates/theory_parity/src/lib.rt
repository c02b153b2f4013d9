//! Inside a plan, read along any direction, and whole regions that lie inside one. Theory alone: the
//! functions have no body, their contracts are the laws.
//!
//! Start with `specs/Below.antt`: which edges lie below a point. The laws are in `specs/Laws.antt`.
#![tactic(auto)]

pub mod laws;
pub mod sides;
