//! The edges of loops in their order from below, as a line passes over the plan. Theory alone: the
//! functions have no body, their contracts are the laws.
//!
//! Start with `specs/Passing.antt`: when the line passes a point. `specs/Open.antt` says which edges it
//! stands over, and in which order; `specs/Laws.antt` the laws.
#![tactic(auto)]

pub mod laws;
