//! Loops of plan points that are moved as a whole. Theory alone: the function has no body, its contract
//! is the laws.
//!
//! Start with `specs/Shifts.antt`; `specs/Laws.antt` says what moves with the loops.
#![tactic(auto)]

pub mod laws;
