//! The order of plan edges between two neighbouring abscissae of a direction: theory alone, no code.
//!
//! Start with `specs/Slabs.antt`: which edges span a slab, and what their order from below is.
#![tactic(auto)]
