//! The plans of solids: the edges of closed loops, which points lie inside a plan, and which lists
//! of points are loops. Theory alone, no code.
//!
//! Start with `specs/Inside.antt`: inside is an odd number of crossed edges.
#![tactic(auto)]
