//! Loops as they are handed in, and the one plan or refusal that comes of them. Theory alone: the
//! functions have no body, their contracts are the laws.
//!
//! Start with `specs/Normal.antt`: which points are dropped. `specs/Answers.antt` says which of the
//! three answers loops get, `specs/Laws.antt` the laws.
#![tactic(auto)]

pub mod laws;
