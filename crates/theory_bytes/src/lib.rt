//! Laws of byte strings: sets of them, runs, pieces that join, insides. Theory alone, no code.
//!
//! Start with `specs/Sets.antt`, which says what a set of byte strings is and how sets are put
//! together; `proofs/Lib.antt` lists the laws by topic.
#![tactic(auto)]
