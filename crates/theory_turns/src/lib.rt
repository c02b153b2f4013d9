//! Turns of space that take each axis to a signed axis and keep handedness: theory alone, no code.
//!
//! Start with `specs/Turns.antt`: which two directions are a turn, and where it takes a vector.
#![tactic(auto)]
