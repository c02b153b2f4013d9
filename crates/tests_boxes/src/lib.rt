//! Worked rows of the boundaries of a box, and of the generated model.
//!
//! They stand above the crates that they test, so that these are not proved again for them.
#![tactic(auto)]

#[cfg(test)]
mod boxes;
#[cfg(test)]
mod rooms;
