//! Worked rows of loops and their plans, and of lists in blocks.
//!
//! They stand above the crates that they test, so that these are not proved again for them.
#![tactic(auto)]

#[cfg(test)]
mod in_blocks;
#[cfg(test)]
mod plans;
