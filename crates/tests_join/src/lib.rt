//! Worked rows of the joiner.
//!
//! They stand above `sb_join`, so that it is not proved again for them.
#![tactic(auto)]

#[cfg(test)]
mod strips;
