//! Worked rows of solids that are judged once and moved.
//!
//! They stand above `sb_solid`, so that it is not proved again for them.
#![tactic(auto)]

#[cfg(test)]
mod shifts;
