//! Worked rows of what the model of a file is made of: frames and layerings.
//!
//! They stand above `sb_building`, so that it is not proved again for them.
#![tactic(auto)]

#[cfg(test)]
mod asked;
#[cfg(test)]
mod chains;
#[cfg(test)]
mod materials;
