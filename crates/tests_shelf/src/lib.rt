//! Worked rows of what is read and written, with faults in mid-stream.
//!
//! They stand above the crates that they test, so that these are not proved again for them.
#![tactic(auto)]

#[cfg(test)]
mod shelves;
