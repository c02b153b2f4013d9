//! Tests that cross crates: the worked rows of one box, from the words to the bytes of the report.
#![tactic(auto)]

#[cfg(test)]
mod generated;
mod steady;
#[cfg(test)]
mod tests;

pub use steady::run_without_faults;
