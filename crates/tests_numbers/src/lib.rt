//! Worked rows of the layers below the model: lists, edges in the plane, decimals, and what writers append.
//!
//! They stand above the crates that they test, so that these are not proved again for them.
#![tactic(auto)]

#[cfg(test)]
mod decimals;
#[cfg(test)]
mod edges;
#[cfg(test)]
mod lists;
#[cfg(test)]
mod texts;
