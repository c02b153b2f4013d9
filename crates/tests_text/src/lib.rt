//! Worked rows of the exchange text and of the views of its entities.
//!
//! They stand above the crates that they test, so that these are not proved again for them.
#![tactic(auto)]

#[cfg(test)]
mod cursors;
#[cfg(test)]
mod files;
#[cfg(test)]
mod parameters;
#[cfg(test)]
mod tokens;
#[cfg(test)]
mod views;
