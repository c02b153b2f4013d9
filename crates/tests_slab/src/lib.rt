//! Worked rows of the slabs of a direction and of the orders in them.
//!
//! They stand above `sb_slab`, so that it is not proved again for them.
#![tactic(auto)]

mod orders;
#[cfg(test)]
mod rows;

pub use orders::{END, NONE, are_orders};
