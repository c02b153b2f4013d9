//! Exact decimals: the number that a token of an exchange text (ISO 10303-21) writes, lengths and
//! ratios read from it, fractions rounded, and numbers with places printed.
//!
//! Read `specs/Decimals.antt` and `specs/Rounding.antt` first: which number a text writes, and what
//! rounding is. Begin with [`nanometres`]. Whatever the length of a text, no number here leaves 128
//! bits and no loop is longer than the text.
#![tactic(auto)]

mod digits;
mod laws;
mod lengths;
mod parts;
mod printing;
mod reading;
mod rounding;

pub use laws::{printed_is_read_back, rounding_is_one_number, tokens_are_decimals};
pub use lengths::{OutOfRange, micrometres, nanometres, ratio};
pub use printing::print_scaled;
pub use rounding::{round_micro, round_nano, round_whole};
