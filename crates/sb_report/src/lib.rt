//! The report: a list of boundaries and its model, as one compact object of JSON.
//!
//! Coordinates are in millimetres (mm) and thicknesses in micrometres (µm); a fraction is a string.
//! `specs/Report.antt` says which text that is. Begin with [`report_text`].
#![tactic(auto)]

mod corner;
mod entry;
mod item;
mod report;
mod strings;
#[cfg(test)]
mod tests;
mod unit;

pub use report::report_text;
