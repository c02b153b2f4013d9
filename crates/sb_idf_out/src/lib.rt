//! The IDF text: what an energy simulation reads (EnergyPlus 9.4, Input Output Reference).
//!
//! Coordinates and thicknesses are in metres, with six places. `specs/IdfText.antt` says which text that
//! is, `docs/idf.md` what it leaves out. Begin with [`idf_text`].
#![tactic(auto)]

mod corner_fields;
mod materials;
mod names;
mod surfaces;
mod table;
mod text;
mod uses;
mod windows;

pub use text::idf_text;
