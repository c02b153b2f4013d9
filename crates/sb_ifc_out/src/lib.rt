//! The IFC text: the input with its boundaries added as IfcRelSpaceBoundary2ndLevel (ISO 16739).
//!
//! `specs/IfcText.antt` says which text that is. Begin with [`ifc_text`].
#![tactic(auto)]

mod boundary;
mod guids;
mod in_space;
mod lines;
mod names;
mod numbers;
mod places;
mod relation;
mod surface;
mod writing;

pub use guids::guid;
pub use writing::ifc_text;
