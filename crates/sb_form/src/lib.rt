//! The first form of the input: one fixed exchange text (ISO 10303-21) that holds six numbers and
//! means one box-shaped space. Read `specs/FirstForm.antt` first: it gives the text line by line.
#![tactic(auto)]

mod building;
mod laws;
mod matcher;
mod meaning;
mod number;

pub use building::{SPACE, model};
pub use laws::forms_are_texts;
pub use matcher::{FirstForm, first_form};
pub use meaning::{Defect, extent_of};
