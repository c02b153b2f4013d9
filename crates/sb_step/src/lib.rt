//! The exchange text (ISO 10303-21, the STEP file): its instances by number, or the exact place of
//! its fault.
#![tactic(auto)]

mod cursor;
mod error;
mod forms;
mod indexing;
mod kinds;
mod laws;
mod parameters;
mod passing;
mod step_file;

pub use crate::cursor::{Cursor, Instance};
pub use crate::error::{ParamsError, StepError};
pub use crate::forms::Typed;
pub use crate::indexing::index;
pub use crate::laws::{one_file_or_one_fault, one_list_of_parameters};
pub use crate::parameters::param::{Param, Params};
pub use crate::parameters::params;
pub use crate::step_file::StepFile;
pub use crate::step_file::records::{Form, Record};
