//! The models whose boundaries are written.

use crate::kind::{Kind, length_of, shape_of, spaces_in};
use sb_fraction::Unit;
use sb_model::Model;
use std::alloc::{AllocError, Global};
use tests_lists::spaces_of;
use tests_model::{elements, fillings, openings};

/// Spaces #1, #2 and so on of one shape, the elements #1001 and #1002, two openings of the first and a
/// window in the second of them.
pub fn model(alloc: Global, kind: Kind) -> Result<Model, AllocError> {
    let made = Model::new(
        alloc,
        Unit::Millimetre,
        0,
        1000,
        spaces_of(alloc, shape_of(kind), spaces_in(kind), length_of(kind))?,
        elements(alloc, &[1001, 1002])?,
        openings(alloc, &[(1003, 1001), (1004, 1001)])?,
        fillings(alloc, &[(1005, 1004)])?,
    );
    match made {
        Ok(model) => Ok(model),
        Err(_) => Err(AllocError),
    }
}
