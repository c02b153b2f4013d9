//! The pass over a file and a list.

use anyhow::bail;
use sb_ifc_out::ifc_text;
use sb_model::{Boundaries, Model};
use sb_step::index;
use std::alloc::Global;
use tests_lists::is_list_of;

/// How far to go, and what is said.
#[derive(Clone, Copy)]
pub enum Pass {
    /// The file is read and indexed, and the list is made.
    List,
    /// The text is made too.
    Text,
    /// And printed.
    Print,
}

/// The pass of this name.
pub fn pass_of(word: &str) -> Pass {
    match word {
        "list" => Pass::List,
        "text" => Pass::Text,
        _ => Pass::Print,
    }
}

/// The text of a file and a list, where it is asked for.
pub fn written(
    alloc: Global,
    pass: Pass,
    bytes: &[u8],
    model: &Model,
    bounds: &Boundaries,
) -> anyhow::Result<Vec<u8>> {
    if !is_list_of(model, bounds) {
        bail!("the list is not one of the model");
    }
    let file = index(alloc, bytes)?;
    match pass {
        Pass::List => Ok(Vec::new(alloc)),
        Pass::Text | Pass::Print => Ok(ifc_text(alloc, bytes, &file, model, bounds)?),
    }
}
