//! The texts of files and lists.

use crate::lists::listed;
use crate::models::model_of;
use crate::rows::Row;
use anyhow::bail;
use sb_ifc_out::{guid, ifc_text};
use sb_model::{Boundaries, Model};
use sb_shelf::{HostShelf, read_all};
use sb_step::index;
use std::alloc::Global;
use tests_lists::is_list_of;

/// Prints the identifier of a number behind a name.
pub fn show_identifier(rt: HostRuntime, name: &str, number: u128) -> anyhow::Result<()> {
    print(rt, name, Vec::from_slice(rt.alloc(), &guid(number))?)
}

/// Prints the text of a row behind its name.
pub fn show(rt: HostRuntime, row: &Row) -> anyhow::Result<()> {
    let model = model_of(rt.alloc(), row.model)?;
    let bounds = listed(rt.alloc(), row.list)?;
    let bytes = read_all(rt.alloc(), &mut HostShelf::new(rt), row.path)?;
    print(rt, row.name, text_of(rt.alloc(), &bytes, &model, &bounds)?)
}

/// The text of a file and a list.
fn text_of(
    alloc: Global,
    bytes: &[u8],
    model: &Model,
    bounds: &Boundaries,
) -> anyhow::Result<Vec<u8>> {
    if !is_list_of(model, bounds) {
        bail!("a list is not one of its model");
    }
    let file = index(alloc, bytes)?;
    Ok(ifc_text(alloc, bytes, &file, model, bounds)?)
}

/// Prints a text behind a name.
fn print(rt: HostRuntime, name: &str, text: Vec<u8>) -> anyhow::Result<()> {
    let Ok(text) = String::from_utf8(text) else {
        bail!("a text is not in UTF-8");
    };
    println!(rt; "== {name}")?;
    println!(rt; "{}", text.as_str())?;
    Ok(())
}
