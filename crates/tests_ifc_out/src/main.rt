//! Prints the IFC texts of worked lists, each behind a line that names it.
#![tactic(auto)]

mod lists;
mod models;
mod rows;
mod texts;

use crate::rows::ROWS;
use crate::texts::{show, show_identifier};

fn main(rt: HostRuntime) -> anyhow::Result<()> {
    show_identifier(rt, "the identifier of 0", 0)?;
    show_identifier(rt, "that of the greatest number", u128::MAX)?;
    for row in ROWS.iter() {
        show(rt, row)?;
    }
    Ok(())
}
