//! Prints the IDF texts of worked lists, each behind a line that names it.
#![tactic(auto)]

mod lists;
mod models;

use crate::lists::{both_sides, children, ends_of_sides, ends_of_tops, names, rounded, ten_items};
use crate::models::{no_space, two_rooms};
use anyhow::bail;
use sb_idf_out::idf_text;
use sb_model::{Boundaries, End, Model};
use tests_lists::{Crossed, Entry, is_list_of, list_of, row};
use tests_model::{cube, left_of_crossing};

const NOTHING: [Crossed; 0] = [];

fn main(rt: HostRuntime) -> anyhow::Result<()> {
    show(rt, "no space", &no_space(rt.alloc())?, &[])?;
    show_rooms(rt)?;
    show_materials(rt)?;
    show_corners(rt)
}

/// The lists of two rooms with a wall between them.
fn show_rooms(rt: HostRuntime) -> anyhow::Result<()> {
    let rooms = two_rooms(rt.alloc())?;
    show(rt, "two spaces", &rooms, &[])?;
    show(rt, "a layered wall", &rooms, &both_sides())?;
    show(rt, "children", &rooms, &children())?;
    show(rt, "ends of sides", &rooms, &ends_of_sides())?;
    show(rt, "ends of tops", &rooms, &ends_of_tops())
}

/// Materials that differ in one thing or in none.
fn show_materials(rt: HostRuntime) -> anyhow::Result<()> {
    let rooms = two_rooms(rt.alloc())?;
    show(rt, "names and thicknesses", &rooms, &names())?;
    show(rt, "ten items", &rooms, &ten_items())?;
    show_list(
        rt,
        "thicknesses that round to one",
        &rooms,
        &rounded(rt.alloc())?,
    )
}

/// A patch of three corners.
fn show_corners(rt: HostRuntime) -> anyhow::Result<()> {
    let Some(cube) = cube(rt.alloc())? else {
        bail!("the cube is a model");
    };
    show(
        rt,
        "three corners",
        &cube,
        &[row(left_of_crossing(), &NOTHING, End::Outside)],
    )
}

/// Prints the text of the list of these boundaries behind its name.
fn show(rt: HostRuntime, name: &str, model: &Model, rows: &[Entry<'_>]) -> anyhow::Result<()> {
    show_list(rt, name, model, &list_of(rt.alloc(), rows)?)
}

/// Prints the text of a list behind its name.
fn show_list(
    rt: HostRuntime,
    name: &str,
    model: &Model,
    bounds: &Boundaries,
) -> anyhow::Result<()> {
    if !is_list_of(model, bounds) {
        bail!("a list is not one of its model");
    }
    let text = String::from_utf8(idf_text(rt.alloc(), model, bounds)?);
    let Ok(text) = text else {
        bail!("a text is not in UTF-8");
    };
    println!(rt; "== {name}")?;
    println!(rt; "{}", text.as_str())?;
    Ok(())
}
