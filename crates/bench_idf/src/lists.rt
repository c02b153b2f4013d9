//! The lists that are written.

use crate::kind::{Kind, has_own, items_of, shape_of};
use sb_fraction::Fraction;
use sb_model::{Boundaries, Boundary, End, Item, Items, Walk};
use std::alloc::{AllocError, Global};
use tests_lists::{patch_of, space_at};

/// So many boundaries over 512 spaces, with ends of all kinds in turn.
pub fn list_of(alloc: Global, kind: Kind, count: u32) -> Result<Boundaries, AllocError> {
    let mut list = Boundaries::new(alloc);
    for index in 0..count {
        list.push(boundary(alloc, kind, index)?)?;
    }
    Ok(list)
}

/// The boundary at this place, counted from 0. It is its own counterpart where it ends at a space.
fn boundary(alloc: Global, kind: Kind, index: u32) -> Result<Boundary, AllocError> {
    Ok(Boundary {
        patch: patch_of(shape_of(kind), space_at(index, 512)),
        walk: Walk {
            items: items(alloc, kind, index)?,
            depth: 100,
            end: end_of(index),
        },
        pair: Some(u64::from(index) + 1),
        parent: None,
        key: None,
    })
}

fn end_of(index: u32) -> End {
    match index % 4 {
        0 => End::Outside,
        1 => End::Space(1),
        2 => End::Earth,
        _ => End::Solid(1001),
    }
}

/// The items of a boundary, in no more memory than they need.
fn items(alloc: Global, kind: Kind, index: u32) -> Result<Items, AllocError> {
    let mut items = Items::new(alloc);
    for place in 0..items_of(kind) {
        items.push(Item {
            element: element_of(kind, index, place),
            layer: 0,
            thickness: Fraction::new(i128::from(thickness_of(kind, index, place)), 1),
        })?;
    }
    items.copy()
}

/// The element of an item.
fn element_of(kind: Kind, index: u32, place: u32) -> u32 {
    let behind = match kind {
        Kind::Short | Kind::Long => 0,
        Kind::Apart | Kind::Alike => index,
        _ => place,
    };
    behind.saturating_add(1001)
}

/// The thickness of an item in micrometres (µm).
fn thickness_of(kind: Kind, index: u32, place: u32) -> u32 {
    if place == 0 && has_own(kind) {
        index.saturating_add(1)
    } else {
        place.saturating_add(1000)
    }
}
