//! The lists that are written.

use crate::kind::{Kind, shape_of, spaces_in};
use sb_fraction::Fraction;
use sb_model::{Boundaries, Boundary, End, Item, Items, Walk};
use std::alloc::{AllocError, Global};
use tests_lists::{patch_of, space_at};

/// What stands behind a boundary, and what it is tied to.
#[derive(Clone, Copy)]
struct Meeting {
    item: Option<u32>,
    end: End,
    pair: Option<u64>,
    parent: Option<u64>,
    key: Option<u32>,
}

/// So many boundaries over all spaces: ends of all kinds, children and counterparts in turn.
pub fn list_of(alloc: Global, kind: Kind, count: u32) -> Result<Boundaries, AllocError> {
    let mut list = Boundaries::new(alloc);
    for index in 0..count {
        list.push(boundary(alloc, kind, index)?)?;
    }
    Ok(list)
}

/// The boundary at this place, counted from 0.
fn boundary(alloc: Global, kind: Kind, index: u32) -> Result<Boundary, AllocError> {
    let behind = behind(index);
    Ok(Boundary {
        patch: patch_of(shape_of(kind), space_at(index, u32::from(spaces_in(kind)))),
        walk: Walk {
            items: items(alloc, behind.item)?,
            depth: 100,
            end: behind.end,
        },
        pair: behind.pair,
        parent: behind.parent,
        key: behind.key,
    })
}

fn items(alloc: Global, element: Option<u32>) -> Result<Items, AllocError> {
    let mut items = Items::new(alloc);
    if let Some(element) = element {
        items.push(Item {
            element,
            layer: 0,
            thickness: Fraction::new(100_000, 1),
        })?;
    }
    Ok(items)
}

/// Eight boundaries in turn: a wall with two children, two counterparts, two solid ends and the earth.
fn behind(index: u32) -> Meeting {
    let before = u64::from(index);
    match index % 8 {
        1 => tied(Some(1001), End::Outside, None, Some(before), Some(1005)),
        2 => tied(
            Some(1001),
            End::Outside,
            None,
            Some(before.saturating_sub(1)),
            Some(1003),
        ),
        3 => tied(Some(1001), End::Space(1), Some(before + 2), None, None),
        4 => tied(Some(1001), End::Space(1), Some(before), None, None),
        5 => tied(None, End::Solid(1002), None, None, None),
        6 => tied(Some(1002), End::Solid(1002), None, None, None),
        7 => tied(None, End::Earth, None, None, None),
        _ => tied(Some(1001), End::Outside, None, None, None),
    }
}

fn tied(
    item: Option<u32>,
    end: End,
    pair: Option<u64>,
    parent: Option<u64>,
    key: Option<u32>,
) -> Meeting {
    Meeting {
        item,
        end,
        pair,
        parent,
        key,
    }
}
