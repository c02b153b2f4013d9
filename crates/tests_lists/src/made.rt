//! Lists of boundaries made by hand.

use sb_fraction::Fraction;
use sb_model::{Boundaries, Boundary, End, Item, Items, Patch, Walk};
use std::alloc::{AllocError, Global};

/// A crossed layer: its element, its place in the element's set or 0, and its thickness in whole
/// micrometres (µm).
pub type Crossed = (u32, u32, u32);

/// What a boundary of a list is made of.
#[derive(Clone, Copy)]
pub struct Entry<'a> {
    pub patch: Patch,
    pub items: &'a [Crossed],
    pub end: End,
    pub pair: Option<u64>,
    pub parent: Option<u64>,
    pub key: Option<u32>,
}

/// A row without a pair and without a parent.
pub fn row<'a>(patch: Patch, items: &'a [Crossed], end: End) -> Entry<'a> {
    Entry {
        patch,
        items,
        end,
        pair: None,
        parent: None,
        key: None,
    }
}

/// The same with this counterpart.
pub fn paired<'a>(row: Entry<'a>, pair: u64) -> Entry<'a> {
    Entry {
        pair: Some(pair),
        ..row
    }
}

/// The same as a child of the boundary with this id.
pub fn child<'a>(row: Entry<'a>, parent: u64, key: u32) -> Entry<'a> {
    Entry {
        parent: Some(parent),
        key: Some(key),
        ..row
    }
}

/// The list of these boundaries, each at a depth of 100.
pub fn list_of(alloc: Global, rows: &[Entry<'_>]) -> Result<Boundaries, AllocError> {
    let mut list = Boundaries::new(alloc);
    for row in rows {
        let made = boundary(alloc, row)?;
        list.push(made)?;
    }
    Ok(list)
}

fn boundary(alloc: Global, row: &Entry<'_>) -> Result<Boundary, AllocError> {
    let items = items(alloc, row.items)?;
    Ok(Boundary {
        patch: row.patch,
        walk: Walk {
            items,
            depth: 100,
            end: row.end,
        },
        pair: row.pair,
        parent: row.parent,
        key: row.key,
    })
}

fn items(alloc: Global, crossed: &[Crossed]) -> Result<Items, AllocError> {
    let mut items = Items::new(alloc);
    for layer in crossed {
        items.push(Item {
            element: layer.0,
            layer: layer.1,
            thickness: Fraction::new(i128::from(layer.2), 1),
        })?;
    }
    Ok(items)
}
