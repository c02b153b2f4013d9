//! The lists of the rows.

use sb_fraction::Fraction;
use sb_model::{Boundaries, Boundary, End, Item, Items, Patch, Walk};
use std::alloc::{AllocError, Global};
use tests_lists::{Crossed, Entry, child, on_ceiling, on_floor, on_side, paired, row};

const NOTHING: [Crossed; 0] = [];

const INSIDE: [Crossed; 3] = [(30, 1, 12_500), (30, 2, 75_000), (30, 3, 12_500)];

const OUTSIDE: [Crossed; 3] = [(30, 3, 12_500), (30, 2, 75_000), (30, 1, 12_500)];

/// One name of two thicknesses, and no name twice: of the plain element, and of a layer that is not there.
const NAMES: [Crossed; 4] = [
    (30, 1, 12_500),
    (30, 1, 13_000),
    (31, 0, 12_500),
    (30, 4, 12_500),
];

const TEN: [Crossed; 10] = [
    (30, 1, 12_500),
    (30, 2, 75_000),
    (30, 3, 12_500),
    (30, 1, 12_500),
    (30, 2, 80_000),
    (30, 3, 12_500),
    (30, 1, 12_500),
    (30, 2, 75_000),
    (31, 0, 100_000),
    (30, 1, 12_500),
];

/// The whole of side 0.
fn side() -> Patch {
    on_side(20, 0, 0, 4000, 0, 2500)
}

/// A part of it.
fn part() -> Patch {
    on_side(20, 0, 1000, 3000, 900, 2100)
}

/// The wall from both sides.
pub fn both_sides() -> [Entry<'static>; 2] {
    let inside = on_side(20, 1, 0, 3000, 0, 2500);
    let outside = on_side(21, 3, 0, 3000, 0, 2500);
    [
        paired(row(inside, &INSIDE, End::Space(21)), 2),
        paired(row(outside, &OUTSIDE, End::Space(20)), 1),
    ]
}

/// A floor, a ceiling and a wall without items, and children of the wall: a window, an opening that nothing
/// fills, a door with a counterpart; the items of the children are their own.
pub fn children() -> [Entry<'static>; 6] {
    [
        row(on_floor(20), &NOTHING, End::Earth),
        row(on_ceiling(20), &NOTHING, End::Outside),
        row(side(), &NOTHING, End::Outside),
        child(row(part(), &INSIDE, End::Outside), 3, 50),
        child(row(part(), &INSIDE, End::Outside), 3, 40),
        paired(child(row(part(), &OUTSIDE, End::Space(21)), 3, 51), 4),
    ]
}

/// A side under each of three ends.
pub fn ends_of_sides() -> [Entry<'static>; 3] {
    [
        row(side(), &NOTHING, End::Outside),
        row(side(), &NOTHING, End::Earth),
        row(side(), &NOTHING, End::Solid(30)),
    ]
}

/// A top under each of four ends.
pub fn ends_of_tops() -> [Entry<'static>; 4] {
    [
        row(on_ceiling(20), &NOTHING, End::Outside),
        row(on_ceiling(20), &NOTHING, End::Earth),
        row(on_ceiling(20), &NOTHING, End::Solid(30)),
        paired(row(on_ceiling(20), &NOTHING, End::Space(21)), 1),
    ]
}

/// Materials of one name and two thicknesses, and of no name.
pub fn names() -> [Entry<'static>; 1] {
    [row(side(), &NAMES, End::Outside)]
}

/// Ten items twice, and the first three of them.
pub fn ten_items() -> [Entry<'static>; 3] {
    [
        row(side(), &TEN, End::Outside),
        row(side(), &TEN, End::Outside),
        row(side(), &INSIDE, End::Outside),
    ]
}

/// Three items of one name whose thicknesses round to 12,501 µm: 12,500.5, 12,501 and 12,501 and a third.
pub fn rounded(alloc: Global) -> Result<Boundaries, AllocError> {
    let mut items = Items::new(alloc);
    items.push(plaster(Fraction::new(25_001, 2)))?;
    items.push(plaster(Fraction::new(12_501, 1)))?;
    items.push(plaster(Fraction::new(37_504, 3)))?;
    let mut list = Boundaries::new(alloc);
    list.push(Boundary {
        patch: side(),
        walk: Walk {
            items,
            depth: 100,
            end: End::Outside,
        },
        pair: None,
        parent: None,
        key: None,
    })?;
    Ok(list)
}

fn plaster(thickness: Fraction) -> Item {
    Item {
        element: 30,
        layer: 1,
        thickness,
    }
}
