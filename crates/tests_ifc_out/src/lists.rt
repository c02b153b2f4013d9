//! The lists of the rows.

use sb_model::{Boundaries, End, Patch};
use std::alloc::{AllocError, Global};
use tests_lists::{
    Crossed, Entry, below_ground, child, from_half, from_minus_half, list_of, on_ceiling, on_floor,
    on_side, paired, row, shallow_part, shallow_rest,
};
use tests_model::{left_of_crossing, right_of_crossing, slanted_side};

/// Which list.
#[derive(Clone, Copy)]
pub enum Listing {
    /// No boundary.
    Empty,
    /// One boundary of side 1.
    One,
    /// The six boundaries of a box.
    Six,
    /// The same of space #32, with a wall behind side 1.
    Walled,
    /// Children, counterparts and ends of all kinds.
    Mixed,
    /// A wall of three layers from both sides.
    Both,
    /// Two sides that meet in a corner.
    Mitred,
    /// A side below the ground and above it.
    Cut,
    /// Patches of three corners.
    Crossing,
    /// A slanted side that runs against its direction.
    Falling,
    /// A slanted side that runs along its direction.
    Rising,
    /// A side of a small slope in two parts.
    Shallow,
    /// Sides that begin at half a nanometre.
    Halves,
}

/// The list of a row.
pub fn listed(alloc: Global, which: Listing) -> Result<Boundaries, AllocError> {
    match which {
        Listing::Empty => Ok(Boundaries::new(alloc)),
        Listing::One => list_of(alloc, &one()),
        Listing::Six => list_of(alloc, &six()),
        Listing::Walled => list_of(alloc, &behind_a_wall()),
        Listing::Mixed => list_of(alloc, &mixed()),
        Listing::Both => list_of(alloc, &both_sides()),
        Listing::Mitred => list_of(alloc, &mitred()),
        Listing::Cut => list_of(alloc, &at_the_ground()),
        Listing::Crossing => list_of(alloc, &crossing()),
        Listing::Falling => list_of(alloc, &falling()),
        Listing::Rising => list_of(alloc, &rising()),
        Listing::Shallow => list_of(alloc, &shallow()),
        Listing::Halves => list_of(alloc, &halves()),
    }
}

const NOTHING: [Crossed; 0] = [];

const WALL_25: [Crossed; 1] = [(25, 0, 100_000)];

const WALL_30: [Crossed; 1] = [(30, 0, 100_000)];

const WALL_31: [Crossed; 1] = [(31, 0, 100_000)];

const BEVELLED: [Crossed; 1] = [(30, 0, 141_421)];

const INSIDE: [Crossed; 3] = [(30, 1, 12_500), (30, 2, 75_000), (30, 3, 12_500)];

const OUTSIDE: [Crossed; 3] = [(30, 3, 12_500), (30, 2, 75_000), (30, 1, 12_500)];

/// The whole of side 1 of space #20.
fn side() -> Patch {
    on_side(20, 1, 0, 3000, 0, 2500)
}

/// The six boundaries of a box.
fn six() -> [Entry<'static>; 6] {
    [
        row(on_floor(20), &NOTHING, End::Earth),
        row(on_ceiling(20), &NOTHING, End::Outside),
        row(on_side(20, 0, 0, 4000, 0, 2500), &NOTHING, End::Outside),
        row(on_side(20, 1, 0, 3000, 0, 2500), &NOTHING, End::Outside),
        row(on_side(20, 2, 0, 4000, 0, 2500), &NOTHING, End::Outside),
        row(on_side(20, 3, 0, 3000, 0, 2500), &NOTHING, End::Outside),
    ]
}

/// The same of space #32, with wall #25 behind side 1.
fn behind_a_wall() -> [Entry<'static>; 6] {
    [
        row(on_floor(32), &NOTHING, End::Earth),
        row(on_ceiling(32), &NOTHING, End::Outside),
        row(on_side(32, 0, 0, 4000, 0, 2500), &NOTHING, End::Outside),
        row(on_side(32, 1, 0, 3000, 0, 2500), &WALL_25, End::Outside),
        row(on_side(32, 2, 0, 4000, 0, 2500), &NOTHING, End::Outside),
        row(on_side(32, 3, 0, 3000, 0, 2500), &NOTHING, End::Outside),
    ]
}

/// Eight boundaries of side 1: with a child of a window and one of an opening, two counterparts, a solid end
/// and one behind an item, and the earth.
fn mixed() -> [Entry<'static>; 8] {
    [
        row(side(), &WALL_30, End::Outside),
        child(row(side(), &WALL_30, End::Outside), 1, 50),
        child(row(side(), &WALL_30, End::Outside), 1, 40),
        paired(row(side(), &WALL_30, End::Space(20)), 5),
        paired(row(side(), &WALL_25, End::Space(20)), 4),
        row(side(), &NOTHING, End::Solid(30)),
        row(side(), &WALL_25, End::Solid(30)),
        row(side(), &NOTHING, End::Earth),
    ]
}

/// A wall of three layers from both sides.
fn both_sides() -> [Entry<'static>; 2] {
    let inside = on_side(20, 1, 0, 3000, 0, 2500);
    let outside = on_side(21, 3, 0, 3000, 0, 2500);
    [
        paired(row(inside, &INSIDE, End::Space(21)), 2),
        paired(row(outside, &OUTSIDE, End::Space(20)), 1),
    ]
}

/// Two sides that meet in a corner, each with a part that ends in the wall of the other.
fn mitred() -> [Entry<'static>; 4] {
    [
        row(on_side(20, 2, 0, 200, 0, 2500), &NOTHING, End::Solid(30)),
        row(on_side(20, 2, 200, 5000, 0, 2500), &WALL_30, End::Outside),
        row(on_side(20, 3, 0, 200, 0, 2500), &NOTHING, End::Solid(31)),
        row(on_side(20, 3, 200, 5000, 0, 2500), &WALL_31, End::Outside),
    ]
}

/// A side below the ground and above it.
fn at_the_ground() -> [Entry<'static>; 2] {
    [
        row(below_ground(), &WALL_30, End::Earth),
        row(on_side(20, 2, 0, 4000, 0, 1500), &WALL_30, End::Outside),
    ]
}

/// Patches of three corners, below two slabs that cross.
fn crossing() -> [Entry<'static>; 2] {
    [
        row(left_of_crossing(), &NOTHING, End::Outside),
        row(right_of_crossing(), &WALL_31, End::Outside),
    ]
}

/// A slanted side that runs against its direction.
fn falling() -> [Entry<'static>; 1] {
    [row(slanted_side(), &BEVELLED, End::Outside)]
}

/// A slanted side that runs along its direction.
fn rising() -> [Entry<'static>; 1] {
    [row(on_side(20, 0, 0, 2000, 0, 2500), &BEVELLED, End::Outside)]
}

/// A side of a small slope in two parts.
fn shallow() -> [Entry<'static>; 2] {
    [
        row(shallow_part(), &WALL_30, End::Outside),
        row(shallow_rest(), &NOTHING, End::Solid(30)),
    ]
}

/// Sides that begin at half a nanometre, and at half a nanometre below 0.
fn halves() -> [Entry<'static>; 2] {
    [
        row(from_half(), &NOTHING, End::Outside),
        row(from_minus_half(), &NOTHING, End::Outside),
    ]
}

/// One boundary of side 1.
fn one() -> [Entry<'static>; 1] {
    [row(side(), &NOTHING, End::Outside)]
}
