//! The rows: what each is called, the file, the model and the list.

use crate::lists::Listing;
use crate::models::Which;

/// A row.
#[derive(Clone, Copy)]
pub struct Row {
    pub name: &'static str,
    pub path: &'static str,
    pub model: Which,
    pub list: Listing,
}

/// The rows in their order.
pub const ROWS: [Row; 16] = [
    Row {
        name: "an authored file",
        path: "authored.ifc",
        model: Which::House,
        list: Listing::Walled,
    },
    Row {
        name: "a turned frame",
        path: "small.ifc",
        model: Which::Turned,
        list: Listing::Six,
    },
    Row {
        name: "a turned frame in metres",
        path: "small.ifc",
        model: Which::TurnedInMetres,
        list: Listing::Six,
    },
    Row {
        name: "z turned down",
        path: "small.ifc",
        model: Which::Down,
        list: Listing::Six,
    },
    Row {
        name: "relations",
        path: "small.ifc",
        model: Which::Room,
        list: Listing::Mixed,
    },
    Row {
        name: "an empty list",
        path: "small.ifc",
        model: Which::Room,
        list: Listing::Empty,
    },
    Row {
        name: "beyond 32 bits",
        path: "spaced.ifc",
        model: Which::Room,
        list: Listing::One,
    },
    Row {
        name: "a layered wall between rooms",
        path: "small.ifc",
        model: Which::Two,
        list: Listing::Both,
    },
    Row {
        name: "a mitred corner",
        path: "small.ifc",
        model: Which::Corner,
        list: Listing::Mitred,
    },
    Row {
        name: "below the ground and above it",
        path: "small.ifc",
        model: Which::Cellar,
        list: Listing::Cut,
    },
    Row {
        name: "three corners",
        path: "small.ifc",
        model: Which::Cube,
        list: Listing::Crossing,
    },
    Row {
        name: "a slanted side against its direction",
        path: "small.ifc",
        model: Which::Falling,
        list: Listing::Falling,
    },
    Row {
        name: "a slanted side along its direction",
        path: "small.ifc",
        model: Which::Rising,
        list: Listing::Rising,
    },
    Row {
        name: "a side of a small slope",
        path: "small.ifc",
        model: Which::Shallow,
        list: Listing::Shallow,
    },
    Row {
        name: "halves of a nanometre",
        path: "small.ifc",
        model: Which::Room,
        list: Listing::Halves,
    },
    Row {
        name: "the same less a nanometre",
        path: "small.ifc",
        model: Which::Shifted,
        list: Listing::Halves,
    },
];
