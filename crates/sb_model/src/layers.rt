//! The layers of elements.

use sb_list::{Listed, Text};

/// A direction in space: (0, 0, 1), (0, 0, -1), or (x, y, 0) without common divisor.
#[derive(Clone, Copy, PartialEq)]
pub struct Axis {
    pub x: i32,
    pub y: i32,
    pub z: i32,
}

/// A layer of an element.
#[derive(Drop)]
pub struct Layer {
    /// The position in the layer set, from 1.
    pub index: u32,
    /// The material's name; empty where there is none.
    pub material: Text,
    /// The nominal thickness in micrometres (µm).
    pub micro: u64,
}

/// The layers of an element, in the order of its axis.
pub type Layers = Listed<Layer>;

/// How an element is layered.
#[derive(Drop)]
pub enum Layering {
    /// Not at all.
    Plain,
    /// One material through and through.
    Single(Text),
    /// Layers one after another along an axis.
    Layered(Layers, Axis),
}
