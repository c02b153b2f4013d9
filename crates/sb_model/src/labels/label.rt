//! What is at a point.

/// What is at a point of the building.
#[derive(Clone, Copy, PartialEq)]
pub enum Label {
    /// The space with this number.
    Space(u32),
    /// The element with this number, and its layer's index; 0 where it has no layers along an axis.
    Element(u32, u32),
    /// The earth.
    Earth,
    /// The open air.
    Void,
}
