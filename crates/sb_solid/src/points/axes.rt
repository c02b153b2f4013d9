// The coordinates of a point, and from where loops are seen.

/// One of the coordinates of a point.
#[derive(Clone, Copy)]
pub(crate) enum Coordinate {
    X,
    Y,
    Z,
}

/// From where loops are seen as plane loops: from above, along x or along y.
#[derive(Clone, Copy)]
pub(crate) enum View {
    Above,
    AlongX,
    AlongY,
}
