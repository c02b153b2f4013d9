//! The directions of the rows.

use sb_fraction::Direction;

/// Along x.
pub fn along_x() -> Direction {
    Direction { x: 1, y: 0 }
}

/// Along y.
pub fn along_y() -> Direction {
    Direction { x: 0, y: 1 }
}

/// Along x and y alike.
pub fn rising() -> Direction {
    Direction { x: 1, y: 1 }
}

/// Along x and against y alike.
pub fn falling() -> Direction {
    Direction { x: 1, y: -1 }
}
