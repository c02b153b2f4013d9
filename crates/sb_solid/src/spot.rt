use sb_list::Listed;

/// A point in nanometres (nm).
#[derive(Clone, Copy)]
pub struct Spot {
    pub x: i128,
    pub y: i128,
    pub z: i128,
}

/// Points in order.
pub type Spots = Listed<Spot>;
