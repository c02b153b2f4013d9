//! Slabs.

use sb_fraction::{Direction, Fraction};
use sb_list::Listed;

/// Places in a list, counted from 0.
pub type Indices = Listed<usize>;

/// A slab of a direction: the plan between two neighbouring abscissae, `low` and `high`, with the
/// places of the plan edges that span it, in their order from below.
#[derive(Drop)]
pub struct Slab {
    pub direction: Direction,
    pub low: Fraction,
    pub high: Fraction,
    pub order: Indices,
}
