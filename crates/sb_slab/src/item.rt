//! One edge that is sorted.

ghost use Rattle.std.specs.Prelude.{IsTrue};
ghost use Rattle.sb_fraction.specs.Edges.{edge_of, is_in_range};

use sb_fraction::Segment;

/// A plan edge over which a line stands, and its place among the plan edges.
#[derive(Clone, Copy)]
pub(crate) struct Reaching {
    pub(crate) place: usize,
    pub(crate) segment: Segment,
    pub(crate) ghost in_range: { IsTrue (is_in_range (edge_of segment)) },
}
