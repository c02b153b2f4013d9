//! A plan edge.

ghost use Rattle.std.specs.Prelude.{IsTrue};
ghost use Rattle.sb_fraction.specs.Edges.{edge_of, is_in_range};

use sb_fraction::Segment;

/// A plan edge: an edge of the loops of a space, an element or an opening, and the number of that
/// product. Its ends are in whole millimetres (mm).
#[derive(Clone, Copy)]
pub struct PlanEdge {
    pub segment: Segment,
    pub product: u32,
    pub ghost in_range: { IsTrue (is_in_range (edge_of segment)) },
}
