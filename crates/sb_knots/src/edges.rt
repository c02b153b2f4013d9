//! Edges.

use sb_fraction::Point;
use std::marker::Model;

/// An edge between plan points in range.
#[derive(Clone, Copy)]
pub(crate) struct LoopEdge {
    pub(crate) a: Point,
    pub(crate) b: Point,
}

impl Model for LoopEdge {
    ghost use Rattle.std.specs.Prelude.{IsTrue};
    ghost use Rattle.sb_fraction.specs.Edges.{Edge, edge, is_in_range};

    ghost Value = { Edge };

    ghost view = { λ e. edge e.a e.b };

    ghost invariant = { λ e. IsTrue (is_in_range (edge e.a e.b)) };

    ghost inverse = { λ e. record { a = e.a; b = e.b } };
}
