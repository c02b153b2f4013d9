//! The edges that are sorted.

ghost use Rattle.std.specs.Prelude.{◌≡◌, length, IsTrue};
ghost use Rattle.sb_fraction.specs.Bounds.{is_abscissa_size};
ghost use Rattle.sb_fraction.specs.Orders.{is_over};
ghost use Rattle.sb_slab.specs.Table.{item_at, is_table, order_of_two as order_by_lines};

use crate::item::Reaching;
use sb_fraction::{Direction, Fraction, Steps, order_at};
use std::cmp::Ordering;
use std::marker;
use std::sync::ledger::Ledger;

/// Edges over which a line stands at an abscissa, at least one. A place that is none of them stands for
/// the first, so that any two can be compared.
#[derive(Drop)]
pub(crate) struct Table {
    pub(crate) direction: Direction,
    pub(crate) at: Fraction,
    pub(crate) first: Reaching,
    pub(crate) edges: Vec<Reaching>,
}

impl marker::Model for Table {
    ghost use Rattle.std.specs.Prelude.{IsTrue};
    ghost use Rattle.sb_slab.specs.Table.{Lines, lines, is_table};

    ghost Value = { Lines };

    ghost view = { λ t. lines t.direction t.at t.first t.edges.items };

    ghost invariant = { λ t. IsTrue (is_table (lines t.direction t.at t.first t.edges.items)) };
}

impl Table {
    /// The order of two edges just after the abscissa, from below; of edges on one line by their places.
    pub(crate) fn order<L: Ledger>(&self, i: usize, j: usize, steps: &mut Steps<L>) -> Ordering
        ensures { result ≡ order_by_lines self.now i j }
    {
        let a = self.edge(i);
        let b = self.edge(j);
        let lines = order_at(self.direction, &a.segment, &b.segment, &self.at, steps);
        lines.then(a.place.cmp(&b.place))
    }

    /// How many edges there are.
    pub(crate) fn len(&self) -> usize
        ensures value { result ≡ length self.now.edges }
        ensures is_table { IsTrue (is_table self.now) }
    {
        self.edges.as_slice().len()
    }

    /// Edge `i`, or the first.
    fn edge(&self, i: usize) -> Reaching
        ensures value { result ≡ item_at self.now i }
        ensures over { IsTrue (is_over self.now.direction result.segment self.now.at) }
        ensures size { IsTrue (is_abscissa_size self.now.at) }
    {
        match self.edges.as_slice().get(i) {
            Some(edge) => *edge,
            None => self.first,
        }
    }

    /// The place of edge `i`, or of the first, among the plan edges.
    pub(crate) fn place(&self, i: usize) -> usize
        ensures { result ≡ (item_at self.now i).place }
    {
        self.edge(i).place
    }
}
