//! The order of the edges over which a line stands.

ghost use Rattle.std.specs.Prelude.{◌≡◌, IfOk, IsTrue, slice_get};
ghost use Rattle.sb_fraction.specs.Bounds.{is_abscissa_size};
ghost use Rattle.sb_fraction.specs.Lines.{arrow_along};
ghost use Rattle.sb_fraction.specs.Numbers.{number};
ghost use Rattle.sb_slab.specs.Table.{places_of};
ghost use Rattle.sb_slab.specs.Sorted.{IsSortedAt, IsSortedTable, numbers_to, AreSorted};

use crate::item::Reaching;
use crate::reaching::reaching;
use crate::table::Table;
use sb_fraction::{Direction, Fraction, Steps};
use sb_frame::{Indices, PlanEdges};
use sb_list::Listed;
use std::alloc::{AllocError, Global};
use std::sync::ledger::Ledger;

/// The places of the plan edges that reach past an abscissa, from below just after it; edges on one
/// line by their places.
pub(crate) fn order_past<L: Ledger>(
    alloc: Global,
    edges: &PlanEdges,
    d: Direction,
    at: Fraction,
    steps: &mut Steps<L>,
) -> Result<Indices, AllocError>
    requires { IsTrue (is_abscissa_size at) }
    ensures { IfOk result (IsSortedAt edges.now.edges (arrow_along d) (number at)) }
{
    let list = reaching(alloc, edges, d, &at)?;
    match first_of(list.as_slice()) {
        None => Ok(Listed::new(alloc)),
        Some(first) => {
            let table = Table {
                direction: d,
                at,
                first,
                edges: list,
            };
            sorted(alloc, &table, steps)
        }
    }
}

/// The first edge.
fn first_of(list: &[Reaching]) -> Option<Reaching>
    ensures { result ≡ slice_get list.now 0 }
{
    if list.is_empty() {
        return None;
    }
    Some(list[0])
}

/// The places of the edges of a table in order.
fn sorted<L: Ledger>(
    alloc: Global,
    table: &Table,
    steps: &mut Steps<L>,
) -> Result<Indices, AllocError>
    ensures { IfOk result (IsSortedTable table.now) }
{
    let list = sorted_numbers(alloc, table, steps)?;
    places(alloc, table, list.as_slice())
}

/// The numbers of the edges of a table, from 0, in the order of the edges.
fn sorted_numbers<L: Ledger>(
    alloc: Global,
    table: &Table,
    steps: &mut Steps<L>,
) -> Result<Vec<usize>, AllocError>
    ensures { IfOk result (λ list. AreSorted table.now list.items) }
{
    let mut list = numbers_below(alloc, table.len())?;
    list.sort_unstable_by(|i, j| table.order(*i, *j, steps));
    Ok(list)
}

/// The numbers from 0 on that are below `n`.
fn numbers_below(alloc: Global, n: usize) -> Result<Vec<usize>, AllocError>
    ensures { IfOk result (λ list. list.items ≡ numbers_to n) }
{
    let mut list = Vec::with_capacity(alloc, n)?;
    'numbers: for i in 0..n {
        list.push(i)?;
    }
    Ok(list)
}

/// The places of these edges of a table among the plan edges.
fn places(alloc: Global, table: &Table, list: &[usize]) -> Result<Indices, AllocError>
    ensures { IfOk result (λ places. places ≡ places_of table.now list.now) }
{
    let mut places = Listed::new(alloc);
    'list: for i in list {
        places.push(table.place(*i))?;
    }
    Ok(places)
}
