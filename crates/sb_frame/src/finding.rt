//! All crossings of plan edges.

ghost use Rattle.std.specs.Prelude.{◌≡◌, ◌≤ℤ◌, int_lt, nat_lt, length, OnOk, IfOk};
ghost use Rattle.sb_frame.specs.Network.{most_crossings};
ghost use Rattle.theory_lists.specs.Members.{AllOfTwo};
ghost use Rattle.sb_fraction.specs.Edges.{edge_of};
ghost use Rattle.sb_frame.specs.Found.{Ascend, AreAdded, HasFound, left_of, right_of};

use crate::crossing::{Crossing, crossing_of};
use crate::edge::PlanEdge;
use crate::found::add;
use sb_fraction::Segment;
use std::alloc::{AllocError, Global};

/// How many crossings plan edges may have.
const MOST_CROSSINGS: usize = 1024;

/// The crossings of plan edges, each once, unless there are too many.
#[derive(Drop)]
pub(crate) enum FoundCrossings {
    Within(Vec<Crossing>),
    Beyond,
}

/// The crossings of these edges. Edges that are apart along x are not compared.
pub(crate) fn crossings(alloc: Global, edges: &[PlanEdge]) -> Result<FoundCrossings, AllocError>
    ensures { IfOk result (HasFound edges.now) }
{
    let mut by_left = Vec::from_slice(alloc, edges)?;
    by_left.sort_unstable_by_key(|e| left(&e.segment));
    crossings_by_left(alloc, by_left.as_slice())
}

/// The same of edges that begin one after another along x.
fn crossings_by_left(alloc: Global, edges: &[PlanEdge]) -> Result<FoundCrossings, AllocError>
    requires { AllOfTwo (λ e f. left_of (edge_of e.segment) ≤ℤ left_of (edge_of f.segment)) edges.now }
    ensures { IfOk result (HasFound edges.now) }
{
    let mut found = Vec::new(alloc);
    let mut rest = edges;
    'edges: while let Some((first, others)) = rest.split_first() {
        add_crossings(&mut found, first, others)?;
        if is_too_many(&found) {
            return Ok(FoundCrossings::Beyond);
        }
        rest = others;
    }
    Ok(FoundCrossings::Within(found))
}

/// Adds the crossings of an edge with those behind it, until there are too many.
fn add_crossings(
    found: &mut Vec<Crossing>,
    first: &PlanEdge,
    others: &[PlanEdge],
) -> Result<(), AllocError>
    requires ascend { Ascend found.old.items }
    requires in_order { AllOfTwo (λ e f. left_of (edge_of e.segment) ≤ℤ left_of (edge_of f.segment)) others.now }
    ensures { OnOk result (AreAdded (edge_of first.now.segment) others.now found.old.items found.new.items) }
{
    'others: for other in others {
        if begins_behind(&other.segment, &first.segment) || is_too_many(found) {
            return Ok(());
        }
        if let Some(crossing) = crossing_of(&first.segment, &other.segment) {
            add(found, crossing)?;
        }
    }
    Ok(())
}

/// Whether there are more crossings than there may be.
fn is_too_many(found: &[Crossing]) -> bool
    ensures { result ≡ nat_lt most_crossings (length found.now) }
{
    found.len() > MOST_CROSSINGS
}

/// Whether a segment begins behind the end of another one along x.
fn begins_behind(s: &Segment, other: &Segment) -> bool
    ensures { result ≡ int_lt (right_of (edge_of other.now)) (left_of (edge_of s.now)) }
{
    left(s) > right(other)
}

/// Where a segment begins along x.
fn left(s: &Segment) -> i32
    ensures { result ≡ left_of (edge_of s.now) }
{
    s.a.x.min(s.b.x)
}

/// Where it ends.
fn right(s: &Segment) -> i32
    ensures { result ≡ right_of (edge_of s.now) }
{
    s.a.x.max(s.b.x)
}
