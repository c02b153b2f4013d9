//! The orders in which runs are carried on and patches are listed.

ghost use Rattle.std.specs.Prelude.{◌≡◌, IsPermutation};
ghost use Rattle.sb_model.specs.Boundaries.Order.{rank_of};
ghost use Rattle.sb_model.specs.Surfaces.Sides.{line_of};
ghost use Rattle.theory_faces.specs.Strips.{strip_of, strips_of};
ghost use Rattle.theory_faces.specs.Chains.{order_of_sides as sides_order, order_of_keys as keys_order};
ghost use Rattle.theory_faces.specs.Chains.{order_of_runs as runs_order, AreInOrder};
ghost use Rattle.sb_join.specs.Listing.{order_of_faces as faces_order};
ghost use Rattle.sb_join.specs.Listing.{order_of_patches as patches_order, AreListed};
ghost use Rattle.sb_join.specs.Listing.{order_on_face as face_order};

use crate::alike::numbers;
use crate::values::order_of_starts;
use sb_fraction::compare;
use sb_model::{Cell, FaceKind, Side};
use std::cmp::Ordering;

/// Puts runs in order of their faces, their sides and where they begin.
pub(crate) fn sort_runs(runs: &mut Vec<Cell>)
    ensures permutation { IsPermutation runs.old.items runs.new.items }
    ensures in_order { AreInOrder (strips_of runs.new.items) }
{
    runs.sort_unstable_by(|a, b| order_of_runs(a, b));
}

fn order_of_runs(a: &Cell, b: &Cell) -> Ordering
    ensures { result ≡ runs_order (strip_of a.now) (strip_of b.now) }
{
    order_of_keys(a, b).then(compare(&a.patch.low, &b.patch.low))
}

/// Puts patches in the order in which they are listed: by face, by where they begin, and in v.
pub(crate) fn sort_patches(patches: &mut Vec<Cell>)
    ensures permutation { IsPermutation patches.old.items patches.new.items }
    ensures in_order { AreListed (strips_of patches.new.items) }
{
    patches.sort_unstable_by(|a, b| order_of_patches(a, b));
}

fn order_of_patches(a: &Cell, b: &Cell) -> Ordering
    ensures { result ≡ patches_order (strip_of a.now) (strip_of b.now) }
{
    match order_of_faces(a, b) {
        Ordering::Equal => order_on_face(a, b),
        other => other,
    }
}

fn order_on_face(a: &Cell, b: &Cell) -> Ordering
    ensures { result ≡ face_order (strip_of a.now) (strip_of b.now) }
{
    match compare(&a.patch.low, &b.patch.low) {
        Ordering::Equal => order_of_starts(a, b),
        other => other,
    }
}

fn order_of_faces(a: &Cell, b: &Cell) -> Ordering
    ensures { result ≡ faces_order (strip_of a.now) (strip_of b.now) }
{
    let ranks = rank(a.patch.face.kind).cmp(&rank(b.patch.face.kind));
    a.patch.face.space.cmp(&b.patch.face.space).then(ranks)
}

fn order_of_keys(a: &Cell, b: &Cell) -> Ordering
    ensures { result ≡ keys_order (strip_of a.now) (strip_of b.now) }
{
    let sides = order_of_sides(a.patch.lower, b.patch.lower).then(order_of_sides(
        a.patch.upper,
        b.patch.upper,
    ));
    let ranks = rank(a.patch.face.kind).cmp(&rank(b.patch.face.kind));
    a.patch
        .face
        .space
        .cmp(&b.patch.face.space)
        .then(ranks.then(sides))
}

/// The place of a face among those of its space.
fn rank(kind: FaceKind) -> u64
    ensures { result ≡ rank_of kind }
{
    match kind {
        FaceKind::Bottom => 0,
        FaceKind::Top => 1,
        FaceKind::Side(k) => 2 + k as u64,
    }
}

fn order_of_sides(a: Side, b: Side) -> Ordering
    ensures { result ≡ sides_order (line_of a) (line_of b) }
{
    let first = numbers(a);
    let second = numbers(b);
    first
        .dx
        .cmp(&second.dx)
        .then(first.dy.cmp(&second.dy).then(first.off.cmp(&second.off)))
}
