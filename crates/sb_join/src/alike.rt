//! Which cells are alike: faces, walks, ends and sides as data.

ghost use Rattle.std.specs.Prelude.{◌≡◌, ◌+◌, pos, IsTrue};
ghost use Rattle.std.specs.Ordering.{int_eq};
ghost use Rattle.theory_numbers.specs.Arrows.{cross};
ghost use Rattle.theory_plane.specs.Sides.{is_same_side as is_one_side};
ghost use Rattle.theory_joining.specs.Put.{goes_on as goes_on_with};
ghost use Rattle.sb_fraction.specs.Bounds.{is_abscissa_size};
ghost use Rattle.sb_model.specs.Surfaces.Sides.{arrow_of, line_of};
ghost use Rattle.sb_model.specs.Surfaces.Patches.{is_same_kind as is_one_kind};
ghost use Rattle.theory_faces.specs.Strips.{is_same_ratio, is_same_item as is_one_item};
ghost use Rattle.theory_faces.specs.Strips.{are_same_items as are_one_list};
ghost use Rattle.theory_faces.specs.Strips.{is_same_end as is_one_end, is_same_walk as is_one_walk};
ghost use Rattle.theory_faces.specs.Strips.{is_same_face as is_one_face, is_same_mark};
ghost use Rattle.theory_faces.specs.Strips.{is_same_number, strip_of, is_raised_by as is_run_on};
ghost use Rattle.sb_join.specs.Sizes.{HasHeight};

use sb_fraction::{Fraction, compare};
use sb_model::{Cell, End, Face, FaceKind, Item, Side, Walk};
use std::cmp::Ordering;

/// The numbers of a side's line `dx·v = dy·u + off`.
#[derive(Clone, Copy)]
pub(crate) struct SideNumbers {
    pub dx: i32,
    pub dy: i32,
    pub off: i64,
}

/// The numbers of a side: a height is the level line at it.
pub(crate) fn numbers(side: Side) -> SideNumbers
    ensures dx { result.dx ≡ (line_of side).dx }
    ensures dy { result.dy ≡ (line_of side).dy }
    ensures off { result.off ≡ (line_of side).off }
    ensures height { HasHeight side }
{
    match side {
        Side::OnLine(line) => SideNumbers {
            dx: line.dir.x,
            dy: line.dir.y,
            off: line.off,
        },
        Side::Height(height) => SideNumbers {
            dx: 1,
            dy: 0,
            off: height as i64,
        },
    }
}

/// Whether two sides are one line.
pub(crate) fn is_same_side(a: Side, b: Side) -> bool
    ensures { result ≡ is_one_side (line_of a) (line_of b) }
{
    let first = numbers(a);
    let second = numbers(b);
    first.dx == second.dx && (first.dy == second.dy && first.off == second.off)
}

/// Whether two fractions are one.
fn is_same_fraction(a: &Fraction, b: &Fraction) -> bool
    ensures { result ≡ is_same_ratio a.now b.now }
{
    a.num() == b.num() && a.den() == b.den()
}

/// Whether two abscissae are one fraction.
fn is_same_abscissa(a: &Fraction, b: &Fraction) -> bool
    ensures { result ≡ is_same_number (arrow_of a.now) (arrow_of b.now) }
{
    a.den() == b.den() && a.num() == b.num()
}

fn is_same_item(a: &Item, b: &Item) -> bool
    ensures { result ≡ is_one_item a.now b.now }
{
    a.element == b.element && (a.layer == b.layer && is_same_fraction(&a.thickness, &b.thickness))
}

fn are_same_items(a: &[Item], b: &[Item]) -> bool
    ensures { result ≡ are_one_list a.now b.now }
{
    if a.len() != b.len() {
        return false;
    }
    'items: for at in 0..a.len() {
        if !is_same_item(&a[at], &b[at]) {
            return false;
        }
    }
    true
}

fn is_same_end(a: End, b: End) -> bool
    ensures { result ≡ is_one_end a b }
{
    match (a, b) {
        (End::Space(m), End::Space(n)) => m == n,
        (End::Outside, End::Outside) => true,
        (End::Earth, End::Earth) => true,
        (End::Solid(m), End::Solid(n)) => m == n,
        _ => false,
    }
}

fn is_same_walk(a: &Walk, b: &Walk) -> bool
    ensures { result ≡ is_one_walk a.now b.now }
{
    are_same_items(a.items.as_slice(), b.items.as_slice())
        && (a.depth == b.depth && is_same_end(a.end, b.end))
}

fn is_same_kind(a: FaceKind, b: FaceKind) -> bool
    ensures { result ≡ is_one_kind a b }
{
    match (a, b) {
        (FaceKind::Bottom, FaceKind::Bottom) => true,
        (FaceKind::Top, FaceKind::Top) => true,
        (FaceKind::Side(j), FaceKind::Side(k)) => j == k,
        _ => false,
    }
}

fn is_same_face(a: Face, b: Face) -> bool
    ensures { result ≡ is_one_face a b }
{
    a.space == b.space && is_same_kind(a.kind, b.kind)
}

/// Whether two cells stand on one face and have one walk.
fn are_alike(a: &Cell, b: &Cell) -> bool
    ensures { result ≡ is_same_mark (strip_of a.now).mark (strip_of b.now).mark }
{
    is_same_face(a.patch.face, b.patch.face) && is_same_walk(&a.walk, &b.walk)
}

/// Whether the run lies on the cell, over the same slab and alike.
pub(crate) fn is_raised_by(cell: &Cell, run: &Cell) -> bool
    ensures { result ≡ is_run_on (strip_of cell.now) (strip_of run.now) }
{
    (is_same_abscissa(&cell.patch.low, &run.patch.low)
        && is_same_abscissa(&cell.patch.high, &run.patch.high))
        && (is_same_side(cell.patch.upper, run.patch.lower) && are_alike(cell, run))
}

/// Whether the second abscissa is the same number as the first.
fn meets(end: &Fraction, begin: &Fraction) -> bool
    requires first_size { IsTrue (is_abscissa_size end.now) }
    requires second_size { IsTrue (is_abscissa_size begin.now) }
    ensures { result ≡ int_eq (cross (arrow_of end.now) (arrow_of begin.now)) (pos 0) }
{
    match compare(end, begin) {
        Ordering::Equal => true,
        Ordering::Less | Ordering::Greater => false,
    }
}

/// Whether the second run goes on with the first: it begins where that ends, with its sides, and
/// alike.
pub(crate) fn goes_on(run: &Cell, next: &Cell) -> bool
    ensures { result ≡ goes_on_with is_same_mark (strip_of run.now) (strip_of next.now) }
{
    (meets(&run.patch.high, &next.patch.low)
        && (is_same_side(run.patch.lower, next.patch.lower)
            && is_same_side(run.patch.upper, next.patch.upper)))
        && are_alike(run, next)
}
