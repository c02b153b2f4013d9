//! The corners of loops, and when the line passes them.

ghost use Rattle.std.specs.Prelude.{◌≡◌, ◌<◌, ◌++◌, ◌+ℤ◌, ◌*ℤ◌, ◌≤◌, unsigned_abs, IsTrue, OnOk};
ghost use Rattle.std.specs.Prelude.{IfOk, pos, length};
ghost use Rattle.std.specs.List.{list_all};
ghost use Rattle.std.specs.List.Sorted.{IsPermutation, IsNonDecreasingBy};
ghost use Rattle.sb_fraction.specs.Plane.{is_plan_point};
ghost use Rattle.theory_sweep.specs.Corners.{corners_of, corners_of_loop, corners_on, corner_at};
ghost use Rattle.sb_knots.specs.Steps.{key_of, key_at};

use crate::edges::LoopEdge;
use crate::lists::PointLists;
use sb_fraction::Point;
use std::alloc::{AllocError, Global};
use std::marker::Model;

/// What makes the numbers at which points are passed at least 0.
const SHIFT: i64 = 2147487942967296;

/// A corner of a loop, with the points before and after it.
#[derive(Clone, Copy)]
pub(crate) struct Corner {
    pub(crate) before: Point,
    pub(crate) at: Point,
    pub(crate) after: Point,
}

impl Model for Corner {
    ghost use Rattle.std.specs.Prelude.{IsTrue};
    ghost use Rattle.theory_sweep.specs.Corners.{Corner, corner_at};
    ghost use Rattle.sb_knots.specs.Steps.{is_corner_in_range};

    ghost Value = { Corner };

    ghost view = { λ c. corner_at c.before c.at c.after };

    ghost invariant = { λ c. IsTrue (is_corner_in_range (corner_at c.before c.at c.after)) };

    ghost inverse = { λ c. record { before = c.before; at = c.at; after = c.after } };
}

impl Corner {
    /// The number at which the line passes it, plus 2,147,487,942,967,296.
    pub(crate) fn pass(self) -> u64
        ensures { result ≡ key_of self }
    {
        pass_at(self.at)
    }
}

/// The number at which the line passes the point, plus as much.
#[tactic(auto, using(crate::proofs::PassingNumbers::passing))]
pub(crate) fn pass_at(p: Point) -> u64
    ensures { result ≡ key_at p }
{
    pass_number(p.x as i64, p.y as i64)
}

#[tactic(auto, using(crate::proofs::PassingNumbers::passing))]
fn pass_number(x: i64, y: i64) -> u64
    requires x_in { unsigned_abs x ≤ 2147483648 }
    requires y_in { unsigned_abs y ≤ 2147483648 }
    ensures { pos result ≡ ((pos 1000001 *ℤ x) +ℤ y) +ℤ pos 2147487942967296 }
{
    (x * 1000001 + y + SHIFT) as u64
}

/// The corners of the loops, in the order in which the line passes them.
pub(crate) fn corners_in_order(alloc: Global, loops: &PointLists) -> Result<Vec<Corner>, AllocError>
    requires { IsTrue (list_all (list_all is_plan_point) loops.now) }
    ensures are { IfOk result (λ list. IsPermutation (corners_of loops.now) list.items) }
    ensures sorted { IfOk result (λ list. IsNonDecreasingBy key_of list.items) }
{
    let mut list = corners(alloc, loops)?;
    list.sort_unstable_by_key(|c| c.pass());
    Ok(list)
}

/// The corners of the loops, loop after loop.
fn corners(alloc: Global, loops: &PointLists) -> Result<Vec<Corner>, AllocError>
    requires { IsTrue (list_all (list_all is_plan_point) loops.now) }
    ensures { IfOk result (λ list. list.items ≡ corners_of loops.now) }
{
    let mut list = Vec::new(alloc);
    'loops: for points in loops.as_slice() {
        append(&mut list, points.as_slice())?;
    }
    Ok(list)
}

fn append(list: &mut Vec<Corner>, points: &[Point]) -> Result<(), AllocError>
    requires { IsTrue (list_all is_plan_point points.now) }
    ensures { OnOk result (list.new.items ≡ list.old.items ++ corners_of_loop points.now) }
{
    let last = points.len().saturating_sub(1);
    if points.is_empty() {
        return Ok(());
    }
    append_from(list, points[last], points[0], &points[1..])
}

// The corners at the first point and the others, with the last one before it.
fn append_from(
    list: &mut Vec<Corner>,
    last: Point,
    first: Point,
    others: &[Point],
) -> Result<(), AllocError>
    requires last_in { IsTrue (is_plan_point last) }
    requires first_in { IsTrue (is_plan_point first) }
    requires others_in { IsTrue (list_all is_plan_point others.now) }
    ensures { OnOk result (list.new.items ≡ list.old.items ++ corners_on last first others.now first) }
{
    let mut before = last;
    let mut at = first;
    'points: for after in others {
        list.push(make_corner(before, at, *after))?;
        before = at;
        at = *after;
    }
    list.push(make_corner(before, at, first))?;
    Ok(())
}

fn make_corner(before: Point, at: Point, after: Point) -> Corner
    requires before_in { IsTrue (is_plan_point before) }
    requires at_in { IsTrue (is_plan_point at) }
    requires after_in { IsTrue (is_plan_point after) }
    ensures { result ≡ corner_at before at after }
{
    Corner { before, at, after }
}
