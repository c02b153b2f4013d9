//! Runs: cells side by side over one slab, on one face and with one walk, in one.

ghost use Rattle.std.specs.Prelude.{◌≡◌, ◌∷◌, ◌++◌, [], List, IfOk, OnOk, IsTrue, None, map, true};
ghost use Rattle.std.specs.List.{AllByRecursion};
ghost use Rattle.theory_joining.specs.Cells.{raised as both};
ghost use Rattle.theory_faces.specs.Strips.{strip_of, strips_of, is_raised_by as is_run_on};
ghost use Rattle.theory_faces.specs.Strips.{lay as laid, runs_over};
ghost use Rattle.sb_join.specs.Stacks.{from_top};

use crate::alike::is_raised_by;
use sb_list::Listed;
use sb_model::{Cell, Cells, Patch};
use std::alloc::{AllocError, Global};

/// The runs of the cells of a slab, the lowest of each face on top.
pub(crate) fn runs_of(alloc: Global, cells: &[Cell]) -> Result<Vec<Cell>, AllocError>
    ensures { IfOk result (λ runs. from_top runs.items ≡ runs_over (strips_of cells.now)) }
{
    let mut runs = Vec::new(alloc);
    let mut left = cells.len();
    'cells: while left > 0 {
        left -= 1;
        lay(&mut runs, &cells[left])?;
    }
    Ok(runs)
}

/// Lays a cell under the run on top, in one with it where that lies on it, or as a run of its own.
fn lay(runs: &mut Vec<Cell>, cell: &Cell) -> Result<(), AllocError>
    ensures { OnOk result (from_top runs.new.items ≡ laid (strip_of cell.now) (from_top runs.old.items)) }
{
    let Some(top) = runs.pop() else {
        return push(runs, run_of(cell)?);
    };
    if is_raised_by(cell, &top) {
        return push(runs, raised(cell, top));
    }
    push(runs, top)?;
    push(runs, run_of(cell)?)
}

pub(crate) fn push(runs: &mut Vec<Cell>, run: Cell) -> Result<(), AllocError>
    ensures { OnOk result (runs.new.items ≡ runs.old.items ++ run ∷ []) }
{
    runs.push(run)?;
    Ok(())
}

/// The cell as a run, with a copy of its walk: of a list that was lent nothing can be taken.
fn run_of(cell: &Cell) -> Result<Cell, AllocError>
    ensures { IfOk result (λ run. strip_of run ≡ strip_of cell.now) }
{
    Ok(Cell {
        patch: cell.patch,
        walk: cell.walk.copy()?,
        key: None,
    })
}

/// The cell and the run on it in one.
fn raised(cell: &Cell, run: Cell) -> Cell
    requires { is_run_on (strip_of cell.now) (strip_of run) ≡ true }
    ensures { strip_of result ≡ both (strip_of cell.now) (strip_of run) }
{
    let patch = Patch {
        face: cell.patch.face,
        low: cell.patch.low,
        high: cell.patch.high,
        lower: cell.patch.lower,
        upper: run.patch.upper,
    };
    Cell {
        patch,
        walk: run.walk,
        key: None,
    }
}

/// Appends the runs of a slab, from the top.
pub(crate) fn append(runs: &mut Vec<Cell>, own: Vec<Cell>) -> Result<(), AllocError>
    ensures { OnOk result (strips_of runs.new.items ≡ strips_of runs.old.items ++ from_top own.items) }
{
    let mut own = own;
    'own: while let Some(run) = own.pop() {
        push(runs, run)?;
    }
    Ok(())
}

/// The patches as a list, in order, without keys.
pub(crate) fn listed(patches: Vec<Cell>) -> Result<Cells, AllocError>
    ensures patches { IfOk result (λ list. strips_of list ≡ strips_of patches.items) }
    ensures no_keys { IfOk result (AllByRecursion (λ c. c.key ≡ None)) }
{
    let mut list = Listed::new(*patches.allocator());
    'patches: for patch in patches {
        list.push(without_key(patch))?;
    }
    Ok(list)
}

fn without_key(cell: Cell) -> Cell
    ensures strip { strip_of result ≡ strip_of cell }
    ensures no_key { result.key ≡ None }
{
    Cell {
        patch: cell.patch,
        walk: cell.walk,
        key: None,
    }
}
