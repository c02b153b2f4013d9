//! Chains: runs in order of their faces and sides, carried on along u.

ghost use Rattle.std.specs.Prelude.{◌≡◌, ◌∷◌, ◌++◌, [], List, IfOk, OnOk, true, IsPermutation};
ghost use Rattle.theory_joining.specs.Put.{goes_on as goes_on_with, carried_on as both};
ghost use Rattle.theory_faces.specs.Strips.{strip_of, strips_of, is_same_mark};
ghost use Rattle.theory_faces.specs.Chains.{lay_before, chains};
ghost use Rattle.sb_join.specs.Stacks.{from_top};

use crate::alike::goes_on;
use crate::runs::push;
use sb_model::{Cell, Patch};
use std::alloc::AllocError;

/// The patches of runs that stand in order, the first of them on top.
pub(crate) fn patches_of(runs: Vec<Cell>) -> Result<Vec<Cell>, AllocError>
    ensures { IfOk result (λ patches. from_top patches.items ≡ chains (strips_of runs.items)) }
{
    let mut runs = runs;
    let mut patches = Vec::new(*runs.allocator());
    'runs: while let Some(run) = runs.pop() {
        put(&mut patches, run)?;
    }
    Ok(patches)
}

/// Puts a run on the patches of those that follow: in one with the patch on top where that goes on
/// with it, or as a patch of its own.
fn put(patches: &mut Vec<Cell>, run: Cell) -> Result<(), AllocError>
    ensures { OnOk result (from_top patches.new.items ≡ lay_before (strip_of run) (from_top patches.old.items)) }
{
    let Some(top) = patches.pop() else {
        return push(patches, run);
    };
    if goes_on(&run, &top) {
        return push(patches, carried_on(run, top));
    }
    push(patches, top)?;
    push(patches, run)
}

/// The run and the patch that goes on with it in one.
fn carried_on(run: Cell, next: Cell) -> Cell
    requires { goes_on_with is_same_mark (strip_of run) (strip_of next) ≡ true }
    ensures { strip_of result ≡ both (strip_of run) (strip_of next) }
{
    let patch = Patch {
        face: run.patch.face,
        low: run.patch.low,
        high: next.patch.high,
        lower: run.patch.lower,
        upper: run.patch.upper,
    };
    Cell {
        patch,
        walk: run.walk,
        key: None,
    }
}
