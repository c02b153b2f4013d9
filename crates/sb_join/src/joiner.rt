//! The joiner.

ghost use Rattle.std.specs.Prelude.{◌≡◌, ◌∷◌, [], ◌++◌, List, IfOk, IsTrue, None};
ghost use Rattle.std.specs.List.{AllByRecursion};
ghost use Rattle.sb_fraction.specs.Spots.{Vector};
ghost use Rattle.sb_model.specs.declared.boundary.Cell.{Cell as CellValue};
ghost use Rattle.sb_model.specs.Building.{Building, is_building};
ghost use Rattle.theory_faces.specs.Joinable.{AreJoinable, AreJoined};
ghost use Rattle.theory_faces.specs.Strips.{strips_of};
ghost use Rattle.sb_join.specs.Taken.{HasTaken};
ghost use Rattle.sb_join.specs.Listing.{AreListed};

use crate::chains::patches_of;
use crate::orders::{sort_patches, sort_runs};
use crate::runs::{append, listed, runs_of};
use sb_model::{Cell, Cells};
use std::alloc::{AllocError, Global};
use std::marker::Model;

/// Joins the cells of faces that are read along one direction to trimmed patches.
///
/// It is given the fine cells of some slabs of a model, or a part of them, a slab at a time, in the
/// order of the slabs. The walks of the cells may be any.
#[derive(Drop)]
pub struct Joiner {
    runs: Vec<Cell>,
}

impl Model for Joiner {
    ghost use Rattle.std.specs.Prelude.{List};
    ghost use Rattle.theory_faces.specs.Strips.{Strip, strips_of};

    ghost Value = { List Strip };

    ghost view = { λ joiner. strips_of joiner.runs.items };
}

impl Joiner {
    /// A joiner that has taken nothing. It takes no memory before the first cell.
    pub fn new(alloc: Global) -> Joiner
        ensures { HasTaken [] result }
    {
        Joiner {
            runs: Vec::new(alloc),
        }
    }

    /// Takes the cells of the next slab. After want of memory the joiner is gone.
    pub fn advance(self, cells: Cells) -> Result<Joiner, AllocError>
        ensures { (calls : List (List CellValue)) → HasTaken calls self
            → IfOk result (HasTaken (calls ++ cells ∷ [])) }
    {
        let mut runs = self.runs;
        let own = runs_of(*runs.allocator(), cells.as_slice())?;
        append(&mut runs, own)?;
        Ok(Joiner { runs })
    }

    /// The trimmed patches of the cells, with their walks and without keys: by space, face, where
    /// they begin, and v.
    ///
    /// For every model for which the cells that were taken are fine cells, on faces that are read
    /// along one direction, slab after slab and in order: two patches of one face with equal walks
    /// neither touch nor share a whole side; each point in a patch is a point of its face; a plain
    /// point in a cell lies in exactly one patch of that face, with the cell's walk, and any other
    /// plain point in none.
    pub fn finish(self) -> Result<Cells, AllocError>
        ensures joined { (m : Building) (d : Vector) (calls : List (List CellValue))
            → IsTrue (is_building m) → HasTaken calls self → AreJoinable m d calls
            → IfOk result (AreJoined m calls) }
        ensures listed { IfOk result (λ answer. AreListed (strips_of answer)) }
        ensures no_keys { IfOk result (AllByRecursion (λ c. c.key ≡ None)) }
    {
        let mut runs = self.runs;
        sort_runs(&mut runs);
        let mut patches = patches_of(runs)?;
        sort_patches(&mut patches);
        listed(patches)
    }
}
