//! Space boundaries, and the list of them.

ghost use Rattle.std.specs.Prelude.{◌≡◌, [], ◌∷◌, ◌++◌, ◌<◌, ◌≤◌, ◌-◌, ◌↔◌, length, slice_get};
ghost use Rattle.std.specs.Prelude.{IsSome, OnOk, OnErr};
ghost use Rattle.std.specs.Option.{option_copied};

use crate::patches::patch::Patch;
use crate::walk::Walk;
use sb_list::Listed;
use std::alloc::{AllocError, Global};
use std::marker::Model;

/// A patch with the walk of its plain points.
#[derive(Drop)]
pub struct Cell {
    pub patch: Patch,
    pub walk: Walk,
    /// The key of the opening or filling that the plain points of a fine cell lie in front of.
    pub key: Option<u32>,
}

/// Cells, in the order that the call which makes them says.
pub type Cells = Listed<Cell>;

/// A second-level space boundary.
#[derive(Drop)]
pub struct Boundary {
    pub patch: Patch,
    pub walk: Walk,
    /// The id of the counterpart, where the walk ends at a space.
    pub pair: Option<u64>,
    /// The id of the boundary in which this one is an opening, where it is one.
    pub parent: Option<u64>,
    /// The number of the filling or opening that this boundary stands for, where it has a parent.
    pub key: Option<u32>,
}

/// The list of boundaries. A boundary's id is its position, from 1.
#[derive(Drop)]
pub struct Boundaries {
    list: Listed<Boundary>,
}

impl Model for Boundaries {
    ghost use Rattle.std.specs.Prelude.{List};
    ghost use Rattle.sb_model.specs.declared.boundary.Boundary.{Boundary};

    ghost Value = { List Boundary };

    ghost view = { λ b. b.list };
}

impl Boundaries {
    /// An empty list. It takes no memory before the first `push`.
    pub fn new(alloc: Global) -> Self
        ensures { result ≡ [] }
    {
        Boundaries {
            list: Listed::new(alloc),
        }
    }

    /// Appends one boundary. Want of memory leaves the list as it was; the boundary is dropped
    /// then.
    pub fn push(&mut self, item: Boundary) -> Result<(), AllocError>
        ensures ok { OnOk result (self.new ≡ self.old ++ item ∷ []) }
        ensures err { OnErr result (self.new ≡ self.old) }
    {
        self.list.push(item)
    }

    /// How many boundaries the list has.
    pub fn len(&self) -> usize
        ensures { result ≡ length self.now }
    {
        self.list.len()
    }

    /// The boundaries in order, without memory.
    pub fn as_slice(&self) -> &[Boundary]
        ensures { result.now ≡ self.now }
    {
        self.list.as_slice()
    }

    /// The boundary with this id, or `None` exactly where the id is not from 1 to the length.
    pub fn get(&self, id: u64) -> Option<&Boundary>
        ensures item { 1 ≤ id → option_copied result ≡ slice_get self.now (id - 1) }
        ensures within { IsSome result ↔ ((1 ≤ id) × (id ≤ length self.now)) }
    {
        if id == 0 {
            return None;
        }
        self.list.get((id - 1) as usize)
    }
}
