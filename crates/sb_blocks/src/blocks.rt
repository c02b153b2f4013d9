//! The list, and what is read of it.

ghost use Rattle.std.specs.Prelude.{◌≡◌, ◌+◌, ◌<◌, ◌↔◌, [], length, slice_get, IsSome, IfSome};
ghost use Rattle.std.specs.Prelude.{IsTrue, take};
ghost use Rattle.std.specs.List.{concat};
ghost use Rattle.std.specs.Option.{option_copied};
ghost use Rattle.sb_blocks.specs.Blocks.{are_blocks};
ghost use Rattle.sb_blocks.specs.Places.{rank_of, IsPlace, item_before};

use crate::block::Block;
use crate::place::Place;
use std::alloc::Global;
use std::marker::Model;

/// A list of numbers in blocks. Contracts see the list of its blocks, none of them empty.
#[derive(Drop)]
pub struct Blocks {
    pub(crate) blocks: Vec<Block>,
    pub(crate) len: usize,
}

impl Model for Blocks {
    ghost use Rattle.std.specs.Prelude.{◌≡◌, List, ℕ, IsTrue, length};
    ghost use Rattle.std.specs.List.{concat};
    ghost use Rattle.sb_blocks.specs.Blocks.{are_blocks};

    ghost Value = { List (List ℕ) };

    ghost view = { λ list. list.blocks.items };

    ghost invariant = { λ list. IsTrue (are_blocks list.blocks.items)
        × (list.len ≡ length (concat list.blocks.items)) };
}

impl Blocks {
    /// A list without items. It takes no memory before the first insertion.
    pub fn new(alloc: Global) -> Blocks
        ensures { result ≡ [] }
    {
        Blocks {
            blocks: Vec::new(alloc),
            len: 0,
        }
    }

    /// How many blocks there are.
    pub fn count(&self) -> usize
        ensures value { result ≡ length self.now }
        ensures are_blocks { IsTrue (are_blocks self.now) }
    {
        self.blocks.len()
    }

    /// How many items there are.
    pub fn len(&self) -> usize
        ensures { result ≡ length (concat self.now) }
    {
        self.len
    }

    /// The items of block `b`, counted from 0: at least one. `None` exactly where `b` is not below
    /// the number of blocks.
    pub fn block(&self, b: usize) -> Option<&[u32]>
        ensures value { option_copied result ≡ slice_get self.now b }
        ensures within { IsSome result ↔ (b < length self.now) }
        ensures some { IfSome result (λ items. 0 < length items.now) }
    {
        let block = self.blocks.as_slice().get(b)?;
        Some(block.as_slice())
    }
}
