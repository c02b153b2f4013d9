//! What changes the list.

ghost use Rattle.std.specs.Prelude.{◌≡◌, ◌++◌, ◌∷◌, [], ◌<◌, length, insert, remove, slice_set};
ghost use Rattle.std.specs.Prelude.{slice_get};
ghost use Rattle.std.specs.Prelude.{OnOk, OnErr, IsTrue, Some};
ghost use Rattle.std.specs.List.{concat};
ghost use Rattle.sb_blocks.specs.Blocks.{are_blocks, block_at, longest_block};
ghost use Rattle.sb_blocks.specs.Places.{rank_of, IsPlace, IsItemPlace};

use crate::block::{Block, LONGEST, block_of};
use crate::blocks::Blocks;
use crate::place::Place;
use std::alloc::AllocError;

impl Blocks {
    /// Puts `x` at the place, before the item that stands there. The end of the list is behind the
    /// last item of the last block, and any place `{ block, at: 0 }` from the number of blocks on.
    ///
    /// A block that is full is halved: at most 1,024 items are moved, and the blocks behind it. Want
    /// of memory leaves the list as it was.
    pub fn insert(&mut self, place: Place, x: u32) -> Result<(), AllocError>
        requires { IsPlace self.old place }
        ensures ok { OnOk result
            (concat self.new ≡ insert (concat self.old) (rank_of self.old place) x) }
        ensures err { OnErr result (self.new ≡ self.old) }
    {
        if self.len == usize::MAX {
            return Err(AllocError);
        }
        put(&mut self.blocks, place, x)?;
        self.len += 1;
        Ok(())
    }

    /// Takes away the item that stands there, and its block if that is empty then: at most 1,024
    /// items are moved, and the blocks behind it.
    pub fn remove(&mut self, place: Place) -> u32
        requires { IsItemPlace self.old place }
        ensures value { slice_get (concat self.old) (rank_of self.old place) ≡ Some result }
        ensures rest { concat self.new ≡ remove (concat self.old) (rank_of self.old place) }
    {
        let x = take_away(&mut self.blocks, place);
        self.len -= 1;
        x
    }

    /// Puts `x` in place of the item that stands there. Every place stays the same.
    pub fn replace(&mut self, place: Place, x: u32)
        requires { IsItemPlace self.old place }
        ensures flat { concat self.new ≡ slice_set (concat self.old) (rank_of self.old place) x }
        ensures block { self.new
            ≡ slice_set self.old place.block
            (slice_set (block_at self.old place.block) place.at x) }
    {
        put_instead(&mut self.blocks, place, x);
    }
}

// Puts x at the place.
fn put(blocks: &mut Vec<Block>, place: Place, x: u32) -> Result<(), AllocError>
    requires blocks { IsTrue (are_blocks blocks.old.items) }
    requires place { IsPlace blocks.old.items place }
    ensures ok { OnOk result (concat blocks.new.items
        ≡ insert (concat blocks.old.items) (rank_of blocks.old.items place) x) }
    ensures blocks { IsTrue (are_blocks blocks.new.items) }
    ensures err { OnErr result (blocks.new.items ≡ blocks.old.items) }
{
    if place.block < blocks.len() {
        put_in(blocks, place, x)
    } else {
        put_last(blocks, x)
    }
}

// Puts x behind all items.
fn put_last(blocks: &mut Vec<Block>, x: u32) -> Result<(), AllocError>
    requires { IsTrue (are_blocks blocks.old.items) }
    ensures ok { OnOk result (concat blocks.new.items ≡ concat blocks.old.items ++ x ∷ []) }
    ensures blocks { IsTrue (are_blocks blocks.new.items) }
    ensures err { OnErr result (blocks.new.items ≡ blocks.old.items) }
{
    let count = blocks.len();
    if count == 0 {
        put_first(blocks, x)
    } else {
        let block = count - 1;
        let at = blocks[block].len();
        put_in(blocks, Place { block, at }, x)
    }
}

// Puts x into a list without blocks.
fn put_first(blocks: &mut Vec<Block>, x: u32) -> Result<(), AllocError>
    requires { blocks.old.items ≡ [] }
    ensures ok { OnOk result (blocks.new.items ≡ (x ∷ []) ∷ []) }
    ensures err { OnErr result (blocks.new.items ≡ blocks.old.items) }
{
    let block = block_of(*blocks.allocator(), &[x])?;
    blocks.push(block)?;
    Ok(())
}

// Puts x into a block that is there.
fn put_in(blocks: &mut Vec<Block>, place: Place, x: u32) -> Result<(), AllocError>
    requires blocks { IsTrue (are_blocks blocks.old.items) }
    requires block { place.block < length blocks.old.items }
    requires place { IsPlace blocks.old.items place }
    ensures ok { OnOk result (concat blocks.new.items
        ≡ insert (concat blocks.old.items) (rank_of blocks.old.items place) x) }
    ensures blocks { IsTrue (are_blocks blocks.new.items) }
    ensures err { OnErr result (blocks.new.items ≡ blocks.old.items) }
{
    if blocks[place.block].len() < LONGEST {
        put_in_room(blocks, place, x)
    } else {
        put_in_halves(blocks, place, x)
    }
}

// Puts x into a block that is not full.
fn put_in_room(blocks: &mut Vec<Block>, place: Place, x: u32) -> Result<(), AllocError>
    requires block { place.block < length blocks.old.items }
    requires place { IsPlace blocks.old.items place }
    ensures ok { OnOk result (blocks.new.items
        ≡ slice_set blocks.old.items place.block
        (insert (block_at blocks.old.items place.block) place.at x)) }
    ensures err { OnErr result (blocks.new.items ≡ blocks.old.items) }
{
    blocks[place.block].insert(place.at, x)
}

// Puts x into a block that is full, and halves it.
fn put_in_halves(blocks: &mut Vec<Block>, place: Place, x: u32) -> Result<(), AllocError>
    requires blocks { IsTrue (are_blocks blocks.old.items) }
    requires block { place.block < length blocks.old.items }
    requires full { length (block_at blocks.old.items place.block) ≡ longest_block }
    requires place { IsPlace blocks.old.items place }
    ensures ok { OnOk result (concat blocks.new.items
        ≡ insert (concat blocks.old.items) (rank_of blocks.old.items place) x) }
    ensures blocks { IsTrue (are_blocks blocks.new.items) }
    ensures err { OnErr result (blocks.new.items ≡ blocks.old.items) }
{
    let (front, back) = blocks[place.block].halves_with(place.at, x)?;
    blocks.insert(place.block + 1, back)?;
    blocks[place.block] = front;
    Ok(())
}

// Takes away the item at the place, and its block if that is empty then.
fn take_away(blocks: &mut Vec<Block>, place: Place) -> u32
    requires blocks { IsTrue (are_blocks blocks.old.items) }
    requires place { IsItemPlace blocks.old.items place }
    ensures value { slice_get (concat blocks.old.items) (rank_of blocks.old.items place)
        ≡ Some result }
    ensures rest { concat blocks.new.items
        ≡ remove (concat blocks.old.items) (rank_of blocks.old.items place) }
    ensures blocks { IsTrue (are_blocks blocks.new.items) }
{
    let x = take_item(blocks, place);
    if blocks[place.block].len() == 0 {
        let _ = blocks.remove(place.block);
    }
    x
}

// Takes away the item at the place, from its block.
fn take_item(blocks: &mut Vec<Block>, place: Place) -> u32
    requires { IsItemPlace blocks.old.items place }
    ensures value { slice_get (block_at blocks.old.items place.block) place.at ≡ Some result }
    ensures block { blocks.new.items
        ≡ slice_set blocks.old.items place.block
        (remove (block_at blocks.old.items place.block) place.at) }
{
    blocks[place.block].remove(place.at)
}

// Puts x in place of the item at the place.
fn put_instead(blocks: &mut Vec<Block>, place: Place, x: u32)
    requires blocks { IsTrue (are_blocks blocks.old.items) }
    requires place { IsItemPlace blocks.old.items place }
    ensures flat { concat blocks.new.items
        ≡ slice_set (concat blocks.old.items) (rank_of blocks.old.items place) x }
    ensures count { length (concat blocks.new.items) ≡ length (concat blocks.old.items) }
    ensures block { blocks.new.items
        ≡ slice_set blocks.old.items place.block
        (slice_set (block_at blocks.old.items place.block) place.at x) }
    ensures blocks { IsTrue (are_blocks blocks.new.items) }
{
    blocks[place.block].replace(place.at, x);
}
