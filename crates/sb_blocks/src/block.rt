//! One block.

ghost use Rattle.std.specs.Prelude.{◌≡◌, ◌+◌, ◌++◌, ◌<◌, ◌≤◌, ◌↔◌, [], length, insert, remove};
ghost use Rattle.std.specs.Prelude.{slice_set};
ghost use Rattle.std.specs.Prelude.{slice_get, OnOk, OnErr, IfOk, IsTrue, Some};
ghost use Rattle.sb_blocks.specs.Blocks.{is_block, longest_block};

use std::alloc::{AllocError, Global};
use std::marker::Model;

/// The most items of a block.
pub(crate) const LONGEST: usize = 1024;

/// Half of them.
const HALF: usize = 512;

/// Items that follow one another in the list.
#[derive(Drop)]
pub(crate) struct Block {
    items: Vec<u32>,
}

impl Model for Block {
    ghost use Rattle.std.specs.Prelude.{List, ℕ};

    ghost Value = { List ℕ };

    ghost view = { λ block. block.items.items };
}

impl Block {
    pub(crate) fn len(&self) -> usize
        ensures { result ≡ length self.now }
    {
        self.items.len()
    }

    pub(crate) fn as_slice(&self) -> &[u32]
        ensures { result.now ≡ self.now }
    {
        self.items.as_slice()
    }

    pub(crate) fn insert(&mut self, at: usize, x: u32) -> Result<(), AllocError>
        requires { at ≤ length self.old }
        ensures ok { OnOk result (self.new ≡ insert self.old at x) }
        ensures err { OnErr result (self.new ≡ self.old) }
    {
        self.items.insert(at, x)?;
        Ok(())
    }

    pub(crate) fn remove(&mut self, at: usize) -> u32
        requires { at < length self.old }
        ensures value { slice_get self.old at ≡ Some result }
        ensures rest { self.new ≡ remove self.old at }
    {
        self.items.remove(at)
    }

    pub(crate) fn replace(&mut self, at: usize, x: u32)
        requires { at < length self.old }
        ensures { self.new ≡ slice_set self.old at x }
    {
        self.items[at] = x;
    }

    /// The items of this block, which is full, and one more, in two blocks.
    pub(crate) fn halves_with(&self, at: usize, x: u32) -> Result<(Block, Block), AllocError>
        requires full { length self.now ≡ longest_block }
        requires within { at ≤ length self.now }
        ensures items { IfOk result (λ two. two.0 ++ two.1 ≡ insert self.now at x) }
        ensures front { IfOk result (λ two. IsTrue (is_block two.0)) }
        ensures back { IfOk result (λ two. IsTrue (is_block two.1)) }
    {
        let alloc = *self.items.allocator();
        let (low, high) = self.items.as_slice().split_at(HALF);
        if at <= HALF {
            Ok((with(alloc, low, at, x)?, block_of(alloc, high)?))
        } else {
            Ok((block_of(alloc, low)?, with(alloc, high, at - HALF, x)?))
        }
    }
}

/// The block of these items.
pub(crate) fn block_of(alloc: Global, items: &[u32]) -> Result<Block, AllocError>
    ensures { IfOk result (λ block. block ≡ items.now) }
{
    let items = Vec::from_slice(alloc, items)?;
    Ok(Block { items })
}

/// The block of these items and one more.
fn with(alloc: Global, items: &[u32], at: usize, x: u32) -> Result<Block, AllocError>
    requires { at ≤ length items.now }
    ensures { IfOk result (λ block. block ≡ insert items.now at x) }
{
    let mut block = block_of(alloc, items)?;
    block.insert(at, x)?;
    Ok(block)
}
