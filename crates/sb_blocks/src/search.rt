//! Where a test of the items turns from pass to fail, by halving.

ghost use Rattle.std.specs.Prelude.{◌≡◌, ℕ, Bool, false, ◌<◌, ◌≤◌, ◌-◌, IsTrue, IfSome, length};
ghost use Rattle.std.specs.Prelude.{slice_get, slice_index, slice_index_or, []};
ghost use Rattle.std.specs.List.{concat, list_all};
ghost use Rattle.theory_lists.specs.Parted.{IsPartedAt};
ghost use Rattle.sb_blocks.specs.Places.{rank_of, item_before, IsPlace};
ghost use Rattle.sb_blocks.specs.Blocks.{are_blocks, block_at};

use crate::block::Block;
use crate::blocks::Blocks;
use crate::place::Place;

/// A test of items. A search wants one that the first items of a list pass and the others do not.
pub trait Test {
    /// The items of which it may be asked.
    ghost can_test: { Self → ℕ → Bool };

    /// The items that pass.
    ghost passes: { Self → ℕ → Bool };

    /// Whether the item passes.
    fn is_passed(&self, x: u32) -> bool
        requires { IsTrue (can_test self.now x) }
        ensures { result ≡ passes self.now x };
}

impl Blocks {
    /// A place between items that pass the test and items that do not, found by halving: the item
    /// before it passes, and the item behind it does not, where there are such. Where the first
    /// items of the list pass and the others do not it is the place between them.
    pub fn first_failing<T: Test>(&self, test: &T) -> Place
        requires { IsTrue (list_all (T.can_test test.now) (concat self.now)) }
        ensures place { IsPlace self.now result }
        ensures before { IfSome (item_before (concat self.now) (rank_of self.now result))
            (λ x. IsTrue (T.passes test.now x)) }
        ensures behind { IfSome (slice_get (concat self.now) (rank_of self.now result))
            (λ x. T.passes test.now x ≡ false) }
        ensures parted { (n : ℕ) → n ≤ length (concat self.now)
            → IsPartedAt (T.passes test.now) n (concat self.now) → rank_of self.now result ≡ n }
    {
        let blocks = self.blocks.as_slice();
        let passed = blocks_passed(test, blocks);
        if passed == 0 {
            return Place { block: 0, at: 0 };
        }
        let block = passed - 1;
        let at = items_passed(test, blocks[block].as_slice());
        Place { block, at }
    }
}

// How many blocks begin with an item that passes, if those are the first ones.
fn blocks_passed<T: Test>(test: &T, blocks: &[Block]) -> usize
    requires blocks { IsTrue (are_blocks blocks.now) }
    requires items { IsTrue (list_all (T.can_test test.now) (concat blocks.now)) }
    ensures within { result ≤ length blocks.now }
    ensures before { 0 < result
        → IsTrue (T.passes test.now (slice_index (block_at blocks.now (result - 1)) 0)) }
    ensures behind { result < length blocks.now
        → T.passes test.now (slice_index (block_at blocks.now result) 0) ≡ false }
{
    let mut low = 0;
    let mut high = blocks.len();
    'halves: while low < high {
        let middle = low + (high - low) / 2;
        if test.is_passed(blocks[middle].as_slice()[0]) {
            low = middle + 1;
        } else {
            high = middle;
        }
    }
    low
}

// How many items pass, if those are the first ones.
fn items_passed<T: Test>(test: &T, items: &[u32]) -> usize
    requires { IsTrue (list_all (T.can_test test.now) items.now) }
    ensures within { result ≤ length items.now }
    ensures before { 0 < result → IsTrue (T.passes test.now (slice_index items.now (result - 1))) }
    ensures behind { result < length items.now
        → T.passes test.now (slice_index items.now result) ≡ false }
{
    let mut low = 0;
    let mut high = items.len();
    'halves: while low < high {
        let middle = low + (high - low) / 2;
        if test.is_passed(items[middle]) {
            low = middle + 1;
        } else {
            high = middle;
        }
    }
    low
}
