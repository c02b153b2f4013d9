//! What stands at a place, and how many items before it.

ghost use Rattle.std.specs.Prelude.{◌≡◌, ◌+◌, ◌<◌, ◌^◌, length, slice_get, IfSome, IfNone, Some};
ghost use Rattle.std.specs.List.{concat};
ghost use Rattle.sb_blocks.specs.Places.{rank_of, item_before, IsPlace, IsItemPlace};

use crate::block::Block;
use crate::blocks::Blocks;
use crate::place::Place;

impl Blocks {
    /// How many items stand before the place: the lengths of the blocks before it are added.
    pub fn rank(&self, place: Place) -> usize
        requires { IsPlace self.now place }
        ensures { result ≡ rank_of self.now place }
    {
        let blocks = self.blocks.as_slice();
        let len = self.len;
        if place.block < blocks.len() {
            count_items(&blocks[..place.block]) + place.at
        } else {
            len
        }
    }

    /// The item behind the place: the one that stands there, or the first of the next block. `None`
    /// exactly at the end.
    pub fn at(&self, place: Place) -> Option<u32>
        requires { IsPlace self.now place }
        ensures { result ≡ slice_get (concat self.now) (rank_of self.now place) }
    {
        let place = self.following(place)?;
        Some(self.item(place))
    }

    /// The item before the place. `None` exactly at the start.
    pub fn before(&self, place: Place) -> Option<u32>
        requires { IsPlace self.now place }
        ensures { result ≡ item_before (concat self.now) (rank_of self.now place) }
    {
        let place = self.previous(place)?;
        Some(self.item(place))
    }

    /// The place of the item before the place. `None` exactly at the start.
    pub fn previous(&self, place: Place) -> Option<Place>
        requires { IsPlace self.now place }
        ensures item { IfSome result (λ before. IsItemPlace self.now before) }
        ensures next { IfSome result
            (λ before. rank_of self.now before + 1 ≡ rank_of self.now place) }
        ensures first { IfNone result (rank_of self.now place ≡ 0) }
    {
        if place.at > 0 {
            return Some(Place {
                block: place.block,
                at: place.at - 1,
            });
        }
        let blocks = self.blocks.as_slice();
        let before = place.block.min(blocks.len());
        if before == 0 {
            return None;
        }
        let block = before - 1;
        let at = blocks[block].len() - 1;
        Some(Place { block, at })
    }

    /// The place of the item behind the place, as the place of an item. `None` exactly at the end.
    pub fn following(&self, place: Place) -> Option<Place>
        requires { IsPlace self.now place }
        ensures item { IfSome result (λ behind. IsItemPlace self.now behind) }
        ensures same { IfSome result (λ behind. rank_of self.now behind ≡ rank_of self.now place) }
        ensures last { IfNone result (rank_of self.now place ≡ length (concat self.now)) }
    {
        let blocks = self.blocks.as_slice();
        if place.block >= blocks.len() {
            return None;
        }
        if place.at < blocks[place.block].len() {
            return Some(place);
        }
        let block = place.block + 1;
        if block < blocks.len() {
            Some(Place { block, at: 0 })
        } else {
            None
        }
    }

    // The item that stands there.
    fn item(&self, place: Place) -> u32
        requires { IsItemPlace self.now place }
        ensures { slice_get (concat self.now) (rank_of self.now place) ≡ Some result }
    {
        self.blocks[place.block].as_slice()[place.at]
    }
}

// How many items the blocks have.
fn count_items(blocks: &[Block]) -> usize
    requires { length (concat blocks.now) < 2 ^ 64 }
    ensures { result ≡ length (concat blocks.now) }
{
    let mut count = 0;
    for block in blocks {
        count += block.len();
    }
    count
}
