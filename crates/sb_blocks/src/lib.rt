//! A list of numbers kept in blocks, for lists that change at any place.
//!
//! An insertion or a removal moves the items of one block, at most 1,024, and at times the blocks
//! behind it, but never the whole list. Contracts see [`Blocks`] as the list of its blocks. The flat
//! list is these joined, and every call says what it does to that. Begin with [`Blocks::insert`].
#![tactic(auto)]

mod block;
mod blocks;
mod changes;
mod place;
mod reads;
mod search;

pub use blocks::Blocks;
pub use place::Place;
pub use search::Test;
