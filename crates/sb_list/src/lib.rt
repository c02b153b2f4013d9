//! The one list type of the project: a vector that contracts see as the list of its items.
//!
//! A type that is named in the plural (`Items`, `Layers`, `Spaces`) is [`Listed`] at its item type,
//! under a name of its own in the crate that names it. [`Text`] is the list of bytes. Lists nest:
//! a contract sees a `Listed<Listed<u8>>` as a list of lists. To go over the items write
//! `for item in list.as_slice()`.
#![tactic(auto)]

mod listed;
mod text;

pub use listed::Listed;
pub use text::Text;
