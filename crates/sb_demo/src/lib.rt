//! The generated model: an exchange text (ISO 10303-21) of a row of up to 40 rooms, for whoever has
//! no model at hand.
//!
//! Each room has walls on all sides, a slab below and above, and a window. `specs/Blocks.antt` is
//! the table of its boxes, `specs/Demo.antt` the whole text. Begin with [`demo_text`].
#![tactic(auto)]

mod block_texts;
mod blocks;
mod demo;
mod error;
mod numbering;
mod relations;

pub use demo::demo_text;
pub use error::DemoError;
pub use numbering::MOST_ROOMS;
