//! What writers of texts share. A line of a text is a list of pieces: [`append_all`] appends them
//! in one call, whose contract is the line as it stands in a definition.
//!
//! `specs/Pieces.antt` says how each piece is written.
#![tactic(auto)]

mod bytes;
mod numbers;
mod pieces;
mod references;

pub use bytes::{append, append_repeated};
pub use numbers::{append_number, append_padded, append_reference, append_signed, append_whole};
pub use pieces::{Piece, append_all};
pub use references::append_references;
