ghost use Rattle.std.specs.Prelude.{◌≡◌, ◌++◌, OnOk, OnErr};
ghost use Rattle.std.specs.List.{flat_map};
ghost use Rattle.sb_texts.specs.Begun.{BeginsWith};
ghost use Rattle.sb_texts.specs.Pieces.{piece_text};

use crate::bytes::append;
use crate::numbers::{append_number, append_padded, append_reference, append_signed, append_whole};
use crate::references::append_references;
use sb_list::Text;
use std::alloc::AllocError;

/// A piece of a text.
#[derive(Clone, Copy)]
pub enum Piece<'a> {
    /// These bytes.
    Bytes(&'a [u8]),
    /// A number in decimal: `4000`.
    Number(u64),
    /// A signed number in decimal: `-25`.
    Signed(i64),
    /// A number behind as many zeros as bring it to this width: 42 at width 5 is `00042`.
    Padded(u64, usize),
    /// The number of an instance: `#101`.
    Reference(u64),
    /// The numbers of instances with commas between them: `#109,#119`.
    References(&'a [u64]),
    /// A whole number with a point behind it: `-100.`.
    Whole(i64),
}

/// Appends the pieces in order. Want of memory may leave a first part of them at the end of the
/// text.
pub fn append_all(text: &mut Text, pieces: &[Piece]) -> Result<(), AllocError>
    ensures ok { OnOk result (text.new ≡ text.old ++ flat_map piece_text pieces.now) }
    ensures err { OnErr result (BeginsWith text.new text.old) }
{
    for piece in pieces {
        append_piece(text, *piece)?;
    }
    Ok(())
}

fn append_piece(text: &mut Text, piece: Piece) -> Result<(), AllocError>
    ensures ok { OnOk result (text.new ≡ text.old ++ piece_text piece.entry) }
    ensures err { OnErr result (BeginsWith text.new text.old) }
{
    match piece {
        Piece::Bytes(bytes) => append(text, bytes),
        Piece::Number(number) => append_number(text, number),
        Piece::Signed(number) => append_signed(text, number),
        Piece::Padded(number, width) => append_padded(text, number, width),
        Piece::Reference(number) => append_reference(text, number),
        Piece::References(numbers) => append_references(text, numbers),
        Piece::Whole(number) => append_whole(text, number),
    }
}
