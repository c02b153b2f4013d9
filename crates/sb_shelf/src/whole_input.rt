ghost use Rattle.std.specs.Prelude.{◌≡◌, ◌<◌, ◌≤◌, ◌↔◌, [], ◌∷◌, length, vec_len};
ghost use Rattle.std.specs.Prelude.{IfOk, IfErr, OnOk, IsErrOf};
ghost use Rattle.std.specs.Bool.{OnTrue, OnFalse};
ghost use Rattle.std.specs.Option.{ForSome};
ghost use Rattle.sb_shelf.specs.World.{OnlyReads, Rose, also_asked};
ghost use Rattle.sb_shelf.specs.WholeTexts.{IsUndisturbed, longest_input, taken_and_left};

use crate::shelf::Shelf;
use std::alloc::Global;
use thiserror::Error;

/// The longest input that is taken, in bytes: 64 MiB. The contract of [`read_all`] fixes it.
pub const LONGEST_INPUT: usize = 67_108_864;

/// How many bytes one read asks for.
const PIECE: usize = 65_536;

/// Why no input was read.
#[derive(Debug, Drop, Error)]
pub enum ReadError {
    /// Opening or reading has failed.
    #[error("the input cannot be read")]
    ReadFault,
    /// The input is longer than [`LONGEST_INPUT`].
    #[error("the input is longer than 67108864 bytes")]
    TooLong,
    /// There is no memory for the input.
    #[error("out of memory")]
    NoMemory,
}

/// Opens the path and reads all that is under it.
///
/// - `Ok(bytes)`: exactly the bytes under the path, where the shelf tells them.
/// - `Err(ReadFault)`: only where the count of read faults rose in this call.
/// - `Err(TooLong)`: exactly where more than [`LONGEST_INPUT`] bytes were taken without a fault.
/// - `Err(NoMemory)`: there was no memory for the bytes or for the piece that they come in.
///
/// In each case the outputs are as they were, and so are the other counts. The path was opened once,
/// and no other.
pub fn read_all<S: Shelf>(alloc: Global, shelf: &mut S, path: &str) -> Result<Vec<u8>, ReadError>
    ensures keeps { OnlyReads (S.state shelf.old) (S.state shelf.new) }
    ensures asked { (S.state shelf.new).asked_inputs
        ≡ also_asked (S.state shelf.old).asked_inputs (path.now ∷ []) }
    ensures bytes { IfOk result (λ bytes. ForSome ((S.state shelf.old).under path.now)
        (λ told. bytes.items ≡ told)) }
    ensures within { IfOk result (λ bytes. vec_len bytes ≤ longest_input) }
    ensures all_taken { OnOk result (ForSome (S.state shelf.new).left (λ left. left ≡ [])) }
    ensures fault { IsErrOf result ReadError.ReadFault
        → Rose (S.state shelf.old).read_faults (S.state shelf.new).read_faults }
    ensures too_long { ForSome ((S.state shelf.old).under path.now) (λ told. IsUndisturbed result
        → (IsErrOf result ReadError.TooLong ↔ (longest_input < length told))) }
{
    if shelf.open(path).is_err() {
        return Err(ReadError::ReadFault);
    }
    let mut piece = empty_piece(alloc)?;
    let mut bytes = Vec::new(alloc);
    'turns: while take_more(shelf, &mut piece, &mut bytes)? {}
    Ok(bytes)
}

// What reads go into. A vector, since so many bytes are too much for the stack.
fn empty_piece(alloc: Global) -> Result<Vec<u8>, ReadError>
    ensures length { IfOk result (λ piece. vec_len piece ≡ PIECE) }
    ensures memory { IfErr result (λ error. error ≡ ReadError.NoMemory) }
{
    vec![in alloc; 0; PIECE].map_err(|_| ReadError::NoMemory)
}

// Reads once and appends what came. Answers whether anything came; nothing comes at the end.
fn take_more<S: Shelf>(
    shelf: &mut S,
    piece: &mut [u8],
    bytes: &mut Vec<u8>,
) -> Result<bool, ReadError>
    requires piece { 0 < length piece.old }
    requires within { vec_len bytes.old ≤ longest_input }
    ensures keeps { OnlyReads (S.state shelf.old) (S.state shelf.new) }
    ensures asked { (S.state shelf.new).asked_inputs ≡ (S.state shelf.old).asked_inputs }
    ensures joined { OnOk result (taken_and_left bytes.new.items (S.state shelf.new)
        ≡ taken_and_left bytes.old.items (S.state shelf.old)) }
    ensures within { OnOk result (vec_len bytes.new ≤ longest_input) }
    ensures more { IfOk result (λ more. OnTrue more (vec_len bytes.old < vec_len bytes.new)) }
    ensures end { IfOk result (λ more. OnFalse more
        (ForSome (S.state shelf.new).left (λ left. left ≡ []))) }
    ensures fault { IsErrOf result ReadError.ReadFault
        → Rose (S.state shelf.old).read_faults (S.state shelf.new).read_faults }
    ensures too_long { IsErrOf result ReadError.TooLong
        → ForSome (taken_and_left bytes.old.items (S.state shelf.old))
        (λ all. longest_input < length all) }
{
    let Ok(count) = shelf.read(piece) else {
        return Err(ReadError::ReadFault);
    };
    if count > LONGEST_INPUT - bytes.len() {
        return Err(ReadError::TooLong);
    }
    let added = bytes.extend_from_slice(&piece[..count]);
    match added {
        Ok(()) => Ok(count > 0),
        Err(_) => Err(ReadError::NoMemory),
    }
}
