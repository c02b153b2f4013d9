// White space and comments.
ghost use Rattle.std.specs.Prelude.{◌≡◌, ◌≤◌, ◌+◌, length, take, drop, IfSome};
ghost use Rattle.sb_lex.specs.Kinds.{Blank};
ghost use Rattle.sb_lex.specs.Scanning as spec;

use crate::classes::{byte_at, is_white};

/// How many bytes of white space and comments stand at the front.
#[inline]
pub(crate) fn blank_len(rest: &[u8]) -> usize
    ensures blank { Blank (take result rest.now) }
    ensures stops { spec.piece_len (drop result rest.now) ≡ 0 }
    ensures within { result ≤ length rest.now }
{
    let mut at = 0;
    'pieces: loop {
        let len = piece_len(&rest[at..]);
        if len == 0 {
            return at;
        }
        at += len;
    }
}

#[inline]
fn piece_len(rest: &[u8]) -> usize
    ensures len { result ≡ spec.piece_len rest.now }
    ensures within { result ≤ length rest.now }
{
    if is_white(byte_at(rest, 0)) {
        1
    } else {
        comment_len(rest)
    }
}

#[inline]
#[tactic(auto, unfolding(crate::specs::Scanning::comment_len))]
fn comment_len(rest: &[u8]) -> usize
    ensures len { result ≡ spec.comment_len rest.now }
    ensures within { result ≤ length rest.now }
{
    if byte_at(rest, 0) == b'/' && byte_at(rest, 1) == b'*' {
        closed_len(&rest[2..])
    } else {
        0
    }
}

fn closed_len(text: &[u8]) -> usize
    ensures len { result ≡ spec.closed_len (spec.close_at text.now) }
    ensures within { result ≤ length text.now + 2 }
{
    match close_at(text) {
        Some(at) => at + 4,
        None => 0,
    }
}

/// Where the next `*/` stands.
fn close_at(text: &[u8]) -> Option<usize>
    ensures place { result ≡ spec.close_at text.now }
    ensures within { IfSome result (λ at. at + 2 ≤ length text.now) }
{
    'bytes: for at in 0..text.len() {
        if text[at] == b'*' && byte_at(text, at + 1) == b'/' {
            return Some(at);
        }
    }
    None
}
