// The token at the front, by its first byte.
ghost use Rattle.std.specs.Prelude.{◌≡◌, ◌<◌, ◌≤◌, ◌≢◌, length, slice_index, IfSome};
ghost use Rattle.sb_lex.specs.Scanning as spec;

use crate::classes::byte_at;
use crate::kinds::{Kind, Mark};
use crate::names::{exclamation, letters, name};
use crate::numbers::unsigned;
use crate::quoted::{binary, enumeration, string_len};

/// What a token may be that begins with a byte.
#[derive(Clone, Copy)]
pub(crate) enum Head {
    Letter,
    Digit,
    Sign,
    Exclamation,
    Hash,
    Apostrophe,
    Point,
    Quote,
    Mark(Mark),
    Other,
}

#[inline(always)]
fn head_of(byte: u8) -> Head
    ensures { result ≡ spec.head_of byte }
{
    match byte {
        b'A'..=b'Z' | b'_' => Head::Letter,
        b'0'..=b'9' => Head::Digit,
        b'+' | b'-' => Head::Sign,
        b'!' => Head::Exclamation,
        b'#' => Head::Hash,
        b'\'' => Head::Apostrophe,
        b'.' => Head::Point,
        b'"' => Head::Quote,
        b'$' => Head::Mark(Mark::Dollar),
        b'*' => Head::Mark(Mark::Asterisk),
        b'(' => Head::Mark(Mark::Open),
        b')' => Head::Mark(Mark::Close),
        b',' => Head::Mark(Mark::Comma),
        b';' => Head::Mark(Mark::Semicolon),
        b'=' => Head::Mark(Mark::Equals),
        _ => Head::Other,
    }
}

/// The kind and the length of the token at the front.
#[inline(always)]
pub(crate) fn token_at(rest: &[u8]) -> Option<(Kind, usize)>
    requires { 0 < length rest.now }
    ensures found { result ≡ spec.scan rest.now }
    ensures within { IfSome result (λ x. x.1 ≤ length rest.now) }
{
    match head_of(rest[0]) {
        Head::Letter => letters(rest),
        Head::Digit => unsigned(rest),
        Head::Sign => signed(rest),
        Head::Exclamation => exclamation(rest),
        Head::Hash => name(rest),
        Head::Apostrophe => string(rest),
        Head::Point => enumeration(rest),
        Head::Quote => binary(rest),
        Head::Mark(mark) => Some((Kind::Mark(mark), 1)),
        Head::Other => None,
    }
}

#[inline(always)]
fn signed(rest: &[u8]) -> Option<(Kind, usize)>
    requires { 0 < length rest.now }
    ensures found { result ≡ spec.scan_at Head.Sign rest.now }
    ensures within { IfSome result (λ x. x.1 ≤ length rest.now) }
{
    match unsigned(&rest[1..]) {
        Some((kind, len)) => Some((kind, 1 + len)),
        None => None,
    }
}

#[inline(always)]
fn string(rest: &[u8]) -> Option<(Kind, usize)>
    requires { 0 < length rest.now }
    ensures found { result ≡ spec.scan_at Head.Apostrophe rest.now }
    ensures within { IfSome result (λ x. x.1 ≤ length rest.now) }
{
    match string_len(&rest[1..]) {
        Some(len) => Some((Kind::Str, 1 + len)),
        None => None,
    }
}
