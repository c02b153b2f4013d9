// Strings, enumerations and binaries.
ghost use Rattle.std.specs.Prelude.{◌≡◌, ◌+◌, ◌<◌, ◌≤◌, ◌&&◌, ◌==◌, if◌then◌else◌, length, slice_index, Some, None, IfSome};
ghost use Rattle.sb_lex.specs.Scanning as spec;

use crate::classes::{byte_at, hex_digits, is_filling, is_letter, plain_bytes, word_bytes};
use crate::kinds::Kind;

/// A string, behind its first apostrophe.
#[inline]
pub(crate) fn string_len(rest: &[u8]) -> Option<usize>
    ensures found { result ≡ spec.string_len rest.now }
    ensures within { IfSome result (λ len. len ≤ length rest.now) }
{
    let mut at = 0;
    'pieces: while at < rest.len() {
        at += plain_bytes(&rest[at..]);
        if at == rest.len() {
            return None;
        }
        if byte_at(rest, at + 1) != b'\'' {
            return Some(at + 1);
        }
        at += 2;
    }
    None
}

/// An enumeration, where `.` is at the front.
#[inline(always)]
#[tactic(auto, unfolding(crate::specs::Scanning::scan_enclosed))]
pub(crate) fn enumeration(rest: &[u8]) -> Option<(Kind, usize)>
    requires { 0 < length rest.now }
    ensures found { result ≡ spec.scan_enumeration rest.now }
    ensures within { IfSome result (λ x. x.1 ≤ length rest.now) }
{
    let len = word_bytes(&rest[1..]);
    enclosed(
        rest,
        Kind::Enumeration,
        b'.',
        len,
        is_letter(byte_at(rest, 1)),
    )
}

/// A binary, where `"` is at the front.
#[inline(always)]
#[tactic(auto, unfolding(crate::specs::Scanning::scan_enclosed))]
pub(crate) fn binary(rest: &[u8]) -> Option<(Kind, usize)>
    requires { 0 < length rest.now }
    ensures found { result ≡ spec.scan_binary rest.now }
    ensures within { IfSome result (λ x. x.1 ≤ length rest.now) }
{
    let len = hex_digits(&rest[1..]);
    enclosed(rest, Kind::Binary, b'"', len, is_filling(byte_at(rest, 1)))
}

/// A token with so many bytes between two equal marks, if these bytes begin so and the second mark
/// is there.
#[inline(always)]
fn enclosed(rest: &[u8], kind: Kind, mark: u8, len: usize, begins: bool) -> Option<(Kind, usize)>
    requires mark { 0 < mark }
    requires within { len < length rest.now }
    ensures found { result ≡ (if begins && slice_index rest.now (1 + len) == mark
        then Some (kind, len + 2) else None) }
    ensures within { IfSome result (λ x. x.1 ≤ length rest.now) }
{
    if begins && byte_at(rest, 1 + len) == mark {
        Some((kind, len + 2))
    } else {
        None
    }
}
