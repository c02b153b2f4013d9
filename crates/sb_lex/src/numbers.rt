// Integers and reals.
ghost use Rattle.std.specs.Prelude.{◌≡◌, ◌≤◌, length, IfSome};
ghost use Rattle.sb_lex.specs.Scanning as spec;

use crate::classes::{byte_at, digits, is_sign};
use crate::kinds::Kind;

/// An integer or a real without a sign.
#[inline(always)]
#[tactic(auto, unfolding(crate::specs::Scanning::scan_unsigned))]
pub(crate) fn unsigned(rest: &[u8]) -> Option<(Kind, usize)>
    ensures found { result ≡ spec.scan_unsigned rest.now }
    ensures within { IfSome result (λ x. x.1 ≤ length rest.now) }
{
    let len = digits(rest);
    if len == 0 {
        None
    } else if byte_at(rest, len) == b'.' {
        Some((Kind::Real, len + 1 + fraction_len(&rest[len + 1..])))
    } else {
        Some((Kind::Integer, len))
    }
}

/// What stands behind the point of a real.
#[inline]
fn fraction_len(rest: &[u8]) -> usize
    ensures len { result ≡ spec.fraction_len rest.now }
    ensures within { result ≤ length rest.now }
{
    let len = digits(rest);
    len + exponent_len(&rest[len..])
}

#[inline]
#[tactic(auto, unfolding(crate::specs::Scanning::exponent_len))]
fn exponent_len(rest: &[u8]) -> usize
    ensures len { result ≡ spec.exponent_len rest.now }
    ensures within { result ≤ length rest.now }
{
    if byte_at(rest, 0) != b'E' {
        return 0;
    }
    let signed = 1 + sign_len(&rest[1..]);
    let len = digits(&rest[signed..]);
    if len == 0 { 0 } else { signed + len }
}

fn sign_len(rest: &[u8]) -> usize
    ensures len { result ≡ spec.sign_len rest.now }
    ensures within { result ≤ length rest.now }
{
    if is_sign(byte_at(rest, 0)) { 1 } else { 0 }
}
