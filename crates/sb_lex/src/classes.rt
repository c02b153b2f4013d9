// Classes of bytes, and how many bytes of a class stand at the front.
ghost use Rattle.std.specs.Prelude.{◌≡◌, ◌<◌, ◌≤◌, not, length, slice_index};
ghost use Rattle.std.specs.List.{prefix_len};
ghost use Rattle.std.specs.Char.{is_ascii_digit};
ghost use Rattle.sb_lex.specs.Bytes as spec;

/// The byte at `index`, or 0 past the end: 0 begins nothing.
#[inline(always)]
pub(crate) fn byte_at(bytes: &[u8], index: usize) -> u8
    ensures value { result ≡ slice_index bytes.now index }
    ensures within { 0 < result → index < length bytes.now }
{
    if index < bytes.len() { bytes[index] } else { 0 }
}

#[inline(always)]
pub(crate) fn is_letter(byte: u8) -> bool
    ensures { result ≡ spec.is_letter byte }
{
    byte.is_ascii_uppercase() || byte == b'_'
}

#[inline(always)]
fn is_word_byte(byte: u8) -> bool
    ensures { result ≡ spec.is_word_byte byte }
{
    is_letter(byte) || byte.is_ascii_digit()
}

#[inline(always)]
fn is_hex(byte: u8) -> bool
    ensures { result ≡ spec.is_hex byte }
{
    byte.is_ascii_digit() || matches!(byte, b'A'..=b'F')
}

#[inline(always)]
pub(crate) fn is_filling(byte: u8) -> bool
    ensures { result ≡ spec.is_filling byte }
{
    matches!(byte, b'0'..=b'3')
}

#[inline(always)]
pub(crate) fn is_sign(byte: u8) -> bool
    ensures { result ≡ spec.is_sign byte }
{
    byte == b'+' || byte == b'-'
}

#[inline(always)]
pub(crate) fn is_white(byte: u8) -> bool
    ensures { result ≡ spec.is_white byte }
{
    matches!(byte, 9..=13) || byte == b' '
}

#[inline]
pub(crate) fn word_bytes(bytes: &[u8]) -> usize
    ensures len { result ≡ prefix_len spec.is_word_byte bytes.now }
    ensures within { result ≤ length bytes.now }
{
    bytes.iter().take_while(|byte| is_word_byte(**byte)).count()
}

#[inline]
pub(crate) fn digits(bytes: &[u8]) -> usize
    ensures len { result ≡ prefix_len is_ascii_digit bytes.now }
    ensures within { result ≤ length bytes.now }
{
    bytes
        .iter()
        .take_while(|byte| byte.is_ascii_digit())
        .count()
}

#[inline]
pub(crate) fn hex_digits(bytes: &[u8]) -> usize
    ensures len { result ≡ prefix_len spec.is_hex bytes.now }
    ensures within { result ≤ length bytes.now }
{
    bytes.iter().take_while(|byte| is_hex(**byte)).count()
}

/// How many bytes stand before the next apostrophe.
#[inline]
pub(crate) fn plain_bytes(bytes: &[u8]) -> usize
    ensures len { result ≡ prefix_len (λ b. not (spec.is_apostrophe b)) bytes.now }
    ensures within { result ≤ length bytes.now }
{
    bytes.iter().take_while(|byte| **byte != b'\'').count()
}
