// Words, keywords and the names of instances.
ghost use Rattle.std.specs.Prelude.{◌≡◌, ◌+◌, ◌*◌, ◌^◌, ◌<◌, ◌≤◌, min, length, take, slice_index, IfSome, IsTrue};
ghost use Rattle.std.specs.List.{prefix_len};
ghost use Rattle.std.specs.Char.{is_ascii_digit, digit_value};
ghost use Rattle.std.specs.Str.Parse.{digits_value};
ghost use Rattle.sb_lex.specs.Bytes.{is_letter};
ghost use Rattle.sb_lex.specs.Kinds.{numbers_end};
ghost use Rattle.sb_lex.specs.Scanning as spec;

use crate::classes::{byte_at, is_letter, word_bytes};
use crate::kinds::{Kind, Word};

/// One more than the greatest number of an instance. From here on a number grows no more.
const TOO_LARGE: u64 = 1 << 32;

/// A word or a keyword, where a letter is at the front.
#[inline(always)]
#[tactic(auto, unfolding(crate::specs::Scanning::scan_letters))]
pub(crate) fn letters(rest: &[u8]) -> Option<(Kind, usize)>
    ensures found { result ≡ spec.scan_letters rest.now }
    ensures within { IfSome result (λ x. x.1 ≤ length rest.now) }
{
    let len = word_bytes(rest);
    // No keyword has a dash behind it but the beginning of a word.
    if byte_at(rest, len) == b'-' {
        if let Some(word) = words(rest) {
            return Some(word);
        }
    }
    Some((Kind::Keyword, len))
}

#[inline(always)]
fn words(rest: &[u8]) -> Option<(Kind, usize)>
    ensures found { result ≡ spec.scan_words rest.now }
    ensures within { IfSome result (λ x. x.1 ≤ length rest.now) }
{
    if rest.starts_with(b"ISO-10303-21") {
        Some((Kind::Word(Word::First), 12))
    } else if rest.starts_with(b"END-ISO-10303-21") {
        Some((Kind::Word(Word::Last), 16))
    } else {
        None
    }
}

/// A keyword with `!` at the front.
#[inline(always)]
#[tactic(auto, unfolding(crate::specs::Scanning::scan_exclamation))]
pub(crate) fn exclamation(rest: &[u8]) -> Option<(Kind, usize)>
    ensures found { result ≡ spec.scan_exclamation rest.now }
    ensures within { IfSome result (λ x. x.1 ≤ length rest.now) }
{
    if is_letter(byte_at(rest, 1)) {
        Some((Kind::Keyword, 1 + word_bytes(&rest[1..])))
    } else {
        None
    }
}

/// The name of an instance, where `#` is at the front.
#[inline(always)]
#[tactic(auto, unfolding(crate::specs::Scanning::scan_name))]
pub(crate) fn name(rest: &[u8]) -> Option<(Kind, usize)>
    requires { 0 < length rest.now }
    ensures found { result ≡ spec.scan_name rest.now }
    ensures within { IfSome result (λ x. x.1 ≤ length rest.now) }
{
    let (len, number) = leading_digits(&rest[1..]);
    if 0 < number && number < TOO_LARGE {
        Some((Kind::Name(number as u32), 1 + len))
    } else {
        None
    }
}

/// How many digits are at the front, and the number that they write.
#[inline]
fn leading_digits(bytes: &[u8]) -> (usize, u64)
    ensures len { result.0 ≡ prefix_len is_ascii_digit bytes.now }
    ensures within { result.0 ≤ length bytes.now }
    ensures value { result.1 ≡ min (digits_value 10 (take result.0 bytes.now)) numbers_end }
{
    let mut number = 0;
    let mut len = 0;
    'digits: while len < bytes.len() && bytes[len].is_ascii_digit() {
        number = grown(number, bytes[len]);
        len += 1;
    }
    (len, number)
}

#[inline(always)]
fn grown(number: u64, digit: u8) -> u64
    requires small { number ≤ numbers_end }
    requires is_digit { IsTrue (is_ascii_digit digit) }
    ensures { result ≡ min (number * 10 + digit_value digit) numbers_end }
{
    (number * 10 + u64::from(digit - b'0')).min(TOO_LARGE)
}
