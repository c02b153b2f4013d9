// Indices of points, as a curve's segments name them.
ghost use Rattle.std.specs.Prelude.{◌≡◌, ◌+◌, ◌*◌, ◌≤◌, min, IsTrue, if◌then◌else◌};
ghost use Rattle.std.specs.Char.{is_ascii_digit, digit_value};
ghost use Rattle.std.specs.Str.Parse.{digits_value};
ghost use Rattle.std.specs.List.{list_all};
ghost use Rattle.sb_fixed.specs.Decimals.{digits_in, has_minus};
ghost use Rattle.sb_prism.specs.Faults as faults;
ghost use Rattle.sb_prism.specs.Kept as spec;
ghost use Rattle.sb_prism.specs.Picked.{place_of};

use sb_list::Text;
use sb_schema::TypedList;

/// From here on a number grows no more: no list has so many points.
const HELD: u128 = 18_446_744_073_709_551_616;

/// Whether each segment is of straight lines between points that are there, of which there are so many.
pub(crate) fn are_segments(count: usize, segments: &[TypedList]) -> bool
    ensures { result ≡ list_all (faults.is_segment count) segments.now }
{
    for segment in segments {
        if !is_segment(count, segment) {
            return false;
        }
    }
    true
}

fn is_segment(count: usize, segment: &TypedList) -> bool
    ensures { result ≡ faults.is_segment count segment.now }
{
    segment.keyword.bytes() == b"IFCLINEINDEX".as_slice()
        && are_indices(count, segment.list.as_slice())
}

fn are_indices(count: usize, texts: &[Text]) -> bool
    ensures { result ≡ list_all (faults.is_index count) texts.now }
{
    for text in texts {
        if !is_index(count, text.bytes()) {
            return false;
        }
    }
    true
}

fn is_index(count: usize, text: &[u8]) -> bool
    ensures { result ≡ faults.is_index count text.now }
{
    let index = index(text);
    1 <= index && index <= count as u128
}

/// The place of the point of this index, counted from 0.
pub(crate) fn place(text: &[u8]) -> usize
    ensures { result ≡ place_of text.now }
{
    index(text).saturating_sub(1) as usize
}

/// The index that a text writes, and 0 where it is negative.
fn index(text: &[u8]) -> u128
    ensures { result ≡ min (faults.index_of text.now) spec.held }
{
    if is_negative(text) { 0 } else { number(text) }
}

/// Whether a minus stands first.
pub(crate) fn is_negative(text: &[u8]) -> bool
    ensures { result ≡ has_minus text.now }
{
    match text.first() {
        Some(byte) => *byte == b'-',
        None => false,
    }
}

/// The number that the digits in a text write.
fn number(text: &[u8]) -> u128
    ensures { result ≡ min (digits_value 10 (digits_in text.now)) spec.held }
{
    let mut number = 0;
    'bytes: for byte in text {
        number = with_byte(number, *byte);
    }
    number
}

/// The number with one digit more, if the byte is one.
fn with_byte(number: u128, byte: u8) -> u128
    requires small { number ≤ spec.held }
    ensures { result ≡ (if is_ascii_digit byte then min (number * 10 + digit_value byte) spec.held else number) }
{
    if byte.is_ascii_digit() {
        grown(number, byte)
    } else {
        number
    }
}

/// The number with one digit more.
fn grown(number: u128, digit: u8) -> u128
    requires small { number ≤ spec.held }
    requires is_digit { IsTrue (is_ascii_digit digit) }
    ensures { result ≡ min (number * 10 + digit_value digit) spec.held }
{
    (number * 10 + u128::from(digit - b'0')).min(HELD)
}
