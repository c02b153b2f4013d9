// The whole numbers of the first form: `0.`, or an optional minus, a digit from 1 to 9, at most five
// further digits, and a point.
ghost use Rattle.std.specs.Prelude.{◌≡◌, ◌≢◌, ◌<◌, ◌≤◌, ◌++◌, ◌∷◌, List, ℕ, ℤ, IfSome, IfNone, decimal, length, true, false, ◌==◌};
ghost use Rattle.std.specs.List.{list_all, position};
ghost use Rattle.std.specs.Char.{is_ascii_digit};
ghost use Rattle.sb_form.specs.Numbers.{IsShort, number_text, point, HasPlainLength};
ghost use Rattle.std.specs.Str.Parse.{digits_value};

const POINT: u8 = b'.';

/// The number at the front of the bytes, and what stands behind its point.
pub(crate) fn number(bytes: &[u8]) -> Option<(i32, &[u8])>
    ensures found { IfSome result (λ p. IsShort p.0 × (bytes.now ≡ number_text p.0 ++ p.1.now)) }
    ensures none { IfNone result ((n : ℤ) (rest : List ℕ) → IsShort n → bytes.now ≢ number_text n ++ rest) }
{
    match behind(b"-", bytes) {
        None => {
            let (size, rest) = size(bytes)?;
            Some((size as i32, rest))
        }
        Some(digits) => {
            let (size, rest) = size(digits)?;
            if size == 0 {
                return None;
            }
            Some((-(size as i32), rest))
        }
    }
}

/// What stands behind the opening, where the bytes begin with it.
pub(crate) fn behind<'a>(opening: &[u8], bytes: &'a [u8]) -> Option<&'a [u8]>
    ensures found { IfSome result (λ rest. bytes.now ≡ opening.now ++ rest.now) }
    ensures none { IfNone result ((rest : List ℕ) → bytes.now ≢ opening.now ++ rest) }
{
    bytes.strip_prefix(opening)
}

/// The number of at most six digits at the front of the bytes, and what stands behind its point.
fn size(bytes: &[u8]) -> Option<(u32, &[u8])>
    ensures found { IfSome result (λ p. (p.0 < 1000000) × (bytes.now ≡ decimal p.0 ++ point ∷ p.1.now)) }
    ensures none { IfNone result ((n : ℕ) (rest : List ℕ) → n < 1000000 → bytes.now ≢ decimal n ++ point ∷ rest) }
{
    let point = point_place(bytes)?;
    let value = plain_value(&bytes[..point])?;
    Some((value, &bytes[point + 1..]))
}

/// Where the first point stands.
fn point_place(bytes: &[u8]) -> Option<usize>
    ensures { result ≡ position (λ b. b == point) bytes.now }
{
    bytes.iter().position(|b| *b == POINT)
}

/// The number that the digits write, where they are at most six and no zero leads.
fn plain_value(digits: &[u8]) -> Option<u32>
    ensures found { IfSome result (λ n. (n < 1000000) × (digits.now ≡ decimal n)) }
    ensures none { IfNone result ((n : ℕ) → n < 1000000 → digits.now ≢ decimal n) }
{
    if has_plain_length(digits) && are_digits(digits) {
        Some(value_of(digits))
    } else {
        None
    }
}

/// Whether there are one to six bytes, and no zero leads others.
fn has_plain_length(digits: &[u8]) -> bool
    ensures yes { result ≡ true → HasPlainLength digits.now }
    ensures no { result ≡ false → HasPlainLength digits.now → ⊥ }
{
    match digits.len() {
        0 => false,
        1 => true,
        2..=6 => digits[0] != b'0',
        _ => false,
    }
}

fn are_digits(bytes: &[u8]) -> bool
    ensures { result ≡ list_all is_ascii_digit bytes.now }
{
    bytes.iter().all(|b| b.is_ascii_digit())
}

fn value_of(digits: &[u8]) -> u32
    requires few { length digits.now ≤ 6 }
    requires digits { list_all is_ascii_digit digits.now ≡ true }
    ensures { result ≡ digits_value 10 digits.now }
{
    let mut value = 0;
    for digit in digits {
        value = 10 * value + u32::from(*digit - b'0');
    }
    value
}
