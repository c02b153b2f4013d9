// The digits in a text.
ghost use Rattle.std.specs.Prelude.{◌≡◌, ◌+◌, ◌-◌, ◌*◌, ◌^◌, ◌<◌, ◌≤◌, min, length, take, IsTrue};
ghost use Rattle.std.specs.Char.{is_ascii_digit, digit_value};
ghost use Rattle.std.specs.Str.Parse.{digits_value};
ghost use Rattle.sb_fixed.specs.Decimals.{digits_in};
ghost use Rattle.sb_fixed.specs.Steps.{held, leading as leading_of};

/// From here on a number grows no more: every answer is below it.
const HELD: u128 = 100_000_000_000_000_000_000_000_000;

/// How many digits stand in a text.
pub(crate) fn digit_count(text: &[u8]) -> u128
    ensures value { result ≡ length (digits_in text.now) }
    ensures few { result < 2 ^ 64 }
{
    let mut count = 0;
    for byte in text {
        if byte.is_ascii_digit() {
            count += 1;
        }
    }
    count
}

/// The number that the first digits in a text write, so many of them, and zeros where there are
/// fewer.
pub(crate) fn leading(text: &[u8], count: u128) -> u128
    ensures { result ≡ min (leading_of count (digits_in text.now)) held }
{
    let (number, left) = first_digits(text, count);
    with_zeros(number, left)
}

/// The number that the digits in a text write.
pub(crate) fn number(text: &[u8]) -> u128
    ensures { result ≡ min (digits_value 10 (digits_in text.now)) held }
{
    first_digits(text, text.len() as u128).0
}

/// The number that the first digits in a text write, so many of them, and how many of these it has
/// not.
fn first_digits(text: &[u8], count: u128) -> (u128, u128)
    ensures number { result.0 ≡ min (digits_value 10 (take count (digits_in text.now))) held }
    ensures left { result.1 ≡ count - length (digits_in text.now) }
{
    let mut number = 0;
    let mut left = count;
    for byte in text {
        if left > 0 && byte.is_ascii_digit() {
            number = grown(number, *byte);
            left -= 1;
        }
    }
    (number, left)
}

/// The number with one digit more.
fn grown(number: u128, digit: u8) -> u128
    requires small { number ≤ held }
    requires is_digit { IsTrue (is_ascii_digit digit) }
    ensures { result ≡ min (number * 10 + digit_value digit) held }
{
    (number * 10 + u128::from(digit - b'0')).min(HELD)
}

/// The number with so many zeros more.
fn with_zeros(number: u128, zeros: u128) -> u128
    requires small { number ≤ held }
    ensures { result ≡ min (number * 10 ^ zeros) held }
{
    number.saturating_mul(tens(zeros)).min(HELD)
}

/// Ten to the power of `zeros`, and from 26 on to that of 26.
fn tens(zeros: u128) -> u128
    ensures { result ≡ 10 ^ min zeros 26 }
{
    10_u128.pow(zeros.min(26) as u32)
}
