// A number in tenths of a unit.
ghost use Rattle.std.specs.Prelude.{◌≡◌, ◌<◌, ◌≤◌, ◌^◌, min, length};
ghost use Rattle.sb_fixed.specs.Decimals.{digits_in, mantissa, fraction, raised, lowered};
ghost use Rattle.sb_fixed.specs.Decimals.{decimal_of};
ghost use Rattle.sb_fixed.specs.Rounding.{scaled};
ghost use Rattle.sb_fixed.specs.Steps.{held, tenths_of, wanted as wanted_in};

use crate::digits::{digit_count, leading, number};
use crate::parts::{cut, has_minus};

/// How many tenths of a unit of 10^-places there are in the size of the number that a text writes.
pub(crate) fn tenths(text: &[u8], places: u32) -> u128
    requires { places ≤ 12 }
    ensures { result ≡ min (tenths_of (scaled places (decimal_of text.now))) held }
{
    let (mantissa, _) = cut(text, b'E');
    leading(mantissa, wanted(text, places))
}

/// How many digits are enough to know them.
fn wanted(text: &[u8], places: u32) -> u128
    requires { places ≤ 12 }
    ensures value { result ≡ wanted_in places text.now }
    ensures short { length (digits_in (mantissa text.now)) < 2 ^ 64 }
    ensures few { length (digits_in (fraction text.now)) < 2 ^ 64 }
{
    let (mantissa, exponent) = cut(text, b'E');
    let (_, fraction) = cut(mantissa, b'.');
    let (up, down) = tens(exponent);
    let before = digit_count(mantissa) + u128::from(places + 1) + up;
    before.saturating_sub(digit_count(fraction) + down)
}

/// How often an exponent multiplies and divides by ten.
fn tens(power: &[u8]) -> (u128, u128)
    ensures up { result.0 ≡ min (raised power.now) held }
    ensures down { result.1 ≡ min (lowered power.now) held }
{
    let size = number(power);
    if has_minus(power) {
        (0, size)
    } else {
        (size, 0)
    }
}
