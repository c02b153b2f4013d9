ghost use Rattle.std.specs.Prelude.{◌≡◌, ◌↔◌, ◌<◌, ◌≤◌, ◌^◌, IfOk, IsErr, unsigned_abs};
ghost use Rattle.sb_fixed.specs.Decimals.{decimal_of};
ghost use Rattle.sb_fixed.specs.Rounding.{scaled, rounded};
ghost use Rattle.sb_fixed.specs.Lengths.{nanometre_places, micrometre_places, ratio_places};
ghost use Rattle.sb_fixed.specs.Lengths.{nanometres_of, micrometres_of, ratio_of};
ghost use Rattle.sb_fixed.specs.Lengths.{greatest_nanometres, greatest_micrometres, greatest_ratio};

use crate::parts::has_minus;
use crate::reading::tenths;
use crate::rounding::with_sign;
use sb_fraction::Unit;

/// The number is beyond the greatest that the call answers.
#[derive(Debug, Clone, Copy, PartialEq)]
pub struct OutOfRange;

/// The length in nanometres (nm) that the text of an integer or a real of an exchange text
/// (ISO 10303-21) writes in this unit, rounded half away from zero.
///
/// - `Ok(nm)`: the rounded length, at most 10^15 nm in size.
/// - `Err(OutOfRange)`: exactly where the rounded length is more than 10^15 nm in size.
pub fn nanometres(text: &[u8], unit: Unit) -> Result<i128, OutOfRange>
    ensures ok { IfOk result (λ nm. nm ≡ nanometres_of text.now unit) }
    ensures out_of_range { IsErr result
        ↔ (greatest_nanometres < unsigned_abs (nanometres_of text.now unit)) }
{
    in_units(text, places_of_nanometres(unit), 1_000_000_000_000_000)
}

/// The length in micrometres (µm), likewise.
///
/// - `Ok(micro)`: the rounded length, at most 10^12 µm in size.
/// - `Err(OutOfRange)`: exactly where the rounded length is more than 10^12 µm in size.
pub fn micrometres(text: &[u8], unit: Unit) -> Result<i64, OutOfRange>
    ensures ok { IfOk result (λ micro. micro ≡ micrometres_of text.now unit) }
    ensures out_of_range { IsErr result
        ↔ (greatest_micrometres < unsigned_abs (micrometres_of text.now unit)) }
{
    let micro = in_units(text, places_of_micrometres(unit), 1_000_000_000_000)?;
    Ok(micro as i64)
}

/// The number that the text writes, in units of 10^-12, rounded half away from zero.
///
/// - `Ok(units)`: the rounded number, at most 10^24 units in size.
/// - `Err(OutOfRange)`: exactly where the rounded number is more than 10^24 units in size.
pub fn ratio(text: &[u8]) -> Result<i128, OutOfRange>
    ensures ok { IfOk result (λ units. units ≡ ratio_of text.now) }
    ensures out_of_range { IsErr result ↔ (greatest_ratio < unsigned_abs (ratio_of text.now)) }
{
    in_units(text, 12, 1_000_000_000_000_000_000_000_000)
}

/// How many decimal places of the unit a nanometre is.
fn places_of_nanometres(unit: Unit) -> u32
    ensures value { result ≡ nanometre_places unit }
    ensures few { result ≤ 12 }
{
    match unit {
        Unit::Metre => 9,
        Unit::Millimetre => 6,
    }
}

/// How many decimal places of the unit a micrometre is.
fn places_of_micrometres(unit: Unit) -> u32
    ensures value { result ≡ micrometre_places unit }
    ensures few { result ≤ 12 }
{
    match unit {
        Unit::Metre => 6,
        Unit::Millimetre => 3,
    }
}

/// The number that a text writes, in units of 10^-places, where its size is at most the greatest.
fn in_units(text: &[u8], places: u32, greatest: u128) -> Result<i128, OutOfRange>
    requires few { places ≤ 12 }
    requires in_reach { greatest ≤ greatest_ratio }
    ensures ok { IfOk result (λ n. n ≡ rounded (scaled places (decimal_of text.now))) }
    ensures within { IfOk result (λ n. unsigned_abs n ≤ greatest) }
    ensures out_of_range { IsErr result
        ↔ (greatest < unsigned_abs (rounded (scaled places (decimal_of text.now)))) }
{
    let size = (tenths(text, places) + 5) / 10;
    if size > greatest {
        return Err(OutOfRange);
    }
    Ok(with_sign(has_minus(text), size))
}
