ghost use Rattle.std.specs.Prelude.{◌≡◌, ◌≤◌, ◌<ℤ◌, ◌-ℤ◌, ◌*ℤ◌, ◌*◌, ◌^◌, pos, unsigned_abs};
ghost use Rattle.sb_fraction.specs.Bounds.{greatest_num, greatest_den};
ghost use Rattle.sb_fixed.specs.Decimals.{signed};
ghost use Rattle.sb_fixed.specs.Rounding.{scaled, less, rounded as rounded_of};

use sb_fraction::Fraction;

/// A number of millimetres in micrometres (µm): a thousand times the fraction, rounded half away
/// from zero.
pub fn round_micro(f: &Fraction) -> i128
    ensures { result ≡ rounded_of (scaled 3 f.now) }
{
    rounded(f.num() * 1_000, f.den())
}

/// A number of millimetres in nanometres (nm), less a shift in nanometres: a million times the
/// fraction less the shift, rounded half away from zero.
#[tactic(auto, using(crate::proofs::ShiftsFit::shifts))]
pub fn round_nano(f: &Fraction, shift: i128) -> i128
    requires { unsigned_abs shift ≤ 10 ^ 12 }
    ensures { result ≡ rounded_of (less shift (scaled 6 f.now)) }
{
    rounded(less_shift(millions(f.num()), shift, f.den()), f.den())
}

/// The fraction rounded to a whole number, half away from zero.
pub fn round_whole(f: &Fraction) -> i128
    ensures { result ≡ rounded_of f.now }
{
    rounded(f.num(), f.den())
}

/// A numerator less a shift.
fn less_shift(num: i128, shift: i128, den: i128) -> i128
    requires num_size { unsigned_abs num ≤ 10 ^ 38 }
    requires shift_size { unsigned_abs shift ≤ 10 ^ 12 }
    requires den_size { unsigned_abs den ≤ greatest_den }
    ensures value { result ≡ num -ℤ (shift *ℤ den) }
    ensures size { unsigned_abs result ≤ 11 * 10 ^ 37 }
{
    num - shifted(shift, den)
}

/// A numerator a million times as large.
#[tactic(auto, using(crate::proofs::ShiftsFit::shifts))]
fn millions(num: i128) -> i128
    requires { unsigned_abs num ≤ greatest_num }
    ensures value { result ≡ num *ℤ pos 1000000 }
    ensures size { unsigned_abs result ≤ 10 ^ 38 }
{
    num * 1_000_000
}

/// A shift as a numerator.
#[tactic(auto, using(crate::proofs::ShiftsFit::shifts))]
fn shifted(shift: i128, den: i128) -> i128
    requires shift_size { unsigned_abs shift ≤ 10 ^ 12 }
    requires den_size { unsigned_abs den ≤ greatest_den }
    ensures value { result ≡ shift *ℤ den }
    ensures size { unsigned_abs result ≤ 10 ^ 37 }
{
    shift * den
}

/// The number num/den, rounded half away from zero.
fn rounded(num: i128, den: i128) -> i128
    requires positive { pos 0 <ℤ den }
    requires num_size { unsigned_abs num ≤ 11 * 10 ^ 37 }
    requires den_size { unsigned_abs den ≤ greatest_den }
    ensures { result ≡ rounded_of (record { num = num; den = den }) }
{
    let (size, den) = (num.unsigned_abs(), den.unsigned_abs());
    with_sign(num < 0, (2 * size + den) / (2 * den))
}

/// The number of this size, below 0 where it is negative.
pub(crate) fn with_sign(negative: bool, size: u128) -> i128
    requires { size ≤ 12 * 10 ^ 37 }
    ensures { result ≡ signed negative size }
{
    if negative {
        -(size as i128)
    } else {
        size as i128
    }
}
