//! Fractions in lowest terms.

ghost use Rattle.std.specs.Prelude.{◌≡◌, ◌≤◌, ◌<◌, ◌<ℤ◌, ◌^◌, ◌*ℤ◌, pos, neg_ℤ, unsigned_abs};
ghost use Rattle.std.specs.Prelude.{IsTrue};
ghost use Rattle.std.specs.Prelude.{if◌then◌else◌};
ghost use Rattle.theory_numbers.specs.Divisors.{greatest_divisor};
ghost use Rattle.sb_fraction.specs.Bounds.{is_fraction, greatest_num};
ghost use Rattle.theory_numbers.specs.Fractions.{reduced, divided as quotient};
ghost use Rattle.sb_fraction.specs.Bounds.{greatest_den};
ghost use Rattle.sb_fraction.specs.Numbers.{ratio};

use std::marker::Model;

/// A fraction in lowest terms with a positive denominator.
///
/// Its numerator is at most 10^32 in size and its denominator at most 10^25, so equal numbers are
/// equal values and no sum of this project's geometry leaves 128 bits.
#[derive(Clone, Copy, PartialEq)]
pub struct Fraction {
    num: i128,
    den: i128,
}

impl Model for Fraction {
    ghost use Rattle.std.specs.Prelude.{IsTrue};
    ghost use Rattle.sb_fraction.specs.Bounds.{is_fraction};
    ghost use Rattle.theory_numbers.specs.Fractions.{Ratio};

    ghost Value = { Ratio };

    ghost view = { λ f. record { num = f.num; den = f.den } };

    ghost invariant = { λ f. IsTrue (is_fraction (record { num = f.num; den = f.den })) };

    ghost inverse = { λ r. record { num = r.num; den = r.den } };
}

impl Fraction {
    /// The number `num/den` in lowest terms.
    pub fn new(num: i128, den: i128) -> Fraction
        requires positive { pos 0 <ℤ den }
        requires num_size { unsigned_abs num ≤ greatest_num }
        requires den_size { unsigned_abs den ≤ greatest_den }
        ensures value { result ≡ reduced num den }
        ensures same_number { result.num *ℤ den ≡ num *ℤ result.den }
        ensures in_lowest_terms { IsTrue (is_fraction result) }
    {
        let (num, den) = reduce(num, den);
        Fraction { num, den }
    }

    /// The numerator, which has the sign of the number.
    pub fn num(&self) -> i128
        ensures value { result ≡ self.now.num }
        ensures in_lowest_terms { IsTrue (is_fraction self.now) }
    {
        self.num
    }

    /// The denominator, which is positive.
    pub fn den(&self) -> i128
        ensures value { result ≡ self.now.den }
        ensures positive { pos 0 <ℤ result }
        ensures in_lowest_terms { IsTrue (is_fraction self.now) }
    {
        self.den
    }
}

/// Numerator and denominator of the number `num/den` in lowest terms.
#[tactic(auto, using(crate::proofs::Ranges::ReducedInBounds::lowest), unfolding(theory_numbers::specs::Fractions::reduced))]
pub fn reduce(num: i128, den: i128) -> (i128, i128)
    requires positive { pos 0 <ℤ den }
    requires num_size { unsigned_abs num ≤ greatest_num }
    requires den_size { unsigned_abs den ≤ greatest_den }
    ensures value { ratio result.0 result.1 ≡ reduced num den }
    ensures same_number { result.0 *ℤ den ≡ num *ℤ result.1 }
    ensures in_lowest_terms { IsTrue (is_fraction (ratio result.0 result.1)) }
{
    let size = num.unsigned_abs();
    let common = common_divisor(size, den.unsigned_abs());
    (divided(num, common), divided(den, common))
}

/// The greatest common divisor of two numbers, by Euclid's remainders.
fn common_divisor(a: u128, b: u128) -> u128
    ensures value { result ≡ greatest_divisor a b }
{
    let (mut x, mut y) = (a, b);
    while y > 0 {
        (x, y) = (y, x % y);
    }
    x
}

/// The number `z/d`, where `d` divides `z`: the size is divided, the sign stays.
fn divided(z: i128, d: u128) -> i128
    requires positive { 0 < d }
    requires size { unsigned_abs z ≤ greatest_num }
    ensures value { result ≡ quotient z d }
{
    let size = (z.unsigned_abs() / d) as i128;
    if z < 0 { -size } else { size }
}
