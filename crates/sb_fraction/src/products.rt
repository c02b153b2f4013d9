//! Products of numbers whose sizes are known, within 128 bits.

ghost use Rattle.std.specs.Prelude.{◌≡◌, ◌≤◌, ◌*ℤ◌, unsigned_abs};
ghost use Rattle.sb_fraction.specs.Bounds.{greatest_cross, greatest_square, greatest_offset};
ghost use Rattle.sb_fraction.specs.Bounds.{greatest_product};

/// The product of two cross products.
#[tactic(auto, using(crate::proofs::Ranges::ProductsFit::products))]
pub(crate) fn of_crosses(a: i64, b: i64) -> i128
    requires a_in { unsigned_abs a ≤ greatest_cross }
    requires b_in { unsigned_abs b ≤ greatest_cross }
    ensures value { result ≡ a *ℤ b }
    ensures size { unsigned_abs result ≤ greatest_square }
{
    a as i128 * b as i128
}

/// The product of a difference of such products, or of a numerator, and a denominator.
#[tactic(auto, using(crate::proofs::Ranges::ProductsFit::products))]
pub(crate) fn with_offset(a: i128, b: i128) -> i128
    requires a_in { unsigned_abs a ≤ greatest_offset }
    requires b_in { unsigned_abs b ≤ greatest_cross }
    ensures value { result ≡ a *ℤ b }
    ensures size { unsigned_abs result ≤ greatest_product }
{
    a * b
}
