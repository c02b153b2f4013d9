ghost use Rattle.sb_fixed.specs.Rounding.{RoundedIsTheOne};
ghost use Rattle.sb_fixed.specs.Lengths.{TextsAreRounded};
ghost use Rattle.sb_fixed.specs.Tokens.{IntegersAreDecimals, RealsAreDecimals, ExponentsAreDecimals};
ghost use Rattle.sb_fixed.specs.Printed.{PrintedIsRead, PrintedIsTheValue, PrintedIsReal};

/// A law of rounding: each fraction is rounded to one number, the greatest in size that is not too
/// great, and halves go away from zero. Lengths and ratios are rounded so.
#[inline(always)]
pub fn rounding_is_one_number()
    ensures one { RoundedIsTheOne }
    ensures texts { TextsAreRounded }
{}

/// Laws of the tokens of an exchange text: the number of an integer and of a real is that of its
/// parts.
#[inline(always)]
pub fn tokens_are_decimals()
    ensures integers { IntegersAreDecimals }
    ensures reals { RealsAreDecimals }
    ensures with_exponent { ExponentsAreDecimals }
{}

/// Laws of what is printed: it is a real of the exchange text, and is read back as the same number.
#[inline(always)]
pub fn printed_is_read_back()
    ensures fraction { PrintedIsRead }
    ensures value { PrintedIsTheValue }
    ensures is_real { PrintedIsReal }
{}
