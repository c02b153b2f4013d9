// Numbers. Want of memory may leave a first part of what is appended at the end of the text.
ghost use Rattle.std.specs.Prelude.{◌≡◌, ◌++◌, OnOk, OnErr, decimal};
ghost use Rattle.std.specs.Fmt.{signed_decimal};
ghost use Rattle.sb_texts.specs.Begun.{BeginsWith};
ghost use Rattle.sb_texts.specs.Numerals.{padded_decimal, reference, whole};

use crate::bytes::{append, append_repeated};
use itoa::Buffer;
use sb_list::Text;
use std::alloc::AllocError;

/// Appends a number in decimal: `0`, `4000`.
pub fn append_number(text: &mut Text, number: u64) -> Result<(), AllocError>
    ensures ok { OnOk result (text.new ≡ text.old ++ decimal number) }
    ensures err { OnErr result (BeginsWith text.new text.old) }
{
    let mut buffer = Buffer::new();
    append(text, buffer.format(number).as_bytes())
}

/// Appends a signed number in decimal: `-25`, `0`, `4000`.
pub fn append_signed(text: &mut Text, number: i64) -> Result<(), AllocError>
    ensures ok { OnOk result (text.new ≡ text.old ++ signed_decimal number) }
    ensures err { OnErr result (BeginsWith text.new text.old) }
{
    let mut buffer = Buffer::new();
    append(text, buffer.format(number).as_bytes())
}

/// Appends a number in decimal behind as many zeros as bring it to this width: 42 at width 5 is
/// `00042`. A number that is wider stands as it is.
pub fn append_padded(text: &mut Text, number: u64, width: usize) -> Result<(), AllocError>
    ensures ok { OnOk result (text.new ≡ text.old ++ padded_decimal width number) }
    ensures err { OnErr result (BeginsWith text.new text.old) }
{
    let mut buffer = Buffer::new();
    let digits = buffer.format(number).as_bytes();
    append_repeated(text, b'0', width.saturating_sub(digits.len()))?;
    append(text, digits)
}

/// Appends the number of an instance as an exchange text names it: `#101`.
pub fn append_reference(text: &mut Text, number: u64) -> Result<(), AllocError>
    ensures ok { OnOk result (text.new ≡ text.old ++ reference number) }
    ensures err { OnErr result (BeginsWith text.new text.old) }
{
    append(text, b"#")?;
    append_number(text, number)
}

/// Appends a whole number as an exchange text writes reals, with a point behind it: `-100.`, `0.`.
pub fn append_whole(text: &mut Text, number: i64) -> Result<(), AllocError>
    ensures ok { OnOk result (text.new ≡ text.old ++ whole number) }
    ensures err { OnErr result (BeginsWith text.new text.old) }
{
    append_signed(text, number)?;
    append(text, b".")
}
