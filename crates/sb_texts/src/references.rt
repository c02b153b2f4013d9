ghost use Rattle.std.specs.Prelude.{◌≡◌, ◌++◌, OnOk, OnErr, codes};
ghost use Rattle.sb_texts.specs.Begun.{BeginsWith};
ghost use Rattle.sb_texts.specs.Numerals.{reference, references};

use crate::bytes::append;
use crate::numbers::append_reference;
use sb_list::Text;
use std::alloc::AllocError;

/// Appends the numbers of instances as an exchange text lists them: `#109,#119`. Want of memory may
/// leave a first part of them at the end of the text.
pub fn append_references(text: &mut Text, numbers: &[u64]) -> Result<(), AllocError>
    ensures ok { OnOk result (text.new ≡ text.old ++ references numbers.now) }
    ensures err { OnErr result (BeginsWith text.new text.old) }
{
    let Some((first, rest)) = numbers.split_first() else {
        return Ok(());
    };
    append_reference(text, *first)?;
    for number in rest {
        append_next(text, *number)?;
    }
    Ok(())
}

/// Appends a number that is not the first.
fn append_next(text: &mut Text, number: u64) -> Result<(), AllocError>
    ensures ok { OnOk result (text.new ≡ text.old ++ (codes "," ++ reference number)) }
    ensures err { OnErr result (BeginsWith text.new text.old) }
{
    append(text, b",")?;
    append_reference(text, number)
}
