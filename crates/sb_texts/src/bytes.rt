ghost use Rattle.std.specs.Prelude.{◌≡◌, ◌++◌, OnOk, OnErr, replicate};
ghost use Rattle.sb_texts.specs.Begun.{BeginsWith};

use sb_list::Text;
use std::alloc::AllocError;

/// Appends these bytes. Want of memory leaves the text as it was.
pub fn append(text: &mut Text, bytes: &[u8]) -> Result<(), AllocError>
    ensures ok { OnOk result (text.new ≡ text.old ++ bytes.now) }
    ensures err { OnErr result (text.new ≡ text.old) }
{
    text.extend_from_slice(bytes)
}

/// Appends this byte so many times. Want of memory may leave fewer of them.
pub fn append_repeated(text: &mut Text, byte: u8, times: usize) -> Result<(), AllocError>
    ensures ok { OnOk result (text.new ≡ text.old ++ replicate times byte) }
    ensures err { OnErr result (BeginsWith text.new text.old) }
{
    for _turn in 0..times {
        text.push(byte)?;
    }
    Ok(())
}
