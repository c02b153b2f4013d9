// The text of a file, with what it describes.
ghost use Rattle.std.specs.Prelude.{◌≡◌};
ghost use Rattle.sb_step.specs.Grammar.{File};
ghost use Rattle.sb_step.specs.Faults.{IsFile, FilesAreUnique};
ghost use Rattle.sb_step.specs.Described.{Described, FilesAreUnique-prop, Described-prop};

use crate::laws::one_file_or_one_fault;

/// A text, and the file that it describes as a ghost field: of the header and of the ends of the
/// records nothing is kept but what a call reads.
#[derive(Drop)]
pub(crate) struct Text<'a> {
    pub(crate) bytes: &'a [u8],
    ghost unique: { FilesAreUnique } by { FilesAreUnique-prop },
    ghost described: { Described bytes.now } by { Described-prop unique bytes.now },
}

/// These bytes, which are a file.
pub(crate) fn file_text<'a>(bytes: &'a [u8]) -> Text<'a>
    requires { (file : File) × IsFile bytes.now file }
    ensures { result.bytes.now ≡ bytes.now }
{
    one_file_or_one_fault();
    Text { bytes }
}
