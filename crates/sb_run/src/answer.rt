// The answers of the program and their statuses.
ghost use Rattle.std.specs.Prelude.{◌≡◌};
ghost use Rattle.sb_run.specs.Statuses.{status};

use sb_model::Boundaries;

/// Why an input is refused.
#[derive(Clone, Copy)]
pub enum Code {
    /// Two instances have this number.
    Duplicate,
    /// A shape is none that is read: a size of the box is not above 0.
    Shape,
    /// A coordinate is more than 500,000 mm in size.
    Range,
    /// A corner lies more than 10 µm from a whole millimetre.
    OffGrid,
    /// The input is an exchange text, but not of the first form, which is all that is read yet.
    Unbuilt,
}

/// The answer of a run.
#[derive(Drop)]
pub enum Answer {
    /// The report was written; these are its boundaries.
    Done(Boundaries),
    /// The words are no command.
    Usage,
    /// Opening or reading the input has failed.
    ReadFault,
    /// The input is longer than 67,108,864 bytes.
    TooLong,
    /// The input is no exchange text (ISO 10303-21): it has its fault at this byte.
    Syntax(u64),
    /// The input is refused because of the instance with this number, or of the whole where it is
    /// 0.
    Refused(u32, Code),
    /// Creating or writing an output has failed. A first part of its text may stand on it.
    WriteFault,
    /// There was no memory. Nothing was created.
    NoMemory,
}

/// The status that the program ends with.
pub fn status(answer: &Answer) -> u8
    ensures { result ≡ status answer.now }
{
    match answer {
        Answer::Done(_) => 0,
        Answer::Usage => 2,
        Answer::ReadFault => 3,
        Answer::TooLong => 4,
        Answer::Syntax(_) => 5,
        Answer::Refused(_, _) => 6,
        Answer::WriteFault => 10,
        Answer::NoMemory => 11,
    }
}
