// The lines that are said for the answers.
ghost use Rattle.std.specs.Prelude.{◌≡◌, IfOk, true, string_bytes, is_some, is_none, count_by};
ghost use Rattle.sb_run.specs.Messages.{done_line, spaces_in, have_rising_spaces, name_of, said_line};
ghost use Rattle.sb_run.specs.Statuses.{IsEarly};
ghost use Rattle.sb_run.specs.Messages.{line_bytes, ends_space};

use crate::answer::{Answer, Code};
use sb_model::{Boundaries, Boundary};
use std::alloc::{AllocError, Global};

/// The line for words that are no command.
pub(crate) const USAGE: &str = "usage: sbgen MODEL --report C\n";

/// A line: one that stands in the program, or one that was made.
#[derive(Drop)]
pub(crate) enum SaidLine {
    Fixed(&'static str),
    Made(String),
}

impl SaidLine {
    pub(crate) fn bytes(&self) -> &[u8]
        ensures { result.now ≡ line_bytes self.now }
    {
        match self {
            SaidLine::Fixed(text) => text.as_bytes(),
            SaidLine::Made(text) => text.as_bytes(),
        }
    }
}

/// The line of a list that was written.
pub(crate) fn done_text(alloc: Global, list: &Boundaries) -> Result<String, AllocError>
    requires { have_rising_spaces 0 list.now ≡ true }
    ensures { IfOk result (λ text. string_bytes text ≡ done_line list.now) }
{
    let boundaries = list.as_slice();
    let spaces = spaces_in(boundaries);
    let tops = tops_in(boundaries);
    let openings = openings_in(boundaries);
    let pairs = paired_in(boundaries) / 2;
    format!(in alloc; "spaces {spaces}, boundaries {tops}, openings {openings}, pairs {pairs}\n")
}

fn tops_in(boundaries: &[Boundary]) -> usize
    ensures { result ≡ count_by (λ b. is_none b.parent) boundaries.now }
{
    boundaries.iter().filter(|b| b.parent.is_none()).count()
}

fn openings_in(boundaries: &[Boundary]) -> usize
    ensures { result ≡ count_by (λ b. is_some b.parent) boundaries.now }
{
    boundaries.iter().filter(|b| b.parent.is_some()).count()
}

fn paired_in(boundaries: &[Boundary]) -> usize
    ensures { result ≡ count_by (λ b. is_some b.pair) boundaries.now }
{
    boundaries.iter().filter(|b| b.pair.is_some()).count()
}

/// How many spaces the boundaries are of, in a list by rising spaces.
fn spaces_in(boundaries: &[Boundary]) -> usize
    requires { have_rising_spaces 0 boundaries.now ≡ true }
    ensures { result ≡ spaces_in boundaries.now }
{
    let mut spaces = 0;
    let mut rest = boundaries;
    'turns: while let Some((_, others)) = rest.split_first() {
        if ends_space(rest) {
            spaces += 1;
        }
        rest = others;
    }
    spaces
}

/// Whether the second boundary is of another space than the first, or there is none.
fn ends_space(boundaries: &[Boundary]) -> bool
    ensures { result ≡ ends_space boundaries.now }
{
    match boundaries {
        [first, next, ..] => next.patch.face.space != first.patch.face.space,
        _ => true,
    }
}

/// The line of an answer that comes before anything is created.
pub(crate) fn early_line(alloc: Global, answer: &Answer) -> Result<SaidLine, AllocError>
    requires { IsEarly answer.now }
    ensures { IfOk result (λ text. line_bytes text ≡ said_line answer.now) }
{
    match answer {
        Answer::Usage => Ok(SaidLine::Fixed(USAGE)),
        Answer::ReadFault => Ok(SaidLine::Fixed("read fault\n")),
        Answer::TooLong => Ok(SaidLine::Fixed("too long\n")),
        Answer::NoMemory => Ok(SaidLine::Fixed("no memory\n")),
        Answer::Syntax(place) => Ok(SaidLine::Made(syntax_text(alloc, *place)?)),
        Answer::Refused(number, code) => Ok(SaidLine::Made(refused_text(alloc, *number, *code)?)),
        // These come after something was created.
        Answer::Done(_) | Answer::WriteFault => unreachable!(),
    }
}

/// The line of a fault of the exchange text.
fn syntax_text(alloc: Global, place: u64) -> Result<String, AllocError>
    ensures { IfOk result (λ text. string_bytes text ≡ said_line (Answer.Syntax place)) }
{
    format!(in alloc; "syntax at byte {place}\n")
}

/// The line of a refusal.
pub(crate) fn refused_text(alloc: Global, number: u32, code: Code) -> Result<String, AllocError>
    ensures { IfOk result (λ text. string_bytes text ≡ said_line (Answer.Refused number code)) }
{
    let name = name_of(code);
    format!(in alloc; "refused #{number}: {name}\n")
}

fn name_of(code: Code) -> &'static str
    ensures { result.now ≡ name_of code }
{
    match code {
        Code::Duplicate => "Duplicate",
        Code::Shape => "Shape",
        Code::Range => "Range",
        Code::OffGrid => "OffGrid",
        Code::Unbuilt => "Unbuilt",
    }
}
