// The machine that reads a text token by token.
ghost use Rattle.std.specs.Prelude.{◌≡◌, ◌<◌, ◌≤◌, length, [], if◌then◌else◌};
ghost use Rattle.sb_step.specs.Grammar.{greatest_depth};
ghost use Rattle.sb_step.specs.Index.Turns as spec;

use crate::indexing::lists::{Brackets, list_move};
use crate::indexing::sections::section_move;
use crate::indexing::states::{Bracket, Event, Move, Section, Want};
use sb_lex::{Kind, Token};

/// How many parentheses may be open at one place.
const GREATEST_DEPTH: usize = 64;

/// How far a text was read.
#[derive(Drop)]
pub(crate) struct Machine {
    pub section: Section,
    pub brackets: Brackets,
    pub want: Want,
}

impl Machine {
    ghost use Rattle.sb_step.specs.Index.Machines.{state_of};

    pub(crate) fn new() -> Machine
        ensures { state_of result ≡ spec.start }
    {
        Machine {
            section: Section::Begin,
            brackets: Brackets::new(),
            want: Want::Next,
        }
    }

    /// Goes on with a token, if it may stand there: what is found at it.
    #[inline(always)]
    pub(crate) fn advance(&mut self, token: Token, text: &[u8]) -> Option<Event>
        ensures { spec.Advances (state_of self.old) (record { token = token; text = text.now })
            result (state_of self.new) }
    {
        if self.brackets.len() == 0 {
            self.advance_section(token, text)
        } else {
            self.advance_list(token.kind)
        }
    }

    #[inline(always)]
    fn advance_section(&mut self, token: Token, text: &[u8]) -> Option<Event>
        requires { self.old.brackets ≡ [] }
        ensures { spec.Advances (state_of self.old) (record { token = token; text = text.now })
            result (state_of self.new) }
    {
        let next = section_move(self.section, token, text)?;
        self.section = next.section;
        self.want = Want::Next;
        if next.opens {
            self.brackets.push(Bracket::List);
            self.want = Want::First;
        }
        Some(next.event)
    }

    #[inline(always)]
    fn advance_list(&mut self, kind: Kind) -> Option<Event>
        requires { 0 < length self.old.brackets }
        ensures { spec.AdvancesList (state_of self.old) kind result (state_of self.new) }
    {
        let want = list_move(&mut self.brackets, self.want, room(self.section), kind)?;
        self.want = want;
        Some(Event::Nothing)
    }

    /// Where the ENDSEC of the data begins, at the end of a text.
    pub(crate) fn end(&self) -> Option<usize>
        ensures { result ≡ spec.end_of (state_of self.now) }
    {
        if self.brackets.len() == 0 {
            data_end(self.section)
        } else {
            None
        }
    }
}

fn data_end(section: Section) -> Option<usize>
    ensures { result ≡ spec.end_at section [] }
{
    match section {
        Section::End(place) => Some(place),
        _ => None,
    }
}

/// How many parentheses of parameters may be open, so that no more than the greatest
/// depth are open in all.
#[inline(always)]
fn room(section: Section) -> usize
    ensures room { result ≡ spec.room_of section }
    ensures few { result ≤ greatest_depth }
{
    match section {
        Section::FirstRecord(_) | Section::RecordOpen(_) | Section::NextRecord(_) => GREATEST_DEPTH
            - 1,
        _ => GREATEST_DEPTH,
    }
}
