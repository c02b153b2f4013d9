// What may stand next within parameter lists, and the parentheses that are open there.
ghost use Rattle.std.specs.Prelude.{◌≡◌, ℕ, ◌+◌, ◌*◌, ◌/◌, ◌%◌, ◌^◌, ◌<◌, ◌≤◌, ◌↔◌, List, [], ◌∷◌, length, IsTrue, Some, None, if◌then◌else◌};
ghost use Rattle.sb_step.specs.Lexemes.{is_open as is_open_of, is_close as is_close_of};
ghost use Rattle.sb_step.specs.Grammar.{greatest_depth};
ghost use Rattle.sb_step.specs.Index.ListMoves as spec;

use crate::indexing::states::{Bracket, Want};
use crate::kinds::{is_close, is_comma, is_keyword, is_open, is_value};
use sb_lex::Kind;
use std::marker::Model;

/// The parentheses that are open, the innermost first. Each is a bit, so that 64 take no memory.
#[derive(Drop)]
pub(crate) struct Brackets {
    bits: u64,
    len: usize,
}

impl Model for Brackets {
    ghost use Rattle.std.specs.Prelude.{◌^◌, ◌<◌, ◌≤◌, List};
    ghost use Rattle.sb_step.specs.declared.indexing.states.Bracket.{Bracket};
    ghost use Rattle.sb_step.specs.Index.ListMoves.{brackets_of, AreBits};

    ghost Value = { List Bracket };

    ghost view = { λ f. brackets_of f.len f.bits };

    ghost invariant = { λ f. AreBits f.len f.bits };
}

impl Brackets {
    pub(crate) fn new() -> Brackets
        ensures { result ≡ [] }
    {
        Brackets { bits: 0, len: 0 }
    }

    #[inline(always)]
    pub(crate) fn len(&self) -> usize
        ensures { result ≡ length self.now }
    {
        self.len
    }

    /// One parenthesis more.
    #[inline(always)]
    pub(crate) fn push(&mut self, bracket: Bracket)
        requires { length self.old < greatest_depth }
        ensures { self.new ≡ bracket ∷ self.old }
    {
        let bit = match bracket {
            Bracket::List => 1,
            Bracket::Typed => 0,
        };
        self.bits = self.bits * 2 + bit;
        self.len += 1;
    }

    /// Without the innermost parenthesis.
    #[inline(always)]
    pub(crate) fn pop(&mut self)
        requires { 0 < length self.old }
        ensures { spec.shut self.old ≡ record { brackets = self.new; want = Want.Next } }
    {
        self.bits /= 2;
        self.len -= 1;
    }

    /// The innermost parenthesis is that of a list.
    #[inline(always)]
    pub(crate) fn is_list(&self) -> bool
        ensures { result ≡ spec.is_list self.now }
    {
        self.len > 0 && self.bits % 2 == 1
    }
}

/// What is wanted behind the kind where a parameter list is open, if it may stand there.
#[inline(always)]
pub(crate) fn list_move(
    brackets: &mut Brackets,
    want: Want,
    room: usize,
    kind: Kind,
) -> Option<Want>
    requires open { 0 < length brackets.old }
    requires room { room ≤ greatest_depth }
    ensures { spec.MovesTo (spec.by_want want room brackets.old kind) brackets.new result }
{
    match want {
        Want::First => close_or_parameter(brackets, room, kind),
        Want::Parameter => parameter(brackets, room, kind),
        Want::Next => close_or_comma(brackets, kind),
        Want::Open => parameter_of_typed(kind),
    }
}

fn close_or_parameter(brackets: &mut Brackets, room: usize, kind: Kind) -> Option<Want>
    requires open { 0 < length brackets.old }
    requires room { room ≤ greatest_depth }
    ensures { spec.MovesTo (spec.by_want Want.First room brackets.old kind) brackets.new result }
{
    if is_close(kind) {
        brackets.pop();
        Some(Want::Next)
    } else {
        parameter(brackets, room, kind)
    }
}

fn close_or_comma(brackets: &mut Brackets, kind: Kind) -> Option<Want>
    requires { 0 < length brackets.old }
    ensures { spec.MovesTo (if is_close_of kind then Some (spec.shut brackets.old)
        else spec.comma brackets.old kind) brackets.new result }
{
    if is_close(kind) {
        brackets.pop();
        Some(Want::Next)
    } else if brackets.is_list() && is_comma(kind) {
        Some(Want::Parameter)
    } else {
        None
    }
}

fn parameter_of_typed(kind: Kind) -> Option<Want>
    ensures { result ≡ (if is_open_of kind then Some Want.Parameter else None) }
{
    if is_open(kind) {
        Some(Want::Parameter)
    } else {
        None
    }
}

/// The first token of a parameter.
fn parameter(brackets: &mut Brackets, room: usize, kind: Kind) -> Option<Want>
    requires { room ≤ greatest_depth }
    ensures { spec.MovesTo (spec.parameter room brackets.old kind) brackets.new result }
{
    if is_value(kind) {
        Some(Want::Next)
    } else if is_open(kind) {
        deeper(brackets, room, Bracket::List, Want::First)
    } else if is_keyword(kind) {
        deeper(brackets, room, Bracket::Typed, Want::Open)
    } else {
        None
    }
}

fn deeper(brackets: &mut Brackets, room: usize, bracket: Bracket, want: Want) -> Option<Want>
    requires { room ≤ greatest_depth }
    ensures { spec.MovesTo (spec.deeper room bracket brackets.old want) brackets.new result }
{
    if brackets.len() < room {
        brackets.push(bracket);
        Some(want)
    } else {
        None
    }
}
