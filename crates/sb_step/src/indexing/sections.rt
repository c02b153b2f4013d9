// What may stand next outside of parameter lists.
ghost use Rattle.std.specs.Prelude.{◌≡◌, Some, None, if◌then◌else◌};
ghost use Rattle.sb_step.specs.Lexemes.{is_open as is_open_of, is_close as is_close_of};
ghost use Rattle.sb_step.specs.KindTests as test;
ghost use Rattle.sb_step.specs.Index.SectionMoves as spec;

use crate::indexing::states::{Event, Move, Part, Section, Span};
use crate::kinds::{
    is_close, is_equals, is_first, is_keyword, is_last, is_open, is_semicolon, is_the,
};
use crate::step_file::records::{Form, Record};
use sb_lex::{Kind, Token};

#[inline(always)]
fn moves(section: Section) -> Option<Move>
    ensures { result ≡ Some (spec.moves section) }
{
    Some(Move {
        section,
        opens: false,
        event: Event::Nothing,
    })
}

#[inline(always)]
fn enters(section: Section) -> Option<Move>
    ensures { result ≡ Some (spec.enters section) }
{
    Some(Move {
        section,
        opens: true,
        event: Event::Nothing,
    })
}

#[inline(always)]
fn finds(section: Section, event: Event) -> Option<Move>
    ensures { result ≡ Some (spec.finds section event) }
{
    Some(Move {
        section,
        opens: false,
        event,
    })
}

/// The move, if the test holds.
#[inline(always)]
fn only(holds: bool, next: Option<Move>) -> Option<Move>
    ensures { result ≡ (if holds then next else None) }
{
    if holds { next } else { None }
}

/// What follows the token where no parameter list is open, if it may stand there.
#[inline(always)]
pub(crate) fn section_move(section: Section, token: Token, text: &[u8]) -> Option<Move>
    ensures { result ≡ spec.section_move section (record { token = token; text = text.now }) }
{
    let kind = token.kind;
    match section {
        Section::Begin => only(is_first(kind), moves(Section::BeginSemicolon)),
        Section::BeginSemicolon => only(is_semicolon(kind), moves(Section::Header)),
        Section::Header => only(
            is_the(b"HEADER", kind, text),
            moves(Section::HeaderSemicolon),
        ),
        Section::HeaderSemicolon => only(is_semicolon(kind), moves(Section::FirstEntity)),
        Section::FirstEntity => only(is_keyword(kind), moves(Section::EntityOpen(span_of(token)))),
        Section::Entities => entity_or_end(token, text),
        Section::EntityOrEnd(keyword) => list_or_end(kind, keyword),
        Section::EntityOpen(keyword) => only(is_open(kind), enters(Section::EntityEnd(keyword))),
        Section::EntityEnd(keyword) => only(is_semicolon(kind), entity_found(keyword, token.start)),
        Section::Data => only(is_the(b"DATA", kind, text), moves(Section::DataSemicolon)),
        Section::DataSemicolon => only(is_semicolon(kind), moves(Section::Instances)),
        Section::Instances => instance_or_end(token, text),
        Section::Equals(number) => only(is_equals(kind), moves(Section::Body(number))),
        Section::Body(number) => body(number, token),
        Section::SimpleOpen(part) => only(is_open(kind), enters(Section::InstanceEnd(part))),
        Section::FirstRecord(part) => only(is_keyword(kind), moves(Section::RecordOpen(part))),
        Section::RecordOpen(part) => only(is_open(kind), enters(Section::NextRecord(part))),
        Section::NextRecord(part) => record_or_end(kind, part),
        Section::InstanceEnd(part) => only(is_semicolon(kind), instance_found(part, token.start)),
        Section::EndSemicolon(place) => only(is_semicolon(kind), moves(Section::LastWord(place))),
        Section::LastWord(place) => only(is_last(kind), moves(Section::LastSemicolon(place))),
        Section::LastSemicolon(place) => only(is_semicolon(kind), moves(Section::End(place))),
        Section::End(_) => None,
    }
}

fn span_of(token: Token) -> Span
    ensures { result ≡ record { start = token.start; end = token.end } }
{
    Span {
        start: token.start,
        end: token.end,
    }
}

fn entity_or_end(token: Token, text: &[u8]) -> Option<Move>
    ensures { result ≡ spec.section_move Section.Entities
        (record { token = token; text = text.now }) }
{
    if is_the(b"ENDSEC", token.kind, text) {
        moves(Section::EntityOrEnd(span_of(token)))
    } else {
        only(
            is_keyword(token.kind),
            moves(Section::EntityOpen(span_of(token))),
        )
    }
}

fn list_or_end(kind: Kind, keyword: Span) -> Option<Move>
    ensures { result ≡ (if test.is_semicolon kind then Some (spec.moves Section.Data)
        else if is_open_of kind then Some (spec.enters (Section.EntityEnd keyword)) else None) }
{
    if is_semicolon(kind) {
        moves(Section::Data)
    } else {
        only(is_open(kind), enters(Section::EntityEnd(keyword)))
    }
}

fn entity_found(keyword: Span, end: usize) -> Option<Move>
    ensures { result ≡ Some (spec.finds Section.Entities
        (Event.Entity (spec.entity_of keyword end))) }
{
    let entity = Record {
        start: keyword.start,
        end,
        form: Form::Simple(keyword.end),
    };
    finds(Section::Entities, Event::Entity(entity))
}

fn instance_or_end(token: Token, text: &[u8]) -> Option<Move>
    ensures { result ≡ spec.section_move Section.Instances
        (record { token = token; text = text.now }) }
{
    if is_the(b"ENDSEC", token.kind, text) {
        moves(Section::EndSemicolon(token.start))
    } else {
        name(token.kind)
    }
}

fn name(kind: Kind) -> Option<Move>
    ensures { result ≡ (if test.is_name kind
        then Some (spec.moves (Section.Equals (test.number_of kind))) else None) }
{
    match kind {
        Kind::Name(number) => moves(Section::Equals(number)),
        _ => None,
    }
}

fn body(number: u32, token: Token) -> Option<Move>
    ensures { result ≡ (if test.is_keyword token.kind
        then Some (spec.moves (Section.SimpleOpen (spec.simple_part number token)))
        else if is_open_of token.kind
        then Some (spec.moves (Section.FirstRecord (spec.complex_part number token))) else None) }
{
    if is_keyword(token.kind) {
        moves(Section::SimpleOpen(Part {
            number,
            start: token.start,
            form: Form::Simple(token.end),
        }))
    } else {
        only(is_open(token.kind), complex(number, token.start))
    }
}

fn complex(number: u32, start: usize) -> Option<Move>
    ensures { result ≡ Some (spec.moves (Section.FirstRecord
        (record { number = number; start = start; form = Form.Complex }))) }
{
    moves(Section::FirstRecord(Part {
        number,
        start,
        form: Form::Complex,
    }))
}

fn record_or_end(kind: Kind, part: Part) -> Option<Move>
    ensures { result ≡ (if is_close_of kind then Some (spec.moves (Section.InstanceEnd part))
        else if test.is_keyword kind then Some (spec.moves (Section.RecordOpen part)) else None) }
{
    if is_close(kind) {
        moves(Section::InstanceEnd(part))
    } else {
        only(is_keyword(kind), moves(Section::RecordOpen(part)))
    }
}

fn instance_found(part: Part, end: usize) -> Option<Move>
    ensures { result ≡ Some (spec.finds Section.Instances
        (Event.Instance part.number (spec.record_of part end))) }
{
    let record = Record {
        start: part.start,
        end,
        form: part.form,
    };
    finds(Section::Instances, Event::Instance(part.number, record))
}
