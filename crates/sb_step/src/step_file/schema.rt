// The schema of a file.
ghost use Rattle.std.specs.Prelude.{◌≡◌, ◌≤◌, ◌↔◌, List, length, slice_range, IfSome};
ghost use Rattle.std.specs.Option.{option_copied};
ghost use Rattle.sb_lex.specs.declared.kinds.Token.{Token as At};
ghost use Rattle.sb_lex.specs.Tokens.{AreTokensFrom};
ghost use Rattle.sb_step.specs.Records.SchemaReading as spec;

use crate::kinds::{is_close, is_open};
use crate::step_file::records::{Form, Record};
use sb_lex::{Kind, Lexer, Token};

/// Which entities of a header are a FILE_SCHEMA, as far as it was read.
#[derive(Clone, Copy)]
pub(crate) enum Schema {
    Missing,
    /// One. Its keyword ends at this byte.
    One(usize),
    Several,
}

/// The same with one entity of these bytes more.
pub(crate) fn with_entity(schema: Schema, bytes: &[u8], entity: Record) -> Schema
    ensures { result ≡ spec.with_entity bytes.now schema entity }
{
    match entity.form {
        Form::Simple(end) => {
            if stretch(bytes, entity.start, end) == b"FILE_SCHEMA".as_slice() {
                one_more(schema, end)
            } else {
                schema
            }
        }
        Form::Complex => schema,
    }
}

fn one_more(schema: Schema, end: usize) -> Schema
    ensures { result ≡ spec.one_more schema end }
{
    match schema {
        Schema::Missing => Schema::One(end),
        _ => Schema::Several,
    }
}

/// The bytes from one place up to another, as far as there are any.
fn stretch(bytes: &[u8], start: usize, end: usize) -> &[u8]
    ensures { result.now ≡ slice_range bytes.now start end }
{
    let last = end.min(bytes.len());
    &bytes[start.min(last)..last]
}

/// The one string in the list behind a keyword that ends at this byte.
pub(crate) fn one_string(bytes: &[u8], place: usize) -> Option<&[u8]>
    requires { place ≤ length bytes.now }
    ensures { (tokens : List At) → AreTokensFrom bytes.now place tokens None
        → option_copied result ≡ spec.text_in bytes.now tokens }
{
    let mut lexer = Lexer::at(bytes, place);
    let opened = two_open(&mut lexer);
    let string = token(&mut lexer);
    let closed = two_close(&mut lexer);
    if opened && closed {
        inside(bytes, string)
    } else {
        None
    }
}

fn two_open(lexer: &mut Lexer<'_>) -> bool
    ensures read { (tokens : List At) → spec.TokensAhead lexer.old tokens
        → (result ≡ spec.both_open tokens)
        × spec.TokensAhead lexer.new (spec.behind_first (spec.behind_first tokens)) }
    ensures input { lexer.new.input ≡ lexer.old.input }
{
    let first = token(lexer);
    let second = token(lexer);
    opens(first) && opens(second)
}

fn two_close(lexer: &mut Lexer<'_>) -> bool
    ensures read { (tokens : List At) → spec.TokensAhead lexer.old tokens
        → result ≡ spec.both_close tokens }
{
    let first = token(lexer);
    let second = token(lexer);
    closes(first) && closes(second)
}

/// The next token, if there is one.
fn token(lexer: &mut Lexer<'_>) -> Option<Token>
    ensures read { (tokens : List At) → spec.TokensAhead lexer.old tokens
        → (result ≡ spec.first_of tokens) × spec.TokensAhead lexer.new (spec.behind_first tokens) }
    ensures lies { IfSome result (spec.TokenLies (length lexer.old.input)) }
    ensures input { lexer.new.input ≡ lexer.old.input }
{
    match lexer.next() {
        Ok(found) => found,
        Err(_) => None,
    }
}

fn opens(found: Option<Token>) -> bool
    ensures { result ≡ spec.opens found }
{
    match found {
        Some(token) => is_open(token.kind),
        None => false,
    }
}

fn closes(found: Option<Token>) -> bool
    ensures { result ≡ spec.closes found }
{
    match found {
        Some(token) => is_close(token.kind),
        None => false,
    }
}

/// The bytes between the apostrophes of a string.
fn inside(bytes: &[u8], found: Option<Token>) -> Option<&[u8]>
    requires { IfSome found (spec.TokenLies (length bytes.now)) }
    ensures { option_copied result ≡ spec.inside bytes.now found }
{
    match found {
        Some(
            Token {
                kind: Kind::Str,
                start,
                end,
            },
        ) => Some(&bytes[start + 1..end - 1]),
        _ => None,
    }
}
