// The parameters that a reader of tokens stands before.
ghost use Rattle.std.specs.Prelude.{◌≡◌, IfOk};
ghost use Rattle.sb_lex.specs.Tokens.{IsToken};
ghost use Rattle.sb_step.specs.Lexemes.{lexeme_at, IsKeyword};
ghost use Rattle.sb_step.specs.Params.Parameters.{IsParameter, AreFurther};
ghost use Rattle.sb_step.specs.Params.Readers.{HasNext, ReadsToken, Awaits, Reads, Behind, AreInList, ReadsItem};

use crate::kinds::{is_close, is_comma, is_keyword, is_open};
use crate::parameters::param::{Param, Params};
use crate::parameters::values::value;
use sb_lex::{Lexer, Token};
use sb_list::Text;
use sqlite_items::{Boxed, Items};
use std::alloc::{AllocError, Global};

/// The next token, where there is one.
pub(crate) fn next(lexer: &mut Lexer<'_>) -> Token
    requires { HasNext lexer.old }
    ensures { ReadsToken lexer.old lexer.new result }
{
    match lexer.next() {
        Ok(Some(token)) => token,
        _ => unreachable!(),
    }
}

/// Behind a parameter of a list: the first token of the next one, or the end of the list.
fn next_item(lexer: &mut Lexer<'_>) -> Token
    requires { Awaits AreFurther lexer.old }
    ensures { ReadsItem lexer.old lexer.new result }
{
    let mark = next(lexer);
    if is_comma(mark.kind) {
        next(lexer)
    } else {
        mark
    }
}

/// The parameter that begins with this token.
#[cycle(reading)]
fn parameter(
    alloc: Global,
    bytes: &[u8],
    lexer: &mut Lexer<'_>,
    first: Token,
) -> Result<Param, AllocError>
    requires input { lexer.old.input ≡ bytes.now }
    requires token { IsToken bytes.now first }
    requires awaits { Awaits (Behind (lexeme_at bytes.now first) IsParameter) lexer.old }
    ensures { IfOk result (Reads (Behind (lexeme_at bytes.now first) IsParameter)
        lexer.old lexer.new) }
{
    if is_keyword(first.kind) {
        typed(alloc, bytes, lexer, first)
    } else if is_open(first.kind) {
        Ok(Param::List(list(alloc, bytes, lexer)?))
    } else {
        value(alloc, bytes, first)
    }
}

/// The parameter that begins with this keyword.
#[cycle(reading)]
fn typed(
    alloc: Global,
    bytes: &[u8],
    lexer: &mut Lexer<'_>,
    keyword: Token,
) -> Result<Param, AllocError>
    requires input { lexer.old.input ≡ bytes.now }
    requires token { IsToken bytes.now keyword }
    requires keyword { IsKeyword (lexeme_at bytes.now keyword) }
    requires awaits { Awaits (Behind (lexeme_at bytes.now keyword) IsParameter) lexer.old }
    ensures { IfOk result (Reads (Behind (lexeme_at bytes.now keyword) IsParameter)
        lexer.old lexer.new) }
{
    let _opens = next(lexer);
    let first = next(lexer);
    let inner = parameter(alloc, bytes, lexer, first)?;
    let _closes = next(lexer);
    let name = Text::of(alloc, &bytes[keyword.start..keyword.end])?;
    Ok(Param::Typed(name, Boxed::new(alloc, inner)?))
}

/// The parameters behind the parenthesis of a list, to its end.
#[cycle(reading)]
pub(crate) fn list(alloc: Global, bytes: &[u8], lexer: &mut Lexer<'_>) -> Result<Params, AllocError>
    requires input { lexer.old.input ≡ bytes.now }
    requires awaits { Awaits AreInList lexer.old }
    ensures { IfOk result (Reads AreInList lexer.old lexer.new) }
{
    let mut items = Items::new(alloc);
    let mut token = next(lexer);
    'items: while !is_close(token.kind) {
        items.push(parameter(alloc, bytes, lexer, token)?)?;
        token = next_item(lexer);
    }
    Ok(items)
}
