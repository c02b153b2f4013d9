// What a token says that is a parameter by itself.
ghost use Rattle.std.specs.Prelude.{◌≡◌, ℕ, ◌+◌, ◌-◌, ◌≤◌, List, length, slice_range, IsTrue, IfOk};
ghost use Rattle.sb_lex.specs.Tokens.{IsToken};
ghost use Rattle.sb_step.specs.Lexemes.{is_value};
ghost use Rattle.sb_step.specs.Params.Parameters.{written, doubled, Says};

use crate::parameters::param::Param;
use sb_lex::{Kind, Mark, Token};
use sb_list::Text;
use std::alloc::{AllocError, Global};

/// What the token says.
pub(crate) fn value(alloc: Global, bytes: &[u8], token: Token) -> Result<Param, AllocError>
    requires token { IsToken bytes.now token }
    requires value { IsTrue (is_value token.kind) }
    ensures { IfOk result (Says token.kind (slice_range bytes.now token.start token.end)) }
{
    let text = &bytes[token.start..token.end];
    match token.kind {
        Kind::Integer => Ok(Param::Int(Text::of(alloc, text)?)),
        Kind::Real => Ok(Param::Real(Text::of(alloc, text)?)),
        Kind::Str => Ok(Param::Str(undoubled(alloc, inside(text))?)),
        Kind::Enumeration => Ok(Param::Enumeration(Text::of(alloc, inside(text))?)),
        Kind::Binary => Ok(Param::Binary(Text::of(alloc, inside(text))?)),
        Kind::Name(number) => Ok(Param::Reference(number)),
        Kind::Mark(Mark::Dollar) => Ok(Param::Null),
        Kind::Mark(Mark::Asterisk) => Ok(Param::Derived),
        _ => unreachable!(),
    }
}

/// The text without its first byte and its last.
fn inside(text: &[u8]) -> &[u8]
    requires { 2 ≤ length text.now }
    ensures { result.now ≡ slice_range text.now 1 (length text.now - 1) }
{
    &text[1..text.len() - 1]
}

/// The text with each doubled apostrophe once.
fn undoubled(alloc: Global, text: &[u8]) -> Result<Text, AllocError>
    requires { (s : List ℕ) × (text.now ≡ doubled s) }
    ensures { IfOk result (λ s. text.now ≡ doubled s) }
{
    let mut single = Text::new(alloc);
    let mut at = 0;
    'bytes: while at < text.len() {
        single.push(text[at])?;
        at += written_len(text[at]);
    }
    Ok(single)
}

/// How many bytes stand in a string for this one.
#[inline]
fn written_len(byte: u8) -> usize
    ensures value { result ≡ length (written byte) }
    ensures size { result ≤ 2 }
{
    if byte == b'\'' { 2 } else { 1 }
}
