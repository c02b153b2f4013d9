// Tests of the kinds of tokens.
ghost use Rattle.std.specs.Prelude.{◌≡◌, ◌&&◌};
ghost use Rattle.std.specs.Str.{bytes_eq};
ghost use Rattle.sb_step.specs.Lexemes.{is_open as is_open_of, is_close as is_close_of, is_value as is_value_of};
ghost use Rattle.sb_step.specs.KindTests as spec;

use sb_lex::{Kind, Mark, Word};

#[inline(always)]
pub(crate) fn is_semicolon(kind: Kind) -> bool
    ensures { result ≡ spec.is_semicolon kind }
{
    matches!(kind, Kind::Mark(Mark::Semicolon))
}

#[inline(always)]
pub(crate) fn is_comma(kind: Kind) -> bool
    ensures { result ≡ spec.is_comma kind }
{
    matches!(kind, Kind::Mark(Mark::Comma))
}

#[inline(always)]
pub(crate) fn is_equals(kind: Kind) -> bool
    ensures { result ≡ spec.is_equals kind }
{
    matches!(kind, Kind::Mark(Mark::Equals))
}

#[inline(always)]
pub(crate) fn is_first(kind: Kind) -> bool
    ensures { result ≡ spec.is_first kind }
{
    matches!(kind, Kind::Word(Word::First))
}

#[inline(always)]
pub(crate) fn is_last(kind: Kind) -> bool
    ensures { result ≡ spec.is_last kind }
{
    matches!(kind, Kind::Word(Word::Last))
}

#[inline(always)]
pub(crate) fn is_keyword(kind: Kind) -> bool
    ensures { result ≡ spec.is_keyword kind }
{
    matches!(kind, Kind::Keyword)
}

#[inline(always)]
pub(crate) fn is_open(kind: Kind) -> bool
    ensures { result ≡ is_open_of kind }
{
    matches!(kind, Kind::Mark(Mark::Open))
}

#[inline(always)]
pub(crate) fn is_close(kind: Kind) -> bool
    ensures { result ≡ is_close_of kind }
{
    matches!(kind, Kind::Mark(Mark::Close))
}

/// A parameter of one token.
#[inline(always)]
pub(crate) fn is_value(kind: Kind) -> bool
    ensures { result ≡ is_value_of kind }
{
    match kind {
        Kind::Integer
        | Kind::Real
        | Kind::Str
        | Kind::Enumeration
        | Kind::Binary
        | Kind::Name(_)
        | Kind::Mark(Mark::Dollar)
        | Kind::Mark(Mark::Asterisk) => true,
        _ => false,
    }
}

/// The keyword of these letters.
#[inline]
pub(crate) fn is_the(letters: &[u8], kind: Kind, text: &[u8]) -> bool
    ensures { result ≡ spec.is_keyword kind && bytes_eq text.now letters.now }
{
    is_keyword(kind) && text == letters
}
