// Passing over a parameter, whatever stands in it.
ghost use Rattle.std.specs.Prelude.{◌≡◌, ◌≤◌, List};
ghost use Rattle.sb_step.specs.Lexemes.{Lexeme, lexeme_at};
ghost use Rattle.sb_step.specs.Params.Parameters.{IsParameter, AreFurther};
ghost use Rattle.sb_step.specs.Params.Readers.{Awaits, Behind};
ghost use Rattle.sb_step.specs.Cursors.Passing.{StillOpen, Opens, HasClosed, PassesOver, Leaves, depth_behind as behind_kind};

use crate::kinds::{is_close, is_comma, is_keyword, is_open};
use crate::parameters::reading::next;
use sb_lex::{Kind, Lexer, Token};

/// Passes over the parameter that begins with this token.
pub(crate) fn pass(lexer: &mut Lexer<'_>, first: Token)
    requires { Awaits (Behind (lexeme_at lexer.old.input first) IsParameter) lexer.old }
    ensures { PassesOver (Behind (lexeme_at lexer.old.input first) IsParameter)
        lexer.old lexer.new }
{
    let depth = opened(lexer, first);
    close(lexer, depth);
}

/// How many parentheses are open behind what the parameter begins with.
fn opened(lexer: &mut Lexer<'_>, first: Token) -> u128
    requires { Awaits (Behind (lexeme_at lexer.old.input first) IsParameter) lexer.old }
    ensures opens { Opens (Behind (lexeme_at lexer.old.input first) IsParameter) result
        lexer.old lexer.new }
    ensures few { result ≤ 1 }
{
    if is_keyword(first.kind) {
        let _opens = next(lexer);
        1
    } else if is_open(first.kind) {
        1
    } else {
        0
    }
}

/// Passes over all tokens up to the one that closes the last of so many open parentheses.
fn close(lexer: &mut Lexer<'_>, first_depth: u128)
    requires awaits { (rest : List Lexeme) × StillOpen first_depth lexer.old rest }
    requires few { first_depth ≤ 1 }
    ensures { HasClosed first_depth lexer.old lexer.new }
{
    let mut depth = first_depth;
    'tokens: while depth > 0 {
        let token = next(lexer);
        depth = depth_behind(depth, token.kind);
    }
}

/// How many parentheses are open behind a token.
fn depth_behind(depth: u128, kind: Kind) -> u128
    requires { depth ≤ 18446744073709551617 }
    ensures { result ≡ behind_kind depth kind }
{
    if is_open(kind) {
        depth + 1
    } else if is_close(kind) {
        depth.saturating_sub(1)
    } else {
        depth
    }
}

/// Behind a parameter of a list: the first token of the next one, if there is one.
pub(crate) fn following(lexer: &mut Lexer<'_>) -> Option<Token>
    requires { Awaits AreFurther lexer.old }
    ensures { Leaves lexer.old result }
{
    let mark = next(lexer);
    if is_comma(mark.kind) {
        Some(next(lexer))
    } else {
        None
    }
}
