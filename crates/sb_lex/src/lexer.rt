use crate::kinds::{BadToken, Token};
use crate::next_answer::answer_from;
use std::marker::Model;

/// Reads the tokens of an input, one after another. It takes no memory.
#[derive(Drop)]
pub struct Lexer<'a> {
    bytes: &'a [u8],
    place: usize,
}

impl<'a> Model for Lexer<'a> {
    ghost use Rattle.std.specs.Prelude.{◌≤◌, length};
    ghost use Rattle.sb_lex.specs.Tokens.{Reading};

    ghost Value = { Reading };

    ghost view = { λ l. record { input = l.bytes.now; place = l.place } };

    ghost invariant = { λ l. l.place ≤ length l.bytes.now };
}

impl<'a> Lexer<'a> {
    ghost use Rattle.std.specs.Prelude.{◌≡◌, ◌≤◌, ◌↔◌, ℕ, length};
    ghost use Rattle.sb_lex.specs.declared.kinds.Token.{Token};
    ghost use Rattle.sb_lex.specs.Tokens.{IsTokenAnswer, IsNext, IsEnd, IsBadFrom, Lies, moved};

    /// A reader that stands at the first byte.
    pub fn new(bytes: &'a [u8]) -> Lexer<'a>
        ensures { result ≡ record { input = bytes.now; place = 0 } }
    {
        Lexer { bytes, place: 0 }
    }

    /// A reader that stands at this byte, as one does that has read so far.
    pub fn at(bytes: &'a [u8], place: usize) -> Lexer<'a>
        requires { place ≤ length bytes.now }
        ensures { result ≡ record { input = bytes.now; place = place } }
    {
        Lexer { bytes, place }
    }

    /// The next token.
    ///
    /// - `Ok(Some(token))`: exactly where `token` is the first from here on. White space and
    ///   comments before it are passed over. The reader then stands behind it.
    /// - `Ok(None)`: exactly where only white space and comments are left. The reader then stands
    ///   at the end.
    /// - `Err(BadToken(place))`: exactly where, behind white space and comments, a byte stands at
    ///   `place` with which neither of these nor a token begins. The reader then stands there, so
    ///   that each further call answers the same.
    ///
    /// Source: ISO 10303-21, with this project's leniencies, which `specs/Kinds.antt` states.
    #[inline(always)]
    pub fn next(&mut self) -> Result<Option<Token>, BadToken>
        ensures answer { IsTokenAnswer self.old result }
        ensures token { (t : Token) → (result ≡ Ok (Some t))
            ↔ IsNext self.old.input self.old.place t }
        ensures none { (result ≡ Ok None) ↔ IsEnd self.old.input self.old.place }
        ensures bad { (place : ℕ) → (result ≡ Err (record { 0 = place }))
            ↔ IsBadFrom self.old.input self.old.place place }

        // Where the answer lies, and where the reader stands after it.
        ensures lies { Lies self.old result }
        ensures moved { self.new ≡ moved self.old result }
    {
        let answer = answer_from(self.bytes, self.place);
        self.place = match answer {
            Ok(Some(token)) => token.end,
            Ok(None) => self.bytes.len(),
            Err(BadToken(place)) => place,
        };
        answer
    }
}
