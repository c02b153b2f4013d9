// The answer to a call for the next token, as a value.
ghost use Rattle.std.specs.Prelude.{◌≤◌, length};
ghost use Rattle.sb_lex.specs.Tokens.{IsTokenAnswer, Lies};

use crate::blanks::blank_len;
use crate::first_byte::token_at;
use crate::kinds::{BadToken, Token};

#[inline(always)]
pub(crate) fn answer_from(bytes: &[u8], place: usize) -> Result<Option<Token>, BadToken>
    requires { place ≤ length bytes.now }
    ensures answer { IsTokenAnswer (record { input = bytes.now; place = place }) result }
    ensures lies { Lies (record { input = bytes.now; place = place }) result }
{
    let start = place + blank_len(&bytes[place..]);
    if start == bytes.len() {
        return Ok(None);
    }
    match token_at(&bytes[start..]) {
        Some((kind, len)) => Ok(Some(Token {
            kind,
            start,
            end: start + len,
        })),
        None => Err(BadToken(start)),
    }
}
