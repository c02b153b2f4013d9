ghost use Rattle.bench_tokens.specs.Counts.{CountsTokens};

use sb_lex::{BadToken, Lexer};

/// How many tokens an input has, and the fault behind them.
#[derive(Drop)]
pub struct Count {
    pub tokens: usize,
    pub fault: Option<BadToken>,
}

/// Asks for one token after another, to the end or to the first fault.
pub fn count_tokens(bytes: &[u8]) -> Count
    ensures { CountsTokens bytes.now result }
{
    let mut lexer = Lexer::new(bytes);
    let mut tokens = 0;
    'calls: loop {
        match lexer.next() {
            Ok(Some(_)) => tokens += 1,
            Ok(None) => return Count {
                tokens,
                fault: None,
            },
            Err(bad) => return Count {
                tokens,
                fault: Some(bad),
            },
        }
    }
}
