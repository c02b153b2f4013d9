//! The tokens of an exchange text (ISO 10303-21, the STEP file), with the place of the first byte
//! that begins none.
//!
//! [`Lexer`] borrows the bytes and gives one [`Token`] after another. What is a token, and what may
//! stand between two, say `specs/Kinds.antt` and `specs/Tokens.antt`: read these first.
#![tactic(auto)]

mod blanks;
mod classes;
mod first_byte;
mod kinds;
mod laws;
mod lexer;
mod names;
mod next_answer;
mod numbers;
mod quoted;

pub use crate::kinds::{BadToken, Kind, Mark, Token, Word};
pub use crate::laws::tokens_are_one_list;
pub use crate::lexer::Lexer;
