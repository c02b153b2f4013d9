ghost use Rattle.std.specs.Prelude.{◌≤◌, IfOk};

use sb_lex::{Kind, Lexer};
use sb_step::{ParamsError, StepFile, params};
use std::alloc::{AllocError, Global};

/// How many names stand in a text, and how many of them are of its instances.
#[derive(Drop)]
pub struct Looked {
    pub names: usize,
    pub found: usize,
}

/// Looks at the keyword and the parameters of each name that stands in the text.
pub fn look(alloc: Global, bytes: &[u8], file: &StepFile<'_>) -> Result<Looked, AllocError>
    ensures { IfOk result (λ l. l.found ≤ l.names) }
{
    let mut lexer = Lexer::new(bytes);
    let mut looked = Looked { names: 0, found: 0 };
    'tokens: loop {
        match lexer.next() {
            Ok(Some(token)) => {
                if let Kind::Name(number) = token.kind {
                    looked.names += 1;
                    if is_there(alloc, file, number)? {
                        looked.found += 1;
                    }
                }
            }
            _ => return Ok(looked),
        }
    }
}

/// An instance has the number. Its keyword and its parameters are asked for.
fn is_there(alloc: Global, file: &StepFile<'_>, number: u32) -> Result<bool, AllocError> {
    let keyword = file.keyword(number);
    match params(alloc, file, number) {
        Ok(parameters) => Ok(keyword.is_some() || parameters.is_empty()),
        Err(ParamsError::Missing(_)) => Ok(false),
        Err(ParamsError::NoMemory) => Err(AllocError),
    }
}
