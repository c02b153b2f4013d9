// A whole text, token by token.
ghost use Rattle.std.specs.Prelude.{◌≡◌, ◌↔◌, ℕ, [], Ok, Err};
ghost use Rattle.sb_step.specs.IndexAnswers.{IsAnswer, IsInTime, IsIndexed, HasDoubled};
ghost use Rattle.sb_step.specs.Faults.{IsFaultAt};
ghost use Rattle.sb_step.specs.Indexed.{Indexed};
ghost use Rattle.sb_step.specs.Index.Machines.{state_of};
ghost use Rattle.sb_step.specs.Index.Progress as spec;

use crate::indexing::collected::Collected;

mod collected;
pub(crate) mod instances;
mod lists;
mod machine;
mod sections;
mod states;

use crate::error::StepError;
use crate::indexing::instances::Instances;
use crate::indexing::machine::Machine;
use crate::laws::one_file_or_one_fault;
use crate::step_file::StepFile;
use crate::step_file::table::{least_doubled, table};
use crate::step_file::text::file_text;
use sb_lex::{BadToken, Lexer, Token, tokens_are_one_list};
use std::alloc::Global;

/// The exchange text that the input is, with its instances by number.
///
/// - `Ok(file)`: exactly where the input is a text of the grammar and no two of its instances have
///   one number. Then `file` is the one that the text describes.
/// - `Err(Syntax(place))`: exactly where the input has its fault at this byte. Each input that is
///   no text has one fault. Tried first.
/// - `Err(Duplicate(number))`: exactly where the input is a text and `number` is the least that two
///   of its instances have.
/// - `Err(NoMemory)`: at any time. The three others yield to it.
///
/// Source: ISO 10303-21, with the leniencies that `specs/Grammar.antt` states.
pub fn index<'a>(alloc: Global, bytes: &'a [u8]) -> Result<StepFile<'a>, StepError>
    ensures answer { IsAnswer bytes.now result }
    ensures file { (indexed : Indexed) → IsInTime result → (result ≡ Ok indexed)
        ↔ IsIndexed bytes.now indexed }
    ensures syntax { (place : ℕ) → IsInTime result → (result ≡ Err (StepError.Syntax place))
        ↔ IsFaultAt bytes.now place }
    ensures duplicate { (number : ℕ) → IsInTime result
        → (result ≡ Err (StepError.Duplicate number)) ↔ HasDoubled bytes.now number }
{
    one_file_or_one_fault();
    read(alloc, bytes)
}

fn read<'a>(alloc: Global, bytes: &'a [u8]) -> Result<StepFile<'a>, StepError>
    ensures { IsAnswer bytes.now result }
{
    tokens_are_one_list();
    let mut lexer = Lexer::new(bytes);
    let mut machine = Machine::new();
    let mut collected = Collected::new(alloc);
    'tokens: loop {
        match lexer.next() {
            Ok(Some(token)) => {
                let text = &bytes[token.start..token.end];
                match accept(bytes, &mut machine, &mut collected, token, text) {
                    Ok(()) => {}
                    Err(error) => return Err(error),
                }
            }
            Ok(None) => return finish(alloc, bytes, machine.end(), collected),
            Err(BadToken(place)) => return Err(StepError::Syntax(place)),
        }
    }
}

fn accept(
    bytes: &[u8],
    machine: &mut Machine,
    collected: &mut Collected,
    token: Token,
    text: &[u8],
) -> Result<(), StepError>
    ensures { spec.Accepts bytes.now (state_of machine.old) (state_of machine.new)
        (record { token = token; text = text.now }) collected.old collected.new result }
{
    match machine.advance(token, text) {
        Some(event) => match collected.add(bytes, event) {
            Ok(()) => Ok(()),
            Err(_) => Err(StepError::NoMemory),
        },
        None => Err(StepError::Syntax(token.start)),
    }
}

fn finish<'a>(
    alloc: Global,
    bytes: &'a [u8],
    end: Option<usize>,
    collected: Collected,
) -> Result<StepFile<'a>, StepError>
    requires { spec.IsRead bytes.now end collected }
    ensures { IsAnswer bytes.now result }
{
    match end {
        Some(data_end) => found(alloc, bytes, data_end, collected),
        None => Err(StepError::Syntax(bytes.len())),
    }
}

fn found<'a>(
    alloc: Global,
    bytes: &'a [u8],
    data_end: usize,
    collected: Collected,
) -> Result<StepFile<'a>, StepError>
    requires { spec.IsFound bytes.now data_end collected }
    ensures { IsAnswer bytes.now result }
{
    one_file_or_one_fault();
    let text = file_text(bytes);
    let Collected { schema, instances } = collected;
    let Instances { numbers, places } = instances;
    let Ok(rows) = table(alloc, &numbers) else {
        return Err(StepError::NoMemory);
    };
    match least_doubled(&rows) {
        Some(number) => Err(StepError::Duplicate(number)),
        None => Ok(StepFile {
            text,
            schema,
            numbers,
            places,
            rows,
            data_end,
        }),
    }
}
