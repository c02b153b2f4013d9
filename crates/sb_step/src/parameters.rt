// The parameters of an instance.
ghost use Rattle.std.specs.Prelude.{◌≡◌, ◌↔◌, ℕ, nat_eq, List, Ok, Err, None, IfOk};
ghost use Rattle.std.specs.Map.{lookup};
ghost use Rattle.sb_step.specs.declared.parameters.param.Param.{Param};
ghost use Rattle.sb_step.specs.Params.Parameters.{HasParameters};
ghost use Rattle.sb_step.specs.Params.ParamsAnswers.{IsParamsAnswer, HasMemory, AwaitsByForm, SaysByForm, AwaitsList, ListSays, Gives};

pub(crate) mod param;
pub(crate) mod reading;
pub(crate) mod values;

use crate::error::ParamsError;
use crate::laws::one_list_of_parameters;
use crate::parameters::param::Params;
use crate::parameters::reading::{list, next};
use crate::step_file::StepFile;
use crate::step_file::records::Form;
use crate::step_file::table::form;
use sb_lex::Lexer;
use sqlite_items::Items;
use std::alloc::{AllocError, Global};

/// The parameters of the instance of this number, as they stand in the text.
///
/// - `Ok(parameters)`: exactly those that its parameter list says. A complex record, which may have
///   several lists, is given none.
/// - `Err(Missing(number))`: exactly where no instance has the number.
/// - `Err(NoMemory)`: at any time. The two others yield to it.
///
/// The cost is that of the list's bytes.
pub fn params(alloc: Global, file: &StepFile<'_>, number: u32) -> Result<Params, ParamsError>
    ensures answer { IsParamsAnswer file.now number result }
    ensures missing { (n : ℕ) → HasMemory result → (result ≡ Err (ParamsError.Missing n))
        ↔ ((n ≡ number) × (lookup (nat_eq number) file.now.file.instances ≡ None)) }
    ensures parameters { (ps : List Param) → HasMemory result → (result ≡ Ok ps)
        ↔ HasParameters file.now number ps }
{
    one_list_of_parameters();
    find(alloc, file, number)
}

fn find(alloc: Global, file: &StepFile<'_>, number: u32) -> Result<Params, ParamsError>
    ensures { IsParamsAnswer file.now number result }
{
    match file.find(number) {
        Some(place) => by_form(alloc, file.text.bytes, form(place)),
        None => Err(ParamsError::Missing(number)),
    }
}

fn by_form(alloc: Global, bytes: &[u8], form: Form) -> Result<Params, ParamsError>
    requires { AwaitsByForm bytes.now form }
    ensures { Gives (SaysByForm bytes.now form) result }
{
    match form {
        Form::Simple(keyword_end) => match list_at(alloc, bytes, keyword_end) {
            Ok(parameters) => Ok(parameters),
            Err(_) => Err(ParamsError::NoMemory),
        },
        Form::Complex => Ok(Items::new(alloc)),
    }
}

/// What the parameter list behind this byte says.
fn list_at(alloc: Global, bytes: &[u8], place: usize) -> Result<Params, AllocError>
    requires { AwaitsList bytes.now place }
    ensures { IfOk result (ListSays bytes.now place) }
{
    let mut lexer = Lexer::at(bytes, place);
    let _opens = next(&mut lexer);
    list(alloc, bytes, &mut lexer)
}
