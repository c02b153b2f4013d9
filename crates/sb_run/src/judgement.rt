// The judgement of an input: what is to be written for it, or why it is refused.
ghost use Rattle.std.specs.Prelude.{◌≡◌, ◌≤◌, [], ◌∷◌, length, IfOk, IfErr, OnOk, string_bytes};
ghost use Rattle.std.specs.Option.{ForSome};
ghost use Rattle.sb_form.specs.FirstForm.{AreShort};
ghost use Rattle.sb_form.specs.Meaning.{IsExtentOf, model_of};
ghost use Rattle.sb_report.specs.Report.{report_of};
ghost use Rattle.sb_shelf.specs.World.{OnlyReads, also_asked};
ghost use Rattle.sb_shelf.specs.WholeTexts.{longest_input};
ghost use Rattle.sb_run.specs.Messages.{done_line};
ghost use Rattle.sb_run.specs.Judgements.{IsReady, IsRead, IsJudged, IsRefusal, code_of};
ghost use Rattle.sb_run.specs.Judgements.{refusal_of};
ghost use Rattle.sb_run.specs.Promises.{IsListOf};

use crate::answer::{Answer, Code};
use crate::messages::done_text;
use sb_box::{Extent, box_boundaries};
use sb_form::{Defect, FirstForm, SPACE, extent_of, first_form, model};
use sb_model::Boundaries;
use sb_report::report_text;
use sb_shelf::{ReadError, Shelf, read_all};
use sb_step::{StepError, index};
use std::alloc::{AllocError, Global};

/// All that is to be written for an input: once it is there, a run takes no memory any more.
#[derive(Drop)]
pub(crate) struct Ready {
    pub list: Boundaries,
    pub report: Vec<u8>,
    pub line: String,
}

/// Reads the input under a path and judges it.
pub(crate) fn judged<S: Shelf>(alloc: Global, shelf: &mut S, path: &str) -> Result<Ready, Answer>
    ensures keeps { OnlyReads (S.state shelf.old) (S.state shelf.new) }
    ensures asked { (S.state shelf.new).asked_inputs
        ≡ also_asked (S.state shelf.old).asked_inputs (path.now ∷ []) }
    ensures ready { IfOk result (λ ready. ForSome ((S.state shelf.old).under path.now)
        (λ input. IsReady input ready)) }
    ensures line { IfOk result (λ ready. string_bytes ready.line ≡ done_line ready.list) }
    ensures refused { IfErr result (λ answer. IsRefusal ((S.state shelf.old).under path.now) answer
        (S.state shelf.old) (S.state shelf.new)) }
{
    match read_all(alloc, shelf, path) {
        Ok(bytes) => judge(alloc, &bytes),
        Err(ReadError::ReadFault) => Err(Answer::ReadFault),
        Err(ReadError::TooLong) => Err(Answer::TooLong),
        Err(ReadError::NoMemory) => Err(Answer::NoMemory),
    }
}

/// Judges an input: first whether it is an exchange text, and then what it holds.
fn judge(alloc: Global, input: &[u8]) -> Result<Ready, Answer>
    requires { length input.now ≤ longest_input }
    ensures ready { IfOk result (λ ready. IsReady input.now ready) }
    ensures line { IfOk result (λ ready. string_bytes ready.line ≡ done_line ready.list) }
    ensures refused { IfErr result (λ answer. IsJudged input.now answer) }
{
    check_text(alloc, input)?;
    judge_text(alloc, input)
}

/// Whether the input is an exchange text whose numbers are apart. The index of its instances is
/// given back: the form that is read yet needs none.
fn check_text(alloc: Global, input: &[u8]) -> Result<(), Answer>
    requires { length input.now ≤ longest_input }
    ensures read { OnOk result (IsRead input.now) }
    ensures refused { IfErr result (λ answer. IsJudged input.now answer) }
{
    match index(alloc, input) {
        Ok(_file) => Ok(()),
        Err(error) => Err(refusal_of(error)),
    }
}

fn refusal_of(error: StepError) -> Answer
    ensures { result ≡ refusal_of error }
{
    match error {
        StepError::Syntax(place) => Answer::Syntax(place as u64),
        StepError::Duplicate(number) => Answer::Refused(number, Code::Duplicate),
        StepError::NoMemory => Answer::NoMemory,
    }
}

/// Judges an exchange text whose numbers are apart.
fn judge_text(alloc: Global, input: &[u8]) -> Result<Ready, Answer>
    requires within { length input.now ≤ longest_input }
    requires read { IsRead input.now }
    ensures ready { IfOk result (λ ready. IsReady input.now ready) }
    ensures line { IfOk result (λ ready. string_bytes ready.line ≡ done_line ready.list) }
    ensures refused { IfErr result (λ answer. IsJudged input.now answer) }
{
    let Some(form) = first_form(input) else {
        return Err(Answer::Refused(0, Code::Unbuilt));
    };
    match extent_of(&form) {
        Err(defect) => Err(Answer::Refused(SPACE, code_of(defect))),
        Ok(extent) => match made_ready(alloc, &form, &extent) {
            Ok(ready) => Ok(ready),
            Err(_) => Err(Answer::NoMemory),
        },
    }
}

fn code_of(defect: Defect) -> Code
    ensures { result ≡ code_of defect }
{
    match defect {
        Defect::Shape => Code::Shape,
        Defect::Range => Code::Range,
        Defect::OffGrid => Code::OffGrid,
    }
}

/// Makes the list, the report and the line of a form with this box.
fn made_ready(alloc: Global, form: &FirstForm, extent: &Extent) -> Result<Ready, AllocError>
    requires short { AreShort form.now }
    requires extent { IsExtentOf form.now extent.now }
    ensures list { IfOk result (λ ready. IsListOf form.now extent.now ready.list) }
    ensures report { IfOk result (λ ready.
        ready.report.items ≡ report_of (model_of form.now extent.now) ready.list) }
    ensures line { IfOk result (λ ready. string_bytes ready.line ≡ done_line ready.list) }
{
    let model = model(alloc, form, extent)?;
    let list = box_boundaries(alloc, SPACE, extent)?;
    let report = report_text(alloc, &model, &list)?;
    let line = done_text(alloc, &list)?;
    Ok(Ready { list, report, line })
}
