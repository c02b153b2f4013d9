ghost use Rattle.std.specs.Prelude.{◌≡◌, ◌↔◌, ℕ, nat_eq, List, [], drop, None, IfSome, IsTrue};
ghost use Rattle.std.specs.Prelude.{◌≤◌, length};
ghost use Rattle.std.specs.Map.{lookup};
ghost use Rattle.std.specs.Option.{option_copied};
ghost use Rattle.sb_step.specs.Records.Spans.{keyword_of};
ghost use Rattle.sb_step.specs.declared.parameters.param.Param.{Param};
ghost use Rattle.sb_step.specs.Params.Parameters.{HasParameters};
ghost use Rattle.sb_step.specs.Params.ParamsAnswers.{AwaitsByForm, SaysByForm, AwaitsList, ListSays};
ghost use Rattle.std.specs.Coded.{Coded-set, coded_list};
ghost use Rattle.sb_step.specs.contracts.parameters.param.Param as param;
ghost use Rattle.sb_step.specs.Cursors.Cursor as spec;
ghost use Rattle.sb_step.specs.Cursors.Cursor.{AreLeft, StandsAt, ListBehind, Left, Left-prop, LeftAreUnique, LeftAreUnique-prop};

use crate::kinds::is_close;
use crate::parameters::reading::next;
use crate::passing::{following, pass};
use crate::step_file::records::Form;
use crate::step_file::table::form;
use crate::step_file::{StepFile, keyword_at};
use sb_lex::{Lexer, Token, tokens_are_one_list};
use std::marker::Model;

/// Where a cursor stands: the first token of the next parameter, or none where nothing is left.
#[derive(Drop)]
pub(crate) struct Place<'a> {
    pub(crate) bytes: &'a [u8],
    pub(crate) next: Option<Token>,
    ghost unique: { LeftAreUnique } by { LeftAreUnique-prop (Coded-set (coded_list param.the_row.coded)) },
    ghost left: { Left bytes.now next } by { Left-prop (Coded-set (coded_list param.the_row.coded)) unique bytes.now next },
}

/// The parameters of an instance, one after another. Contracts see it as the list of those that are
/// left.
#[derive(Drop)]
pub struct Cursor<'a> {
    pub(crate) place: Place<'a>,
}

impl<'a> Model for Cursor<'a> {
    ghost use Rattle.std.specs.Prelude.{List};
    ghost use Rattle.sb_step.specs.declared.parameters.param.Param.{Param};
    ghost use Rattle.sb_step.specs.Cursors.Cursor.{AreLeft};
    ghost use Rattle.std.specs.Coded.{coded_list};
    ghost use Rattle.sb_step.specs.contracts.parameters.param.Param as param;

    ghost Value = { List Param };

    ghost coded = { coded_list param.the_row.coded };

    ghost view = { λ c. c.place.left.0 };

    ghost invariant = { λ c. AreLeft c.place.bytes.now c.place.next c.place.left.0 };
}

impl<'a> StepFile<'a> {
    /// A cursor before the parameters of the instance of this number, found in logarithmic time.
    ///
    /// - `Some(cursor)`: all parameters of the instance are left. A complex record is given none.
    /// - `None`: exactly where no instance has the number.
    pub fn cursor(&self, number: u32) -> Option<Cursor<'a>>
        ensures missing { (result ≡ None)
            ↔ (lookup (nat_eq number) self.now.file.instances ≡ None) }
        ensures parameters { IfSome result (HasParameters self.now number) }
    {
        match self.find(number) {
            Some(place) => Some(by_form(self.text.bytes, form(place))),
            None => None,
        }
    }
}

/// An instance, found by its number.
#[derive(Drop)]
pub struct Instance<'a> {
    /// The keyword as it stands; a complex record has none.
    pub keyword: Option<&'a [u8]>,
    /// A cursor before its parameters.
    pub parameters: Cursor<'a>,
}

impl<'a> StepFile<'a> {
    /// The keyword and the parameters of the instance of this number, in one look-up: what `keyword`
    /// and `cursor` answer. `None` exactly where no instance has the number.
    pub fn instance(&self, number: u32) -> Option<Instance<'a>>
        ensures missing { (result ≡ None)
            ↔ (lookup (nat_eq number) self.now.file.instances ≡ None) }
        ensures keyword { IfSome result (λ i. option_copied i.keyword ≡ keyword_of self.now number) }
        ensures parameters { IfSome result (λ i. HasParameters self.now number i.parameters) }
    {
        match self.find(number) {
            Some(place) => {
                let keyword = keyword_at(self.text.bytes, place);
                let parameters = by_form(self.text.bytes, form(place));
                Some(Instance {
                    keyword,
                    parameters,
                })
            }
            None => None,
        }
    }
}

impl<'a> Cursor<'a> {
    /// Whether no parameter is left.
    pub fn is_done(&self) -> bool
        ensures { IsTrue result ↔ (self.now ≡ []) }
    {
        self.place.next.is_none()
    }

    /// Another cursor before the same parameters.
    pub fn copy(&self) -> Cursor<'a>
        ensures { result ≡ self.now }
    {
        standing_at(self.place.bytes, self.place.next)
    }

    /// Passes over one parameter, whatever it holds, where one is left.
    pub fn skip(&mut self)
        ensures { self.new ≡ drop 1 self.old }
    {
        if let Some(first) = self.place.next {
            *self = behind(self.place.bytes, first);
        }
    }
}

/// A cursor before the parameters of a record of this form.
fn by_form<'a>(bytes: &'a [u8], form: Form) -> Cursor<'a>
    requires { AwaitsByForm bytes.now form }
    ensures { SaysByForm bytes.now form result }
{
    match form {
        Form::Simple(keyword_end) => at_list(bytes, keyword_end),
        Form::Complex => standing_at(bytes, None),
    }
}

/// A cursor before the parameters of the list behind this byte.
fn at_list<'a>(bytes: &'a [u8], place: usize) -> Cursor<'a>
    requires { AwaitsList bytes.now place }
    ensures { ListSays bytes.now place result }
{
    let mut lexer = Lexer::at(bytes, place);
    let _opens = next(&mut lexer);
    let first = next(&mut lexer);
    standing_at(bytes, unless_closed(first))
}

/// A cursor behind the parameter that begins with this token.
fn behind<'a>(bytes: &'a [u8], first: Token) -> Cursor<'a>
    requires { (ps : List Param) × StandsAt bytes.now first ps }
    ensures { (ps : List Param) → StandsAt bytes.now first ps → result ≡ drop 1 ps }
{
    let mut lexer = Lexer::at(bytes, first.end);
    pass(&mut lexer, first);
    let next = following(&mut lexer);
    standing_at(bytes, next)
}

/// A cursor before the parameters of the list that begins with this parenthesis.
pub(crate) fn inside<'a>(bytes: &'a [u8], parenthesis: Token) -> Cursor<'a>
    requires within { parenthesis.end ≤ length bytes.now }
    requires list { (ps : List Param) × ListBehind bytes.now parenthesis ps }
    ensures { (ps : List Param) → ListBehind bytes.now parenthesis ps → result ≡ ps }
{
    let mut lexer = Lexer::at(bytes, parenthesis.end);
    let first = next(&mut lexer);
    standing_at(bytes, unless_closed(first))
}

/// The token, unless it ends a list.
fn unless_closed(token: Token) -> Option<Token>
    ensures { result ≡ spec.unless_closed token }
{
    if is_close(token.kind) {
        None
    } else {
        Some(token)
    }
}

/// A cursor that stands there.
fn standing_at<'a>(bytes: &'a [u8], next: Option<Token>) -> Cursor<'a>
    requires { (ps : List Param) × AreLeft bytes.now next ps }
    ensures { (ps : List Param) → AreLeft bytes.now next ps → result ≡ ps }
{
    let place = placed(bytes, next);
    Cursor { place }
}

/// This place, where some parameters are left.
fn placed<'a>(bytes: &'a [u8], next: Option<Token>) -> Place<'a>
    requires { (ps : List Param) × AreLeft bytes.now next ps }
    ensures bytes { result.bytes.now ≡ bytes.now }
    ensures next { result.next ≡ next }
{
    tokens_are_one_list();
    Place { bytes, next }
}
