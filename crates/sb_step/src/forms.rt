// The next parameter, by its form.
ghost use Rattle.std.specs.Prelude.{◌≡◌, ◌↔◌, List, None, drop, slice_get, IfSome};
ghost use Rattle.sb_step.specs.declared.parameters.param.Param.{Param};
ghost use Rattle.sb_step.specs.Cursors.Cursor.{StandsAt};
ghost use Rattle.std.specs.Option.{option_copied};
ghost use Rattle.sb_step.specs.Cursors.Forms.{reference_in, reference_or_none_in, number_in, IsList, IsTyped};
ghost use Rattle.std.specs.Prelude.{ℕ, slice_range, IsTrue};
ghost use Rattle.sb_step.specs.KindTests.{is_keyword as is_keyword_of};
ghost use Rattle.sb_step.specs.Cursors.Forms.{enumeration_in, string_in, enumeration_text, is_string as is_string_of};
ghost use Rattle.sb_step.specs.Cursors.Forms.{is_null_in, is_dollar as is_dollar_of, integer_in};
ghost use Rattle.std.specs.Prelude.{◌≤◌, length, IfOk, OnOk, OnErr};
ghost use Rattle.sb_step.specs.Cursors.Forms.{name_of, name_or_none_of, number_text, integer_text};

use crate::cursor::{Cursor, inside};
use crate::kinds::{is_keyword, is_open};
use crate::parameters::param::Param;
use crate::parameters::reading::next;
use crate::parameters::values::value;
use sb_lex::{Kind, Lexer, Mark, Token};
use sb_list::Text;
use std::alloc::{AllocError, Global};

/// A keyword, and a cursor before the one parameter in its parentheses.
#[derive(Drop)]
pub struct Typed<'a> {
    /// The keyword as it stands.
    pub keyword: &'a [u8],
    /// The parameter in its parentheses.
    pub inner: Cursor<'a>,
}

impl<'a> Cursor<'a> {
    /// Whether the next parameter is `$`, no value. The cursor stays where it stands.
    pub fn is_null(&self) -> bool
        ensures { result ≡ is_null_in (slice_get self.now 0) }
    {
        match self.place.next {
            Some(token) => is_dollar(token.kind),
            None => false,
        }
    }

    /// The number of the instance to which the next parameter refers. The cursor then stands behind
    /// it.
    ///
    /// `None`: exactly where the parameter is no reference, or none is left.
    pub fn reference(&mut self) -> Option<u32>
        ensures value { result ≡ reference_in (slice_get self.old 0) }
        ensures left { self.new ≡ drop 1 self.old }
    {
        let value = self.name();
        self.skip();
        value
    }

    /// The same of a reference or `$`, which gives `Some(None)`.
    pub fn reference_or_none(&mut self) -> Option<Option<u32>>
        ensures value { result ≡ reference_or_none_in (slice_get self.old 0) }
        ensures left { self.new ≡ drop 1 self.old }
    {
        let value = self.name_or_none();
        self.skip();
        value
    }

    /// The next parameter, an integer or a real, as it stands in the text. The cursor then stands
    /// behind it.
    ///
    /// `None`: exactly where the parameter is neither, or none is left.
    pub fn number(&mut self) -> Option<&'a [u8]>
        ensures value { option_copied result ≡ number_in (slice_get self.old 0) }
        ensures left { self.new ≡ drop 1 self.old }
    {
        let value = self.number_text();
        self.skip();
        value
    }

    /// The same of an integer alone.
    pub fn integer(&mut self) -> Option<&'a [u8]>
        ensures value { option_copied result ≡ integer_in (slice_get self.old 0) }
        ensures left { self.new ≡ drop 1 self.old }
    {
        let value = self.integer_text();
        self.skip();
        value
    }

    /// The next parameter, an enumeration, without its points. The cursor then stands behind it.
    ///
    /// `None`: exactly where the parameter is no enumeration, or none is left.
    pub fn enumeration(&mut self) -> Option<&'a [u8]>
        ensures value { option_copied result ≡ enumeration_in (slice_get self.old 0) }
        ensures left { self.new ≡ drop 1 self.old }
    {
        let value = self.enumeration_text();
        self.skip();
        value
    }

    /// The next parameter, a string in which a doubled apostrophe is one. The cursor then stands
    /// behind it. Want of memory leaves it where it stood.
    ///
    /// `Ok(None)`: exactly where the parameter is no string, or none is left.
    pub fn string(&mut self, alloc: Global) -> Result<Option<Text>, AllocError>
        ensures value { IfOk result (λ value. value ≡ string_in (slice_get self.old 0)) }
        ensures left { OnOk result (self.new ≡ drop 1 self.old) }
        ensures err { OnErr result (self.new ≡ self.old) }
    {
        let value = self.string_text(alloc)?;
        self.skip();
        Ok(value)
    }

    fn enumeration_text(&self) -> Option<&'a [u8]>
        ensures { option_copied result ≡ enumeration_in (slice_get self.now 0) }
    {
        match self.place.next {
            Some(token) => { enumeration_of(token.kind, &self.place.bytes[token.start..token.end]) }
            None => None,
        }
    }

    fn string_text(&self, alloc: Global) -> Result<Option<Text>, AllocError>
        ensures { IfOk result (λ value. value ≡ string_in (slice_get self.now 0)) }
    {
        match self.place.next {
            Some(token) => string_of(alloc, self.place.bytes, token),
            None => Ok(None),
        }
    }

    /// A cursor before the parameters of the next parameter, a list. This cursor then stands behind
    /// it.
    ///
    /// `None`: exactly where the parameter is no list, or none is left.
    pub fn list(&mut self) -> Option<Cursor<'a>>
        ensures some { IfSome result (IsList (slice_get self.old 0)) }
        ensures none { (result ≡ None)
            ↔ ((ps : List Param) → ¬ IsList (slice_get self.old 0) ps) }
        ensures left { self.new ≡ drop 1 self.old }
    {
        let items = self.items();
        self.skip();
        items
    }

    /// The keyword and the parameter of the next parameter, a typed one. This cursor then stands
    /// behind it.
    ///
    /// `None`: exactly where the parameter is not typed, or none is left.
    pub fn typed(&mut self) -> Option<Typed<'a>>
        ensures some { IfSome result (λ t. IsTyped (slice_get self.old 0) t.keyword.now t.inner) }
        ensures none { (result ≡ None) ↔ ((name : List ℕ) (ps : List Param)
            → ¬ IsTyped (slice_get self.old 0) name ps) }
        ensures left { self.new ≡ drop 1 self.old }
    {
        let typed = self.typed_next();
        self.skip();
        typed
    }

    fn typed_next(&self) -> Option<Typed<'a>>
        ensures some { IfSome result (λ t. IsTyped (slice_get self.now 0) t.keyword.now t.inner) }
        ensures none { (result ≡ None) ↔ ((name : List ℕ) (ps : List Param)
            → ¬ IsTyped (slice_get self.now 0) name ps) }
    {
        match self.place.next {
            Some(token) => typed_of(self.place.bytes, token),
            None => None,
        }
    }

    fn items(&self) -> Option<Cursor<'a>>
        ensures some { IfSome result (IsList (slice_get self.now 0)) }
        ensures none { (result ≡ None)
            ↔ ((ps : List Param) → ¬ IsList (slice_get self.now 0) ps) }
    {
        match self.place.next {
            Some(token) => items_of(self.place.bytes, token),
            None => None,
        }
    }

    fn name(&self) -> Option<u32>
        ensures { result ≡ reference_in (slice_get self.now 0) }
    {
        match self.place.next {
            Some(token) => name_of(token.kind),
            None => None,
        }
    }

    fn name_or_none(&self) -> Option<Option<u32>>
        ensures { result ≡ reference_or_none_in (slice_get self.now 0) }
    {
        match self.place.next {
            Some(token) => name_or_none_of(token.kind),
            None => None,
        }
    }

    fn number_text(&self) -> Option<&'a [u8]>
        ensures { option_copied result ≡ number_in (slice_get self.now 0) }
    {
        match self.place.next {
            Some(token) => number_in(token.kind, &self.place.bytes[token.start..token.end]),
            None => None,
        }
    }

    fn integer_text(&self) -> Option<&'a [u8]>
        ensures { option_copied result ≡ integer_in (slice_get self.now 0) }
    {
        match self.place.next {
            Some(token) => integer_in(token.kind, &self.place.bytes[token.start..token.end]),
            None => None,
        }
    }
}

/// The typed parameter that begins with this token, if one does.
fn typed_of<'a>(bytes: &'a [u8], first: Token) -> Option<Typed<'a>>
    requires { (ps : List Param) × StandsAt bytes.now first ps }
    ensures some { (ps : List Param) → StandsAt bytes.now first ps
        → IfSome result (λ t. IsTyped (slice_get ps 0) t.keyword.now t.inner) }
    ensures none { (ps qs : List Param) (name : List ℕ) → StandsAt bytes.now first ps
        → result ≡ None → ¬ IsTyped (slice_get ps 0) name qs }
{
    if is_keyword(first.kind) {
        let inner = argument(bytes, first);
        Some(Typed {
            keyword: &bytes[first.start..first.end],
            inner,
        })
    } else {
        None
    }
}

/// A cursor before the parameter in the parentheses of this keyword.
fn argument<'a>(bytes: &'a [u8], keyword: Token) -> Cursor<'a>
    requires keyword { IsTrue (is_keyword_of keyword.kind) }
    requires stands { (ps : List Param) × StandsAt bytes.now keyword ps }
    ensures { (ps : List Param) → StandsAt bytes.now keyword ps
        → IsTyped (slice_get ps 0) (slice_range bytes.now keyword.start keyword.end) result }
{
    let mut lexer = Lexer::at(bytes, keyword.end);
    let opens = next(&mut lexer);
    inside(bytes, opens)
}

fn enumeration_of<'a>(kind: Kind, text: &'a [u8]) -> Option<&'a [u8]>
    requires { kind ≡ Kind.Enumeration → 2 ≤ length text.now }
    ensures { option_copied result ≡ enumeration_text kind text.now }
{
    match kind {
        Kind::Enumeration => Some(&text[1..text.len() - 1]),
        _ => None,
    }
}

/// The string that this token is, if it is one.
fn string_of(alloc: Global, bytes: &[u8], first: Token) -> Result<Option<Text>, AllocError>
    requires { (ps : List Param) × StandsAt bytes.now first ps }
    ensures { (ps : List Param) → StandsAt bytes.now first ps
        → IfOk result (λ value. value ≡ string_in (slice_get ps 0)) }
{
    if !is_string(first.kind) {
        return Ok(None);
    }
    let read = value(alloc, bytes, first)?;
    Ok(text_of(read))
}

fn is_dollar(kind: Kind) -> bool
    ensures { result ≡ is_dollar_of kind }
{
    matches!(kind, Kind::Mark(Mark::Dollar))
}

fn is_string(kind: Kind) -> bool
    ensures { result ≡ is_string_of kind }
{
    matches!(kind, Kind::Str)
}

fn text_of(read: Param) -> Option<Text>
    ensures { result ≡ string_in (Some read) }
{
    match read {
        Param::Str(text) => Some(text),
        _ => None,
    }
}

/// The parameters of the list that begins with this token, if one does.
fn items_of<'a>(bytes: &'a [u8], first: Token) -> Option<Cursor<'a>>
    requires { (ps : List Param) × StandsAt bytes.now first ps }
    ensures some { (ps : List Param) → StandsAt bytes.now first ps
        → IfSome result (IsList (slice_get ps 0)) }
    ensures none { (ps qs : List Param) → StandsAt bytes.now first ps → result ≡ None
        → ¬ IsList (slice_get ps 0) qs }
{
    if is_open(first.kind) {
        Some(inside(bytes, first))
    } else {
        None
    }
}

fn name_of(kind: Kind) -> Option<u32>
    ensures { result ≡ name_of kind }
{
    match kind {
        Kind::Name(number) => Some(number),
        _ => None,
    }
}

fn name_or_none_of(kind: Kind) -> Option<Option<u32>>
    ensures { result ≡ name_or_none_of kind }
{
    match kind {
        Kind::Name(number) => Some(Some(number)),
        Kind::Mark(Mark::Dollar) => Some(None),
        _ => None,
    }
}

fn number_in<'a>(kind: Kind, text: &'a [u8]) -> Option<&'a [u8]>
    ensures { option_copied result ≡ number_text kind text.now }
{
    match kind {
        Kind::Integer | Kind::Real => Some(text),
        _ => None,
    }
}

fn integer_in<'a>(kind: Kind, text: &'a [u8]) -> Option<&'a [u8]>
    ensures { option_copied result ≡ integer_text kind text.now }
{
    match kind {
        Kind::Integer => Some(text),
        _ => None,
    }
}
