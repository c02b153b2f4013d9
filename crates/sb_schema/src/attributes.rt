// How an instance is begun and ended: its keyword is asked for, and its attributes are counted.
ghost use Rattle.std.specs.Prelude.{◌≡◌, List, map, drop, length, nat_le, ok_or, option_copied, OnOk};
ghost use Rattle.std.specs.List.{list_any};
ghost use Rattle.std.specs.Str.{bytes_eq};
ghost use Rattle.sb_schema.specs.Forms.Form.{reference, reference_or_none, number, string, string_or_none, enumeration, references, coordinates, pairs, typed_lists_or_none};
ghost use Rattle.sb_schema.specs.Table as spec;
ghost use Rattle.sb_schema.specs.Views.Taking.{with_memory, without_memory};
ghost use Rattle.sb_schema.specs.Steps.{Begins, TakesNext, behind};

use crate::error::ViewError;
use crate::lent::{LentPairs, LentReferences};
use crate::lists::{
    Number, Pair, Pairs, Reference, References, Texts, TypedIntegers, TypedList, TypedLists, items,
    kept, list, two_or_three,
};
use sb_list::Text;
use sb_step::{Cursor, StepFile, one_list_of_parameters};
use std::alloc::Global;

/// The attributes of an instance that are left.
#[derive(Drop)]
pub(crate) struct Attributes<'a> {
    pub(crate) left: Cursor<'a>,
    pub(crate) number: u32,
}

/// The attributes of the instance of this number, whose keyword is one of these.
pub(crate) fn begin<'a>(
    file: &StepFile<'a>,
    number: u32,
    keywords: &[&[u8]],
) -> Result<Attributes<'a>, ViewError>
    ensures { Begins (map (λ k. k.now) keywords.now) file.now number result }
{
    one_list_of_parameters();
    let Some(instance) = file.instance(number) else {
        return Err(ViewError::Missing(number));
    };
    if is_one_of(instance.keyword, keywords) {
        let left = instance.parameters;
        Ok(Attributes { left, number })
    } else {
        Err(ViewError::Other(number))
    }
}

/// Each call named for a form reads the next attribute by that form, or answers `Fields`.
impl<'a> Attributes<'a> {
    pub(crate) fn reference(&mut self) -> Result<u32, ViewError>
        ensures value { TakesNext without_memory reference self.old result }
        ensures left { self.new ≡ behind 1 self.old }
    {
        self.left.reference().ok_or(ViewError::Fields(self.number))
    }

    pub(crate) fn reference_or_none(&mut self) -> Result<Option<u32>, ViewError>
        ensures value { TakesNext without_memory reference_or_none self.old result }
        ensures left { self.new ≡ behind 1 self.old }
    {
        self.left
            .reference_or_none()
            .ok_or(ViewError::Fields(self.number))
    }

    pub(crate) fn number(&mut self, alloc: Global) -> Result<Text, ViewError>
        ensures value { TakesNext with_memory number self.old result }
        ensures left { self.new ≡ behind 1 self.old }
    {
        let text = self.left.number();
        kept(alloc, text)?.ok_or(ViewError::Fields(self.number))
    }

    pub(crate) fn enumeration(&mut self, alloc: Global) -> Result<Text, ViewError>
        ensures value { TakesNext with_memory enumeration self.old result }
        ensures left { self.new ≡ behind 1 self.old }
    {
        let text = self.left.enumeration();
        kept(alloc, text)?.ok_or(ViewError::Fields(self.number))
    }

    pub(crate) fn string(&mut self, alloc: Global) -> Result<Text, ViewError>
        ensures value { TakesNext with_memory string self.old result }
        ensures left { OnOk result (self.new ≡ behind 1 self.old) }
    {
        let text = self.left.string(alloc)?;
        text.ok_or(ViewError::Fields(self.number))
    }

    pub(crate) fn string_or_none(&mut self, alloc: Global) -> Result<Option<Text>, ViewError>
        ensures value { TakesNext with_memory string_or_none self.old result }
        ensures left { OnOk result (self.new ≡ behind 1 self.old) }
    {
        if self.left.is_null() {
            self.left.skip();
            Ok(None)
        } else {
            Ok(Some(self.string(alloc)?))
        }
    }

    pub(crate) fn references(&mut self, alloc: Global) -> Result<References, ViewError>
        ensures value { TakesNext with_memory references self.old result }
        ensures left { OnOk result (self.new ≡ behind 1 self.old) }
    {
        let list = list::<Reference, u32>(alloc, &mut self.left)?;
        list.ok_or(ViewError::Fields(self.number))
    }

    pub(crate) fn coordinates(&mut self, alloc: Global) -> Result<Texts, ViewError>
        ensures value { TakesNext with_memory coordinates self.old result }
        ensures left { OnOk result (self.new ≡ behind 1 self.old) }
    {
        let list = list::<Number, Text>(alloc, &mut self.left)?;
        two_or_three(list).ok_or(ViewError::Fields(self.number))
    }

    pub(crate) fn pairs(&mut self, alloc: Global) -> Result<Pairs, ViewError>
        ensures value { TakesNext with_memory pairs self.old result }
        ensures left { OnOk result (self.new ≡ behind 1 self.old) }
    {
        let list = list::<Pair, Texts>(alloc, &mut self.left)?;
        list.ok_or(ViewError::Fields(self.number))
    }

    pub(crate) fn typed_lists_or_none(
        &mut self,
        alloc: Global,
    ) -> Result<Option<TypedLists>, ViewError>
        ensures value { TakesNext with_memory typed_lists_or_none self.old result }
        ensures left { OnOk result (self.new ≡ behind 1 self.old) }
    {
        if self.left.is_null() {
            self.left.skip();
            return Ok(None);
        }
        match list::<TypedIntegers, TypedList>(alloc, &mut self.left)? {
            Some(list) => Ok(Some(list)),
            None => Err(ViewError::Fields(self.number)),
        }
    }

    pub(crate) fn lent_references(&mut self) -> Result<LentReferences<'a>, ViewError>
        ensures value { TakesNext without_memory references self.old result }
        ensures left { self.new ≡ behind 1 self.old }
    {
        match items(&mut self.left) {
            Some(items) => LentReferences::of(items).ok_or(ViewError::Fields(self.number)),
            None => Err(ViewError::Fields(self.number)),
        }
    }

    pub(crate) fn lent_pairs(&mut self) -> Result<LentPairs<'a>, ViewError>
        ensures value { TakesNext without_memory pairs self.old result }
        ensures left { self.new ≡ behind 1 self.old }
    {
        match items(&mut self.left) {
            Some(items) => LentPairs::of(items).ok_or(ViewError::Fields(self.number)),
            None => Err(ViewError::Fields(self.number)),
        }
    }

    /// Passes over so many attributes that are not read.
    pub(crate) fn skip(&mut self, count: usize)
        ensures { self.new ≡ behind count self.old }
    {
        pass(&mut self.left, count);
    }

    /// So many attributes are left, which are not read.
    pub(crate) fn has(&mut self, count: usize) -> Result<(), ViewError>
        ensures { result ≡ ok_or (spec.has count self.old.left) (ViewError.Fields self.old.number) }
    {
        if are_left(&mut self.left, count) {
            Ok(())
        } else {
            Err(ViewError::Fields(self.number))
        }
    }
}

/// Passes over so many parameters, or over those that are left.
fn pass(left: &mut Cursor<'_>, count: usize)
    ensures { left.new ≡ drop count left.old }
{
    'parameters: for _passed in 0..count {
        left.skip();
    }
}

/// Whether so many parameters are left.
fn are_left(left: &mut Cursor<'_>, count: usize) -> bool
    ensures { result ≡ nat_le count (length left.old) }
{
    'parameters: for _passed in 0..count {
        if left.is_done() {
            return false;
        }
        left.skip();
    }
    true
}

fn is_one_of(keyword: Option<&[u8]>, keywords: &[&[u8]]) -> bool
    ensures { result ≡ spec.is_one_of (map (λ k. k.now) keywords.now) (option_copied keyword.entry) }
{
    match keyword {
        Some(keyword) => stands_in(keyword, keywords),
        None => false,
    }
}

fn stands_in(keyword: &[u8], keywords: &[&[u8]]) -> bool
    ensures { result ≡ list_any (λ k. bytes_eq k keyword.now) (map (λ k. k.now) keywords.now) }
{
    let mut found = false;
    for one in keywords {
        found |= *one == keyword;
    }
    found
}
