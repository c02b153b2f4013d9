// Lists whose items are all of one form.
ghost use Rattle.std.specs.Prelude.{◌≡◌, List, Option, drop, slice_get, option_copied, IfOk, OnOk};
ghost use Rattle.sb_step.specs.declared.parameters.param.Param.{Param};
ghost use Rattle.sb_step.specs.Cursors.Forms.{reference_in, number_in, integer_in};
ghost use Rattle.sb_schema.specs.Forms.{items_in, each, list_of, pair_in, typed_list_in, only_if, are_two, are_two_or_three};

use sb_list::{Listed, Text};
use sb_step::Cursor;
use std::alloc::{AllocError, Global};

/// References in order.
pub type References = Listed<u32>;

/// Texts in order.
pub type Texts = Listed<Text>;

/// Lists of two texts, in order.
pub type Pairs = Listed<Texts>;

/// Typed lists in order.
pub type TypedLists = Listed<TypedList>;

/// A keyword with a list in parentheses.
#[derive(Drop)]
pub struct TypedList {
    /// The keyword as it stands.
    pub keyword: Text,
    /// The items of the list as they stand.
    pub list: Texts,
}

/// A value of the items of a list, by the form `F`.
pub(crate) trait Item<F>: Sized + Drop {
    ghost form: { Option Param → Option Self };

    /// The value of the first parameter, if it is of the form. The cursor then stands behind it.
    fn first(alloc: Global, items: &mut Cursor<'_>) -> Result<Option<Self>, AllocError>
        ensures value { IfOk result (λ value. value ≡ form (slice_get items.old 0)) }
        ensures left { OnOk result (items.new ≡ drop 1 items.old) };
}

/// The form of a reference.
pub(crate) struct Reference;

/// The form of a number.
pub(crate) struct Number;

/// The form of an integer.
pub(crate) struct Integer;

/// The form of a list of two numbers.
pub(crate) struct Pair;

/// The form of a typed list of integers.
pub(crate) struct TypedIntegers;

impl Item<Reference> for u32 {
    ghost form = { reference_in };

    fn first(_alloc: Global, items: &mut Cursor<'_>) -> Result<Option<Self>, AllocError> {
        Ok(items.reference())
    }
}

impl Item<Number> for Text {
    ghost form = { number_in };

    fn first(alloc: Global, items: &mut Cursor<'_>) -> Result<Option<Self>, AllocError> {
        let text = items.number();
        kept(alloc, text)
    }
}

impl Item<Integer> for Text {
    ghost form = { integer_in };

    fn first(alloc: Global, items: &mut Cursor<'_>) -> Result<Option<Self>, AllocError> {
        let text = items.integer();
        kept(alloc, text)
    }
}

impl Item<Pair> for Texts {
    ghost form = { pair_in };

    fn first(alloc: Global, items: &mut Cursor<'_>) -> Result<Option<Self>, AllocError> {
        let list = list::<Number, Text>(alloc, items)?;
        Ok(two(list))
    }
}

impl Item<TypedIntegers> for TypedList {
    ghost form = { typed_list_in };

    fn first(alloc: Global, items: &mut Cursor<'_>) -> Result<Option<Self>, AllocError> {
        let Some(typed) = items.typed() else {
            return Ok(None);
        };
        let mut inner = typed.inner;
        let Some(list) = list::<Integer, Text>(alloc, &mut inner)? else {
            return Ok(None);
        };
        let keyword = Text::of(alloc, typed.keyword)?;
        Ok(Some(TypedList { keyword, list }))
    }
}

/// The values of the items of the next parameter, if it is a list of this form.
pub(crate) fn list<F, T: Item<F>>(
    alloc: Global,
    left: &mut Cursor<'_>,
) -> Result<Option<Listed<T>>, AllocError>
    ensures value { IfOk result (λ list. list ≡ list_of T.form (slice_get left.old 0)) }
    ensures left { OnOk result (left.new ≡ drop 1 left.old) }
{
    match items(left) {
        Some(items) => all::<F, T>(alloc, items),
        None => Ok(None),
    }
}

/// The items of the next parameter, if it is a list. The cursor then stands behind it.
pub(crate) fn items<'a>(left: &mut Cursor<'a>) -> Option<Cursor<'a>>
    ensures value { result ≡ items_in (slice_get left.old 0) }
    ensures left { left.new ≡ drop 1 left.old }
{
    left.list()
}

/// The values of the items, if all are of the form.
fn all<F, T: Item<F>>(
    alloc: Global,
    first_items: Cursor<'_>,
) -> Result<Option<Listed<T>>, AllocError>
    ensures { IfOk result (λ list. list ≡ each T.form first_items.entry) }
{
    let mut items = first_items;
    let mut list = Listed::new(alloc);
    'items: while !items.is_done() {
        match T::first(alloc, &mut items)? {
            Some(item) => list.push(item)?,
            None => return Ok(None),
        }
    }
    Ok(Some(list))
}

/// The list, if it has two items.
fn two(list: Option<Texts>) -> Option<Texts>
    ensures { result ≡ only_if are_two list }
{
    match list {
        Some(list) if list.len() == 2 => Some(list),
        _ => None,
    }
}

/// The list, if it has two or three items.
pub(crate) fn two_or_three(list: Option<Texts>) -> Option<Texts>
    ensures { result ≡ only_if are_two_or_three list }
{
    match list {
        Some(list) if list.len() == 2 || list.len() == 3 => Some(list),
        _ => None,
    }
}

/// A text of its own.
pub(crate) fn kept(alloc: Global, text: Option<&[u8]>) -> Result<Option<Text>, AllocError>
    ensures { IfOk result (λ kept. kept ≡ option_copied text.entry) }
{
    match text {
        Some(text) => Ok(Some(Text::of(alloc, text)?)),
        None => Ok(None),
    }
}
