//! The numbers of products, and the first that is bad.

ghost use Rattle.std.specs.Prelude.{◌≡◌, ◌||◌, not, ℕ, ℤ, IfOk};
ghost use Rattle.std.specs.List.Sorted.{IsPermutation};
ghost use Rattle.sb_model.specs.Building.{building, first_bad, first_wrong, or_else};
ghost use Rattle.sb_fraction.specs.declared.unit.Unit as unit;
ghost use Rattle.sb_model.specs.Numbering.{has as has_item, is_taken as is_in_one, HasNumbersOf};

use crate::products::{Elements, Filling, Fillings, Opening, Openings, Spaces};
use std::alloc::{AllocError, Global};
use std::marker::Model;

/// The numbers of a list of products, in order. A number is looked up by halving, whatever the
/// order of the products is.
#[derive(Drop)]
pub(crate) struct Numbers {
    rising: Vec<u32>,
}

impl Model for Numbers {
    ghost use Rattle.std.specs.Prelude.{ℕ, List};
    ghost use Rattle.sb_model.specs.Numbering.{Rises};

    ghost Value = { List ℕ };

    ghost view = { λ n. n.rising.items };

    ghost invariant = { λ n. Rises n.rising.items };
}

impl Numbers {
    /// These numbers, put in order.
    pub(crate) fn of(mut numbers: Vec<u32>) -> Numbers
        ensures { IsPermutation numbers.items result }
    {
        numbers.sort_unstable();
        Numbers { rising: numbers }
    }

    /// Whether the number is one of them.
    pub(crate) fn has(&self, n: u32) -> bool
        ensures { result ≡ has_item self.now n }
    {
        self.rising.binary_search(&n).is_ok()
    }
}

/// The numbers of the spaces.
fn space_numbers(alloc: Global, spaces: &Spaces) -> Result<Numbers, AllocError>
    ensures { IfOk result (HasNumbersOf (λ s. s.number) spaces.now) }
{
    let mut numbers = Vec::with_capacity(alloc, spaces.len())?;
    'spaces: for space in spaces.as_slice() {
        numbers.push(space.number)?;
    }
    Ok(Numbers::of(numbers))
}

/// The numbers of the elements.
fn element_numbers(alloc: Global, elements: &Elements) -> Result<Numbers, AllocError>
    ensures { IfOk result (HasNumbersOf (λ e. e.number) elements.now) }
{
    let mut numbers = Vec::with_capacity(alloc, elements.len())?;
    'elements: for element in elements.as_slice() {
        numbers.push(element.number)?;
    }
    Ok(Numbers::of(numbers))
}

/// The numbers of the openings.
fn opening_numbers(alloc: Global, openings: &Openings) -> Result<Numbers, AllocError>
    ensures { IfOk result (HasNumbersOf (λ o. o.number) openings.now) }
{
    let mut numbers = Vec::with_capacity(alloc, openings.len())?;
    'openings: for opening in openings.as_slice() {
        numbers.push(opening.number)?;
    }
    Ok(Numbers::of(numbers))
}

/// The numbers of the fillings.
fn filling_numbers(alloc: Global, fillings: &Fillings) -> Result<Numbers, AllocError>
    ensures { IfOk result (HasNumbersOf (λ f. f.number) fillings.now) }
{
    let mut numbers = Vec::with_capacity(alloc, fillings.len())?;
    'fillings: for filling in fillings.as_slice() {
        numbers.push(filling.number)?;
    }
    Ok(Numbers::of(numbers))
}

/// Whether the number stands in one of three lists.
fn is_taken(n: u32, first: &Numbers, second: &Numbers, third: &Numbers) -> bool
    ensures { result ≡ is_in_one first.now second.now third.now n }
{
    first.has(n) || second.has(n) || third.has(n)
}

/// The numbers of the products of each kind.
#[derive(Drop)]
struct AllNumbers {
    spaces: Numbers,
    elements: Numbers,
    openings: Numbers,
    fillings: Numbers,
}

/// The first space whose number is not above the one before it, or stands in another list.
fn first_bad_space(spaces: &Spaces, all: &AllNumbers) -> Option<u32>
    ensures { result ≡ first_wrong (λ s. s.number) (λ s. is_in_one all.now.elements all.now.openings all.now.fillings s.number) 0 spaces.now }
{
    let mut before = 0;
    'spaces: for space in spaces.as_slice() {
        if space.number <= before
            || is_taken(space.number, &all.elements, &all.openings, &all.fillings)
        {
            return Some(space.number);
        }
        before = space.number;
    }
    None
}

/// The first element whose number is not above the one before it, or stands in another list.
fn first_bad_element(elements: &Elements, all: &AllNumbers) -> Option<u32>
    ensures { result ≡ first_wrong (λ e. e.number) (λ e. is_in_one all.now.spaces all.now.openings all.now.fillings e.number) 0 elements.now }
{
    let mut before = 0;
    'elements: for element in elements.as_slice() {
        if element.number <= before
            || is_taken(element.number, &all.spaces, &all.openings, &all.fillings)
        {
            return Some(element.number);
        }
        before = element.number;
    }
    None
}

/// Whether the number of the opening stands in another list, or it names no element.
fn is_wrong_opening(opening: &Opening, all: &AllNumbers) -> bool
    ensures { result ≡ (is_in_one all.now.spaces all.now.elements all.now.fillings opening.now.number || not (has_item all.now.elements opening.now.element)) }
{
    is_taken(opening.number, &all.spaces, &all.elements, &all.fillings)
        || !all.elements.has(opening.element)
}

/// The first opening whose number is not above the one before it, or stands in another list, or that names no element.
fn first_bad_opening(openings: &Openings, all: &AllNumbers) -> Option<u32>
    ensures { result ≡ first_wrong (λ o. o.number) (λ o. is_in_one all.now.spaces all.now.elements all.now.fillings o.number || not (has_item all.now.elements o.element)) 0 openings.now }
{
    let mut before = 0;
    'openings: for opening in openings.as_slice() {
        if opening.number <= before || is_wrong_opening(opening, all) {
            return Some(opening.number);
        }
        before = opening.number;
    }
    None
}

/// Whether the number of the filling stands in another list, or it names no opening.
fn is_wrong_filling(filling: &Filling, all: &AllNumbers) -> bool
    ensures { result ≡ (is_in_one all.now.spaces all.now.elements all.now.openings filling.now.number || not (has_item all.now.openings filling.now.opening)) }
{
    is_taken(filling.number, &all.spaces, &all.elements, &all.openings)
        || !all.openings.has(filling.opening)
}

/// The first filling whose number is not above the one before it, or stands in another list, or that names no opening.
fn first_bad_filling(fillings: &Fillings, all: &AllNumbers) -> Option<u32>
    ensures { result ≡ first_wrong (λ f. f.number) (λ f. is_in_one all.now.spaces all.now.elements all.now.openings f.number || not (has_item all.now.openings f.opening)) 0 fillings.now }
{
    let mut before = 0;
    'fillings: for filling in fillings.as_slice() {
        if filling.number <= before || is_wrong_filling(filling, all) {
            return Some(filling.number);
        }
        before = filling.number;
    }
    None
}

/// The numbers of all products.
fn numbers_of(
    alloc: Global,
    spaces: &Spaces,
    elements: &Elements,
    openings: &Openings,
    fillings: &Fillings,
) -> Result<AllNumbers, AllocError>
    ensures spaces_are { IfOk result (λ all. HasNumbersOf (λ s. s.number) spaces.now all.spaces) }
    ensures elements_are { IfOk result (λ all. HasNumbersOf (λ e. e.number) elements.now all.elements) }
    ensures openings_are { IfOk result (λ all. HasNumbersOf (λ o. o.number) openings.now all.openings) }
    ensures fillings_are { IfOk result (λ all. HasNumbersOf (λ f. f.number) fillings.now all.fillings) }
{
    Ok(AllNumbers {
        spaces: space_numbers(alloc, spaces)?,
        elements: element_numbers(alloc, elements)?,
        openings: opening_numbers(alloc, openings)?,
        fillings: filling_numbers(alloc, fillings)?,
    })
}

/// The first of two numbers that is there.
fn first_there(first: Option<u32>, second: Option<u32>) -> Option<u32>
    ensures { result ≡ or_else first second }
{
    match first {
        Some(n) => Some(n),
        None => second,
    }
}

/// The first bad number of the products: spaces are looked at first, then elements, openings and
/// fillings.
pub(crate) fn first_bad_number(
    alloc: Global,
    spaces: &Spaces,
    elements: &Elements,
    openings: &Openings,
    fillings: &Fillings,
) -> Result<Option<u32>, AllocError>
    ensures { IfOk result (λ n. (unit : unit.Unit) (ground_height : ℤ) (reach : ℕ) → n ≡ first_bad (building unit ground_height reach spaces.now elements.now openings.now fillings.now)) }
{
    let all = numbers_of(alloc, spaces, elements, openings, fillings)?;
    let below = first_there(
        first_bad_opening(openings, &all),
        first_bad_filling(fillings, &all),
    );
    Ok(first_there(
        first_bad_space(spaces, &all),
        first_there(first_bad_element(elements, &all), below),
    ))
}
