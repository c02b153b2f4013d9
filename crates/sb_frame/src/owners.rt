//! The spaces, elements and openings of a model in order of number.

ghost use Rattle.std.specs.Prelude.{◌≡◌, [], IfSome, IfNone};
ghost use Rattle.sb_model.specs.PlanEdges.{in_order, products_of};
ghost use Rattle.sb_frame.specs.Owners.{kind_of as first_kind, is_up_to as is_least, head_of};
ghost use Rattle.sb_frame.specs.Owners.{products_in, first_of, IsTaken};

use sb_model::{Element, Model, Opening, PointLists, Prism, Space};
use std::marker;

/// Which of the three lists a product stands in.
#[derive(Clone, Copy)]
enum Kind {
    Space,
    Element,
    Opening,
}

/// A space, an element or an opening: its number and its loops.
#[derive(Clone, Copy)]
pub(crate) struct Owner<'a> {
    pub(crate) number: u32,
    pub(crate) loops: &'a PointLists,
}

/// The products of a model that are still to be gone through, in each list by rising numbers.
#[derive(Drop)]
pub(crate) struct Queue<'a> {
    spaces: &'a [Space],
    elements: &'a [Element],
    openings: &'a [Opening],
}

impl<'a> marker::Model for Queue<'a> {
    ghost use Rattle.sb_frame.specs.Owners.{Queues, queues, AreRising};

    ghost Value = { Queues };

    ghost view = { λ q. queues q.spaces.now q.elements.now q.openings.now };

    ghost invariant = { λ q. AreRising (queues q.spaces.now q.elements.now q.openings.now) };
}

impl<'a> Queue<'a> {
    /// All products of a model.
    pub(crate) fn of(model: &'a Model) -> Queue<'a>
        ensures { in_order (products_in result) ≡ products_of model.now }
    {
        Queue {
            spaces: model.spaces().as_slice(),
            elements: model.elements().as_slice(),
            openings: model.openings().as_slice(),
        }
    }

    /// Takes out the product with the least number; `None` exactly where none is left.
    pub(crate) fn take_first(&mut self) -> Option<Owner<'a>>
        ensures none { IfNone result (products_in self.old ≡ []) }
        ensures some { IfSome result (λ o. IsTaken o self.old self.new) }
    {
        match self.first_kind() {
            Kind::Space => self.take_space(),
            Kind::Element => self.take_element(),
            Kind::Opening => self.take_opening(),
        }
    }

    /// The list that has the least number.
    fn first_kind(&self) -> Kind
        ensures { result ≡ first_of self.now }
    {
        kind_of(
            first_space(self.spaces),
            first_element(self.elements),
            first_opening(self.openings),
        )
    }

    fn take_space(&mut self) -> Option<Owner<'a>>
        requires { first_of self.old ≡ Kind.Space }
        ensures none { IfNone result (products_in self.old ≡ []) }
        ensures some { IfSome result (λ o. IsTaken o self.old self.new) }
    {
        match self.spaces.split_first() {
            None => None,
            Some((first, rest)) => {
                self.spaces = rest;
                Some(owner_of(first.number, &first.prism))
            }
        }
    }

    fn take_element(&mut self) -> Option<Owner<'a>>
        requires { first_of self.old ≡ Kind.Element }
        ensures none { IfNone result (products_in self.old ≡ []) }
        ensures some { IfSome result (λ o. IsTaken o self.old self.new) }
    {
        match self.elements.split_first() {
            None => None,
            Some((first, rest)) => {
                self.elements = rest;
                Some(owner_of(first.number, &first.prism))
            }
        }
    }

    fn take_opening(&mut self) -> Option<Owner<'a>>
        requires { first_of self.old ≡ Kind.Opening }
        ensures none { IfNone result (products_in self.old ≡ []) }
        ensures some { IfSome result (λ o. IsTaken o self.old self.new) }
    {
        match self.openings.split_first() {
            None => None,
            Some((first, rest)) => {
                self.openings = rest;
                Some(owner_of(first.number, &first.prism))
            }
        }
    }
}

/// The loops of a prism under the number of its product.
fn owner_of<'a>(number: u32, prism: &'a Prism) -> Owner<'a>
    ensures number { result.number ≡ number }
    ensures loops { result.loops.now ≡ prism.now.loops }
{
    Owner {
        number,
        loops: prism.loops().points(),
    }
}

/// Whether the first number is at most the second; what is not there comes last.
fn is_up_to(a: Option<u32>, b: Option<u32>) -> bool
    ensures { result ≡ is_least a b }
{
    match (a, b) {
        (Some(m), Some(n)) => m <= n,
        (Some(_), None) => true,
        (None, Some(_)) => false,
        (None, None) => true,
    }
}

/// Which list has the least number, by the first of each.
fn kind_of(space: Option<u32>, element: Option<u32>, opening: Option<u32>) -> Kind
    ensures { result ≡ first_kind space element opening }
{
    if is_up_to(space, element) && is_up_to(space, opening) {
        Kind::Space
    } else if is_up_to(element, opening) {
        Kind::Element
    } else {
        Kind::Opening
    }
}

fn first_space(spaces: &[Space]) -> Option<u32>
    ensures { result ≡ head_of (λ s. s.number) spaces.now }
{
    if spaces.is_empty() {
        return None;
    }
    Some(spaces[0].number)
}

fn first_element(elements: &[Element]) -> Option<u32>
    ensures { result ≡ head_of (λ e. e.number) elements.now }
{
    if elements.is_empty() {
        return None;
    }
    Some(elements[0].number)
}

fn first_opening(openings: &[Opening]) -> Option<u32>
    ensures { result ≡ head_of (λ o. o.number) openings.now }
{
    if openings.is_empty() {
        return None;
    }
    Some(openings[0].number)
}
