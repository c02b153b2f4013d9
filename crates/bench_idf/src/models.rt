//! The models whose boundaries are written.

ghost use Rattle.std.specs.Prelude.{IfOk, IsTrue};
ghost use Rattle.std.specs.List.{list_all};
ghost use Rattle.sb_model.specs.Building.{is_layering};

use crate::kind::{Kind, elements_of, shape_of};
use sb_fraction::Unit;
use sb_model::{Element, Elements, Fillings, Layering, Model, Openings, Text};
use sb_texts::{append_padded, append_repeated};
use std::alloc::{AllocError, Global};
use tests_lists::{room, spaces_of};

/// The spaces #1 to #512 of one shape, and elements from #1001 on, each of one material.
pub fn model(alloc: Global, kind: Kind, count: u32) -> Result<Model, AllocError> {
    let made = Model::new(
        alloc,
        Unit::Millimetre,
        0,
        1000,
        spaces_of(alloc, shape_of(kind), 512, 22)?,
        elements(alloc, kind, elements_of(kind, count))?,
        Openings::new(alloc),
        Fillings::new(alloc),
    );
    match made {
        Ok(model) => Ok(model),
        Err(_) => Err(AllocError),
    }
}

fn elements(alloc: Global, kind: Kind, count: u32) -> Result<Elements, AllocError>
    ensures { IfOk result (λ list. IsTrue (list_all (λ e. is_layering e.layering) list)) }
{
    let mut list = Elements::new(alloc);
    'indices: for index in 0..count {
        list.push(element(alloc, kind, index)?)?;
    }
    Ok(list)
}

/// An element of one material.
fn element(alloc: Global, kind: Kind, index: u32) -> Result<Element, AllocError>
    ensures { IfOk result (λ e. IsTrue (is_layering e.layering)) }
{
    let name = name(alloc, kind, index)?;
    Ok(Element {
        number: index.saturating_add(1001),
        prism: room(alloc)?,
        layering: Layering::Single(name),
    })
}

/// The name of its material: its index amid so many letters.
fn name(alloc: Global, kind: Kind, index: u32) -> Result<Text, AllocError> {
    let (before, behind) = letters_of(kind);
    let mut name = Text::new(alloc);
    append_repeated(&mut name, b'M', before)?;
    append_padded(&mut name, u64::from(index), 8)?;
    append_repeated(&mut name, b'M', behind)?;
    Ok(name)
}

/// How many letters stand before and behind the index.
fn letters_of(kind: Kind) -> (usize, usize) {
    match kind {
        Kind::Long => (16_000_000, 0),
        Kind::Apart => (0, 900),
        Kind::Alike => (900, 0),
        _ => (8, 0),
    }
}
