//! The positions at which the products that are present in a gap are entered and left.

ghost use Rattle.std.specs.Prelude.{◌≡◌, ◌∷◌, ◌++◌, IfOk, OnOk};
ghost use Rattle.std.specs.Option.{option_copied};
ghost use Rattle.std.specs.Ordering.{int_cmp, is_eq};
ghost use Rattle.sb_frame.specs.Rising.{IsRisingOf};
ghost use Rattle.sb_walk.specs.Ways.{normal_of};
ghost use Rattle.sb_walk.specs.Behind.{ends_of, ends_at, space_ends, element_ends, prism_ends};

use crate::way::Way;
use sb_model::{Element, Model, Prism, Space};
use std::alloc::{AllocError, Global};
use std::cmp::Ordering;

/// The positions along a way at which these products are entered and left, and one more, that of the
/// ground, rising, each once.
pub(crate) fn positions(
    alloc: Global,
    model: &Model,
    present: &[u32],
    way: Way,
    ground: i32,
) -> Result<Vec<i32>, AllocError>
    ensures { IfOk result (λ list. IsRisingOf int_cmp (ground ∷ ends_of model.now (normal_of way) present.now) list.items) }
{
    let list = all_positions(alloc, model, present, way, ground)?;
    Ok(each_once(list))
}

/// The same in the order of the numbers.
fn all_positions(
    alloc: Global,
    model: &Model,
    present: &[u32],
    way: Way,
    ground: i32,
) -> Result<Vec<i32>, AllocError>
    ensures { IfOk result (λ list. list.items ≡ ground ∷ ends_of model.now (normal_of way) present.now) }
{
    let mut list = Vec::new(alloc);
    list.push(ground)?;
    let mut rest = present;
    'numbers: while let Some((number, others)) = rest.split_first() {
        append_ends(&mut list, model, *number, way)?;
        rest = others;
    }
    Ok(list)
}

/// Appends where the product with this number is entered and left.
fn append_ends(list: &mut Vec<i32>, model: &Model, number: u32, way: Way) -> Result<(), AllocError>
    ensures { OnOk result (list.new.items ≡ list.old.items ++ ends_at model.now (normal_of way) number) }
{
    append_space(list, model.space(number), way)?;
    append_element(list, model.element(number), way)
}

fn append_space(list: &mut Vec<i32>, space: Option<&Space>, way: Way) -> Result<(), AllocError>
    ensures { OnOk result (list.new.items ≡ list.old.items ++ space_ends (normal_of way) (option_copied space.entry)) }
{
    match space {
        Some(space) => append_prism(list, &space.prism, way),
        None => Ok(()),
    }
}

fn append_element(
    list: &mut Vec<i32>,
    element: Option<&Element>,
    way: Way,
) -> Result<(), AllocError>
    ensures { OnOk result (list.new.items ≡ list.old.items ++ element_ends (normal_of way) (option_copied element.entry)) }
{
    match element {
        Some(element) => append_prism(list, &element.prism, way),
        None => Ok(()),
    }
}

fn append_prism(list: &mut Vec<i32>, prism: &Prism, way: Way) -> Result<(), AllocError>
    ensures { OnOk result (list.new.items ≡ list.old.items ++ prism_ends (normal_of way) prism.now) }
{
    list.push(way.entry(prism))?;
    list.push(way.exit(prism))?;
    Ok(())
}

/// The positions rising, each once.
fn each_once(list: Vec<i32>) -> Vec<i32>
    ensures { IsRisingOf int_cmp list.items result.items }
{
    let mut list = list;
    list.sort_unstable();
    list.dedup_by(|a, b| are_same(*a, *b));
    list
}

fn are_same(a: i32, b: i32) -> bool
    ensures { result ≡ is_eq (int_cmp a b) }
{
    match a.cmp(&b) {
        Ordering::Equal => true,
        Ordering::Less | Ordering::Greater => false,
    }
}
