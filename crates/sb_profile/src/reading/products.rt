// Products with shapes.
ghost use Rattle.std.specs.Prelude.{◌≡◌, ℕ, nat_eq, ◌||◌, if◌then◌else◌, [], ◌∷◌, ◌++◌, filter, filter_map, is_some, option_map, option_to_list, IfOk, OnOk};
ghost use Rattle.std.specs.List.{list_any};
ghost use Rattle.std.specs.Ordering.{nat_cmp};
ghost use Rattle.std.specs.BTreeMap.{get};
ghost use Rattle.std.specs.BTreeSet.{contains};
ghost use Rattle.sb_profile.specs.Entities.Entity.{space, product};
ghost use Rattle.sb_profile.specs.Contents.{Contents, Says, is_unfit};
ghost use Rattle.sb_profile.specs.Lowest.{lower_if};
ghost use Rattle.sb_profile.specs.Steps.Links.{lowered};
ghost use Rattle.sb_profile.specs.Steps.Shapes as spec;

use crate::reading::links::Links;
use crate::reading::lowest::lower;
use crate::sights::{Seen, Sight, look};
use sb_schema::{Product, Space};
use sb_step::StepFile;
use std::alloc::{AllocError, Global};
use std::collections::BTreeSet;

/// A product with a shape.
#[derive(Clone, Copy)]
pub struct Shaped {
    pub number: u32,
    /// Where it is placed (attribute 6).
    pub placement: Option<u32>,
    /// Its shape (attribute 7).
    pub shape: u32,
}

/// Those of these instances that are spaces with shapes. The lowest that is not of its row is kept.
pub(crate) fn spaces(
    alloc: Global,
    file: &StepFile<'_>,
    numbers: &[u32],
    unfit: &mut Option<u32>,
) -> Result<Vec<Shaped>, AllocError>
    ensures products { IfOk result (λ products. (c : Contents) → Says file.now c
        → products.items ≡ filter_map (spec.shaped_space c) numbers.now) }
    ensures unfit { OnOk result ((c : Contents) → Says file.now c → unfit.new
        ≡ lowered unfit.old (filter (is_unfit c space) numbers.now)) }
{
    let mut products = Vec::new(alloc);
    'numbers: for number in numbers {
        add_space(alloc, file, *number, &mut products, unfit)?;
    }
    Ok(products)
}

fn add_space(
    alloc: Global,
    file: &StepFile<'_>,
    number: u32,
    products: &mut Vec<Shaped>,
    unfit: &mut Option<u32>,
) -> Result<(), AllocError>
    ensures products { OnOk result ((c : Contents) → Says file.now c → products.new.items
        ≡ products.old.items ++ option_to_list (spec.shaped_space c number)) }
    ensures unfit { OnOk result ((c : Contents) → Says file.now c → unfit.new
        ≡ lower_if (is_unfit c space number) number unfit.old) }
{
    match look::<Space>(alloc, file, number)? {
        Sight::Of(view) => add(products, number, view.a6, view.a7),
        Sight::Unfit => {
            *unfit = lower(number, *unfit);
            Ok(())
        }
        _ => Ok(()),
    }
}

/// Those of these instances that are elements or openings with shapes.
pub(crate) fn products(
    alloc: Global,
    file: &StepFile<'_>,
    numbers: &[u32],
    unfit: &mut Option<u32>,
) -> Result<Vec<Shaped>, AllocError>
    ensures products { IfOk result (λ products. (c : Contents) → Says file.now c
        → products.items ≡ filter_map (spec.shaped_product c) numbers.now) }
    ensures unfit { OnOk result ((c : Contents) → Says file.now c → unfit.new
        ≡ lowered unfit.old (filter (is_unfit c product) numbers.now)) }
{
    let mut products = Vec::new(alloc);
    'numbers: for number in numbers {
        add_product(alloc, file, *number, &mut products, unfit)?;
    }
    Ok(products)
}

fn add_product(
    alloc: Global,
    file: &StepFile<'_>,
    number: u32,
    products: &mut Vec<Shaped>,
    unfit: &mut Option<u32>,
) -> Result<(), AllocError>
    ensures products { OnOk result ((c : Contents) → Says file.now c → products.new.items
        ≡ products.old.items ++ option_to_list (spec.shaped_product c number)) }
    ensures unfit { OnOk result ((c : Contents) → Says file.now c → unfit.new
        ≡ lower_if (is_unfit c product number) number unfit.old) }
{
    match look::<Product>(alloc, file, number)? {
        Sight::Of(view) => add(products, number, view.a6, view.a7),
        Sight::Unfit => {
            *unfit = lower(number, *unfit);
            Ok(())
        }
        _ => Ok(()),
    }
}

/// Appends the product, if it has a shape.
fn add(
    products: &mut Vec<Shaped>,
    number: u32,
    placement: Option<u32>,
    shape: Option<u32>,
) -> Result<(), AllocError>
    ensures { OnOk result (products.new.items ≡ products.old.items
        ++ option_to_list (option_map (spec.shaped number placement) shape)) }
{
    if let Some(shape) = shape {
        products.push(Shaped {
            number,
            placement,
            shape,
        })?;
    }
    Ok(())
}

/// Keeps the lowest of these instances that is not of its row.
pub(crate) fn unfit_among<'a, V: Seen<'a>>(
    alloc: Global,
    file: &StepFile<'a>,
    numbers: &[u32],
    unfit: &mut Option<u32>,
) -> Result<(), AllocError>
    ensures { OnOk result ((c : Contents) → Says file.now c → unfit.new
        ≡ lowered unfit.old (filter (is_unfit c V.entity) numbers.now)) }
{
    'numbers: for number in numbers {
        lower_unfit::<V>(alloc, file, *number, unfit)?;
    }
    Ok(())
}

fn lower_unfit<'a, V: Seen<'a>>(
    alloc: Global,
    file: &StepFile<'a>,
    number: u32,
    unfit: &mut Option<u32>,
) -> Result<(), AllocError>
    ensures { OnOk result ((c : Contents) → Says file.now c → unfit.new
        ≡ lower_if (is_unfit c V.entity number) number unfit.old) }
{
    if let Sight::Unfit = look::<V>(alloc, file, number)? {
        *unfit = lower(number, *unfit);
    }
    Ok(())
}

/// The numbers of products.
pub(crate) fn numbers_of(alloc: Global, products: &[Shaped]) -> Result<BTreeSet<u32>, AllocError>
    ensures { IfOk result (λ numbers. (q : ℕ) → contains nat_cmp numbers q
        ≡ list_any (λ p. nat_eq q p.number) products.now) }
{
    let mut numbers = BTreeSet::new(alloc);
    'products: for product in products {
        put(&mut numbers, product.number)?;
    }
    Ok(numbers)
}

/// Puts a number in.
pub(crate) fn put(numbers: &mut BTreeSet<u32>, number: u32) -> Result<(), AllocError>
    ensures { OnOk result ((q : ℕ) → contains nat_cmp numbers.new q
        ≡ (contains nat_cmp numbers.old q || nat_eq q number)) }
{
    numbers.insert(number)?;
    Ok(())
}

/// The openings that an element has.
pub(crate) fn voided(
    alloc: Global,
    openings: &[Shaped],
    links: &Links,
) -> Result<Vec<Shaped>, AllocError>
    ensures { IfOk result (λ taken. taken.items
        ≡ filter (λ p. is_some (get nat_cmp links.now p.number)) openings.now) }
{
    let mut taken = Vec::new(alloc);
    'openings: for opening in openings {
        let has_element = links.contains_key(&opening.number);
        keep(&mut taken, *opening, has_element)?;
    }
    Ok(taken)
}

/// Appends the product, if it passed.
fn keep(taken: &mut Vec<Shaped>, product: Shaped, passed: bool) -> Result<(), AllocError>
    ensures { OnOk result (taken.new.items
        ≡ taken.old.items ++ (if passed then product ∷ [] else [])) }
{
    if passed {
        taken.push(product)?;
    }
    Ok(())
}
