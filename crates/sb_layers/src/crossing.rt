//! What a straight way through an element crosses.

ghost use Rattle.std.specs.Prelude.{◌≡◌, ◌≤◌, ◌≤ℤ◌, ◌<ℤ◌, ◌-ℤ◌, ◌∷◌, [], pos, unsigned_abs, IfOk, IsTrue};
ghost use Rattle.sb_fraction.specs.Bounds.{greatest_cross};
ghost use Rattle.sb_fraction.specs.Spots.{inner};
ghost use Rattle.theory_numbers.specs.Fractions.{whole as whole_number};
ghost use Rattle.sb_model.specs.Building.{is_layering};
ghost use Rattle.sb_model.specs.Labels.{axis_vector, low_along, high_along, IsShortAxis};
ghost use Rattle.sb_model.specs.Walks.{lies_along, item};
ghost use Rattle.theory_sight.specs.Bands.{items_between, rounded_thickness};
ghost use Rattle.sb_layers.specs.InWalks.{AreItemsInWalks};

use crate::parts::layered_items;
use crate::thickness::rounded_micrometres;
use sb_fraction::Fraction;
use sb_list::Listed;
use sb_model::{Axis, Element, Item, Items, Layering};
use std::alloc::{AllocError, Global};

/// The items of a crossing of an element between the positions `from` and `to` of a ray along n, in
/// the ray's order. A position is `p·n`, in millimetres (mm) where n has length 1.
///
/// An element without layers along an axis gives one item of layer 0: its thickness is the length of
/// the crossing, `1000·(to - from)/√N` micrometres (µm) with `N = n·n`, rounded, half away from zero.
/// An element with layers gives one item for each band that is crossed by more than nothing, with the
/// layer's nominal thickness times the share of its band that is crossed, exactly.
///
/// - `Ok(items)`: exactly these; they are what the definition of walks asks of such a crossing.
/// - `Err(AllocError)`: there is no memory.
///
/// It takes the time of a look at each point of the plan and at each layer.
pub fn crossed(
    alloc: Global,
    element: &Element,
    n: Axis,
    from: i64,
    to: i64,
) -> Result<Items, AllocError>
    requires layering_in { IsTrue (is_layering element.now.layering) }
    requires along { IsTrue (lies_along element.now.layering (axis_vector n)) }
    requires short { IsShortAxis n }
    requires some { pos 0 <ℤ inner (axis_vector n) (axis_vector n) }
    requires rising { from <ℤ to }
    requires low_in { low_along element.now.prism (axis_vector n) ≤ℤ from }
    requires high_in { to ≤ℤ high_along element.now.prism (axis_vector n) }
    ensures value { IfOk result (λ items. items ≡ items_between element.now (axis_vector n) from to) }
    ensures of_walks { IfOk result (λ items. AreItemsInWalks element.now (axis_vector n) from to items) }
{
    by_layering(alloc, element, n, from, to)
}

/// The items by the element's layering.
fn by_layering(
    alloc: Global,
    element: &Element,
    n: Axis,
    from: i64,
    to: i64,
) -> Result<Items, AllocError>
    requires layering_in { IsTrue (is_layering element.now.layering) }
    requires along { IsTrue (lies_along element.now.layering (axis_vector n)) }
    requires short { IsShortAxis n }
    requires some { pos 0 <ℤ inner (axis_vector n) (axis_vector n) }
    requires rising { from <ℤ to }
    requires low_in { low_along element.now.prism (axis_vector n) ≤ℤ from }
    requires high_in { to ≤ℤ high_along element.now.prism (axis_vector n) }
    requires from_in { unsigned_abs from ≤ greatest_cross }
    requires to_in { unsigned_abs to ≤ greatest_cross }
    ensures { IfOk result (λ items. items ≡ items_between element.now (axis_vector n) from to) }
{
    match &element.layering {
        Layering::Plain | Layering::Single(_) => one_item(alloc, element.number, n, from, to),
        Layering::Layered(layers, axis) => {
            layered_items(alloc, element, layers, *axis, n, from, to)
        }
    }
}

/// The one item of an element without layers along an axis.
fn one_item(alloc: Global, number: u32, n: Axis, from: i64, to: i64) -> Result<Items, AllocError>
    requires some { pos 0 <ℤ inner (axis_vector n) (axis_vector n) }
    requires from_in { unsigned_abs from ≤ greatest_cross }
    requires to_in { unsigned_abs to ≤ greatest_cross }
    ensures { IfOk result (λ items. items ≡ item number 0 (whole_number (pos (rounded_thickness (inner (axis_vector n) (axis_vector n)) (to -ℤ from)))) ∷ []) }
{
    let mut items = Listed::new(alloc);
    items.push(Item {
        element: number,
        layer: 0,
        thickness: whole_thickness(n, from, to),
    })?;
    Ok(items)
}

/// The length of a crossing in whole micrometres (µm).
fn whole_thickness(n: Axis, from: i64, to: i64) -> Fraction
    requires some { pos 0 <ℤ inner (axis_vector n) (axis_vector n) }
    requires from_in { unsigned_abs from ≤ greatest_cross }
    requires to_in { unsigned_abs to ≤ greatest_cross }
    ensures { result ≡ whole_number (pos (rounded_thickness (inner (axis_vector n) (axis_vector n)) (to -ℤ from))) }
{
    Fraction::new(rounded_micrometres(n, from, to), 1)
}
