//! The bands of an element's layers that a straight way crosses.

ghost use Rattle.std.specs.Prelude.{◌≡◌, ◌≤◌, ◌≤ℤ◌, ◌<ℤ◌, ◌++◌, ◌+◌, ◌*◌, ◌-ℤ◌, ◌*ℤ◌, pos, neg_ℤ, length, int_lt, unsigned_abs, IfOk, OnOk, IsTrue, reverse};
ghost use Rattle.std.specs.Int.{int_min, int_max};
ghost use Rattle.theory_numbers.specs.Fractions.{reduced};
ghost use Rattle.sb_fraction.specs.Bounds.{greatest_cross, greatest_num};
ghost use Rattle.sb_fraction.specs.Spots.{inner, opposite as opposite_of};
ghost use Rattle.sb_model.specs.Bands.{greatest_total};
ghost use Rattle.sb_model.specs.declared.layers.Layering.TheVariants.{Layered};
ghost use Rattle.sb_model.specs.Building.{is_layering, are_layers, most_layers};
ghost use Rattle.sb_model.specs.Labels.{axis_vector, low_along, high_along, total_of, IsShortAxis};
ghost use Rattle.sb_model.specs.Walks.{lies_along};
ghost use Rattle.theory_sight.specs.Bands.{items_between};
ghost use Rattle.sb_layers.specs.Parts.{end_behind as end_of_bands, part_of, parts_of, parts_along, way_of, IsWithinBounds, item_between, greatest_extent, greatest_place};

use crate::axis::{inner_product, opposite};
use sb_fraction::Fraction;
use sb_list::Listed;
use sb_model::{Axis, Element, Extent, Item, Items, Layer, Layers, extent_of, total_thickness};
use std::alloc::{AllocError, Global};

/// A way through an element with layers. The element's number, the length of its extent along the way,
/// and, T times as great where T is the sum of the layers, the extent's low end and the way's ends.
#[derive(Clone, Copy)]
pub(crate) struct Way {
    element: u32,
    extent: i128,
    low: i128,
    from: i128,
    to: i128,
}

/// The items of a crossing of an element with these layers along this axis.
pub(crate) fn layered_items(
    alloc: Global,
    element: &Element,
    layers: &Layers,
    axis: Axis,
    n: Axis,
    from: i64,
    to: i64,
) -> Result<Items, AllocError>
    requires layering_is { element.now.layering ≡ Layered layers.now axis }
    requires layering_in { IsTrue (is_layering element.now.layering) }
    requires along { IsTrue (lies_along element.now.layering (axis_vector n)) }
    requires short { IsShortAxis n }
    requires some { pos 0 <ℤ inner (axis_vector n) (axis_vector n) }
    requires rising { from <ℤ to }
    requires low_in { low_along element.now.prism (axis_vector n) ≤ℤ from }
    requires high_in { to ≤ℤ high_along element.now.prism (axis_vector n) }
    requires from_in { unsigned_abs from ≤ greatest_cross }
    requires to_in { unsigned_abs to ≤ greatest_cross }
    ensures { IfOk result (λ items. items ≡ items_between element.now (axis_vector n) from to) }
{
    if points_along(axis, n) {
        items_up(alloc, element, layers, n, from, to)
    } else {
        items_down(alloc, element, layers, n, from, to)
    }
}

/// Whether a normal points as the axis does.
fn points_along(axis: Axis, n: Axis) -> bool
    ensures { result ≡ int_lt (pos 0) (inner (axis_vector axis) (axis_vector n)) }
{
    inner_product(axis, n) > 0
}

/// The items of a way against the axis of the layers: those of the way back, in the other order.
fn items_down(
    alloc: Global,
    element: &Element,
    layers: &Layers,
    n: Axis,
    from: i64,
    to: i64,
) -> Result<Items, AllocError>
    requires layers_in { IsTrue (are_layers 0 layers.now) }
    requires few { length layers.now ≤ most_layers }
    requires short { IsShortAxis n }
    requires rising { from <ℤ to }
    requires low_in { low_along element.now.prism (axis_vector n) ≤ℤ from }
    requires high_in { to ≤ℤ high_along element.now.prism (axis_vector n) }
    requires from_in { unsigned_abs from ≤ greatest_cross }
    requires to_in { unsigned_abs to ≤ greatest_cross }
    ensures { IfOk result (λ items. items
        ≡ reverse (parts_along element.now (opposite_of (axis_vector n)) (neg_ℤ to) (neg_ℤ from) layers.now)) }
{
    let back = items_up(
        alloc,
        element,
        layers,
        opposite(n),
        turned(to),
        turned(from),
    )?;
    reversed(&back, alloc)
}

/// A position along the opposite normal.
fn turned(position: i64) -> i64
    requires { unsigned_abs position ≤ greatest_cross }
    ensures { result ≡ neg_ℤ position }
{
    -position
}

/// The items in the other order.
fn reversed(items: &Items, alloc: Global) -> Result<Items, AllocError>
    ensures { IfOk result (λ list. list ≡ reverse items.now) }
{
    let mut list = Listed::new(alloc);
    let mut left = items.len();
    'items: while left > 0 {
        left -= 1;
        list.push(items.as_slice()[left])?;
    }
    Ok(list)
}

/// The items of a way along the axis of the layers.
fn items_up(
    alloc: Global,
    element: &Element,
    layers: &Layers,
    n: Axis,
    from: i64,
    to: i64,
) -> Result<Items, AllocError>
    requires layers_in { IsTrue (are_layers 0 layers.now) }
    requires few { length layers.now ≤ most_layers }
    requires short { IsShortAxis n }
    requires rising { from <ℤ to }
    requires low_in { low_along element.now.prism (axis_vector n) ≤ℤ from }
    requires high_in { to ≤ℤ high_along element.now.prism (axis_vector n) }
    ensures { IfOk result (λ items. items ≡ parts_along element.now (axis_vector n) from to layers.now) }
{
    let extent = extent_of(&element.prism, n);
    let way = way_through(element.number, extent, total_thickness(layers), from, to);
    parts(alloc, way, layers)
}

/// The way from one position to another through an element with this extent.
fn way_through(element: u32, extent: Extent, total: u64, from: i64, to: i64) -> Way
    requires low_size { unsigned_abs extent.low ≤ greatest_cross }
    requires high_size { unsigned_abs extent.high ≤ greatest_cross }
    requires total_in { total ≤ greatest_total }
    requires rising { from <ℤ to }
    requires low_in { extent.low ≤ℤ from }
    requires high_in { to ≤ℤ extent.high }
    ensures value { result ≡ way_of element (extent.high -ℤ extent.low) extent.low total from to }
    ensures bounds { IsWithinBounds result }
{
    Way {
        element,
        extent: between(extent.low, extent.high),
        low: times(extent.low, total),
        from: times(from, total),
        to: times(to, total),
    }
}

/// The difference of two ends.
fn between(low: i64, high: i64) -> i128
    requires low_in { unsigned_abs low ≤ greatest_cross }
    requires high_in { unsigned_abs high ≤ greatest_cross }
    ensures value { result ≡ high -ℤ low }
    ensures size { unsigned_abs result ≤ greatest_extent }
{
    i128::from(high) - i128::from(low)
}

/// A position, so many times.
#[tactic(auto, using(crate::proofs::ProductsFit::products))]
fn times(position: i64, total: u64) -> i128
    requires position_in { unsigned_abs position ≤ greatest_cross }
    requires total_in { total ≤ greatest_total }
    ensures value { result ≡ position *ℤ pos total }
    ensures size { unsigned_abs result ≤ greatest_cross * greatest_total }
{
    i128::from(position) * i128::from(total)
}

/// The items of a way, band after band.
fn parts(alloc: Global, way: Way, layers: &Layers) -> Result<Items, AllocError>
    requires total_in { total_of layers.now ≤ greatest_total }
    requires bounds { IsWithinBounds way }
    ensures { IfOk result (λ items. items ≡ parts_of way 0 layers.now) }
{
    let mut items = Listed::new(alloc);
    let mut before: u64 = 0;
    'layers: for layer in layers.as_slice() {
        push_part(&mut items, way, before, layer)?;
        before += layer.micro;
    }
    Ok(items)
}

/// Appends the item of the part of a layer's band that is crossed, if it is.
fn push_part(items: &mut Items, way: Way, before: u64, layer: &Layer) -> Result<(), AllocError>
    requires bounds { IsWithinBounds way }
    requires through_in { before + layer.now.micro ≤ greatest_total }
    ensures { OnOk result (items.new ≡ items.old ++ part_of way before layer.now) }
{
    let from = later(way.from, end_behind(way, before));
    let to = earlier(way.to, end_behind(way, before + layer.micro));
    push_between(items, way, layer, from, to)
}

/// The later of two places.
fn later(a: i128, b: i128) -> i128
    requires a_in { unsigned_abs a ≤ 2 * greatest_place }
    requires b_in { unsigned_abs b ≤ 2 * greatest_place }
    ensures value { result ≡ int_max a b }
    ensures size { unsigned_abs result ≤ 2 * greatest_place }
{
    a.max(b)
}

/// The earlier of two places.
fn earlier(a: i128, b: i128) -> i128
    requires a_in { unsigned_abs a ≤ 2 * greatest_place }
    requires b_in { unsigned_abs b ≤ 2 * greatest_place }
    ensures value { result ≡ int_min a b }
    ensures size { unsigned_abs result ≤ 2 * greatest_place }
{
    a.min(b)
}

/// Appends the item of a layer from one place to another, if it is somewhere between.
fn push_between(
    items: &mut Items,
    way: Way,
    layer: &Layer,
    from: i128,
    to: i128,
) -> Result<(), AllocError>
    requires bounds { IsWithinBounds way }
    requires from_in { unsigned_abs from ≤ 2 * greatest_place }
    requires to_in { unsigned_abs to ≤ 2 * greatest_place }
    ensures { OnOk result (items.new ≡ items.old ++ item_between way layer.now from to) }
{
    if from < to {
        items.push(Item {
            element: way.element,
            layer: layer.index,
            thickness: share(way, from, to),
        })?;
    }
    Ok(())
}

/// The thickness of what is crossed: the crossed length over the extent's.
fn share(way: Way, from: i128, to: i128) -> Fraction
    requires bounds { IsWithinBounds way }
    requires from_in { unsigned_abs from ≤ 2 * greatest_place }
    requires to_in { unsigned_abs to ≤ 2 * greatest_place }
    ensures { result ≡ reduced (to -ℤ from) way.extent }
{
    Fraction::new(crossed_length(from, to), way.extent)
}

/// The difference of two places.
fn crossed_length(from: i128, to: i128) -> i128
    requires from_in { unsigned_abs from ≤ 2 * greatest_place }
    requires to_in { unsigned_abs to ≤ 2 * greatest_place }
    ensures value { result ≡ to -ℤ from }
    ensures size { unsigned_abs result ≤ greatest_num }
{
    to - from
}

/// Where the bands before so many micrometres end, T times as great.
fn end_behind(way: Way, before: u64) -> i128
    requires bounds { IsWithinBounds way }
    requires before_in { before ≤ greatest_total }
    ensures value { result ≡ end_of_bands way before }
    ensures size { unsigned_abs result ≤ 2 * greatest_place }
{
    way.low + way.extent * i128::from(before)
}
