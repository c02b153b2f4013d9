//! The walk up or down through the products that are present in a gap.

ghost use Rattle.std.specs.Prelude.{◌≡◌, ◌≤◌, ◌*◌, ◌^◌, ◌-ℤ◌, pos, unsigned_abs, IfOk};
ghost use Rattle.theory_numbers.specs.Fractions.{whole};
ghost use Rattle.theory_numbers.specs.Rationals.{rational};
ghost use Rattle.sb_model.specs.Walks.{course_of, is_in_reach, element_numbered, item};
ghost use Rattle.sb_walk.specs.Ways.{normal_of};
ghost use Rattle.sb_walk.specs.Behind.{read_on, HaveNoLayers};
ghost use Rattle.sb_walk.specs.Ended.{item_through, item_over, end_of, course_to};

use crate::behind::{are_one, label_behind};
use crate::way::Way;
use sb_fraction::Fraction;
use sb_list::Listed;
use sb_model::{Element, End, Item, Items, Label, Model, Walk};
use std::alloc::{AllocError, Global};

/// The walk along a way from a position, through these products. `positions` are those at which they are
/// entered and left, and that of the ground, as far as they lie behind the beginning.
pub(crate) fn walk_from(
    alloc: Global,
    model: &Model,
    present: &[u32],
    positions: &[i32],
    way: Way,
    from: i32,
) -> Result<Walk, AllocError>
    requires no_layers { HaveNoLayers model.now }
    ensures { IfOk result (λ walk. course_of walk ≡ read_on model.now (normal_of way) present.now from positions.now) }
{
    let mut items = Listed::new(alloc);
    let mut at = from;
    let mut label = label_behind(model, present, way, from);
    let mut rest = positions;
    'positions: while let Some((next, others)) = rest.split_first() {
        let behind = label_behind(model, present, way, *next);
        if !are_one(label, behind) {
            let Some(item) = item_of(model, label, at, *next) else {
                return Ok(ended(items, from, at, label));
            };
            items.push(item)?;
            at = *next;
            label = behind;
        }
        rest = others;
    }
    Ok(ended(items, from, at, label))
}

/// The walk that ends at a position, in front of what has this label.
fn ended(items: Items, from: i32, at: i32, label: Label) -> Walk
    ensures { course_of result ≡ course_to items from at label }
{
    Walk {
        items,
        depth: depth_of(from, at),
        end: end_of_label(label),
    }
}

fn depth_of(from: i32, at: i32) -> i64
    ensures { result ≡ at -ℤ from }
{
    at as i64 - from as i64
}

/// What ends a walk that goes on no further than to this label.
fn end_of_label(label: Label) -> End
    ensures { result ≡ end_of label }
{
    match label {
        Label::Space(number) => End::Space(number),
        Label::Element(number, _) => End::Solid(number),
        Label::Earth => End::Earth,
        Label::Void => End::Outside,
    }
}

/// The item of a crossing of what has this label; `None` where that is no element, or is not passed.
fn item_of(model: &Model, label: Label, from: i32, to: i32) -> Option<Item>
    ensures { result ≡ item_over model.now label from to }
{
    match label {
        Label::Element(number, _) => item_of_element(model, number, from, to),
        Label::Space(_) | Label::Earth | Label::Void => None,
    }
}

fn item_of_element(model: &Model, number: u32, from: i32, to: i32) -> Option<Item>
    ensures { result ≡ item_through model.now (element_numbered model.now number) from to }
{
    match model.element(number) {
        None => None,
        Some(element) => {
            if is_within_reach(model.reach(), from, to) {
                Some(whole_item(element, from, to))
            } else {
                None
            }
        }
    }
}

/// Whether a crossing is no longer than the reach.
fn is_within_reach(reach: u32, from: i32, to: i32) -> bool
    ensures { result ≡ is_in_reach reach (pos 1) (rational (to -ℤ from) (pos 1)) }
{
    to.abs_diff(from) <= reach
}

/// The item of an element without layers: its thickness is in micrometres (µm).
fn whole_item(element: &Element, from: i32, to: i32) -> Item
    ensures { result ≡ item element.now.number 0 (whole (pos (1000 * unsigned_abs (to -ℤ from)))) }
{
    Item {
        element: element.number,
        layer: 0,
        thickness: micrometres(to.abs_diff(from)),
    }
}

/// A length in millimetres (mm) as a number of micrometres (µm).
fn micrometres(length: u32) -> Fraction
    ensures { result ≡ whole (pos (1000 * length)) }
{
    Fraction::new(thousandfold(length), 1)
}

fn thousandfold(length: u32) -> i128
    ensures value { result ≡ pos (1000 * length) }
    ensures size { unsigned_abs result ≤ 10 ^ 32 }
{
    (1000 * length as u64) as i128
}
