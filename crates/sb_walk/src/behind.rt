//! What stands just behind a position, of the products that are present in a gap.

ghost use Rattle.std.specs.Prelude.{◌≡◌, IsTrue};
ghost use Rattle.std.specs.List.{find};
ghost use Rattle.sb_model.specs.Surfaces.Faces.{space_numbered};
ghost use Rattle.sb_model.specs.Solids.{is_height};
ghost use Rattle.sb_model.specs.Walks.{element_numbered};
ghost use Rattle.theory_gaps.specs.Borders.{open_behind as is_open_behind};
ghost use Rattle.theory_sight.specs.Coarse.{same_label};
ghost use Rattle.sb_walk.specs.Ways.{normal_of};
ghost use Rattle.sb_walk.specs.Behind.{space_on, element_on, label_on, is_space_on, is_element_on};

use crate::way::Way;
use sb_model::{Label, Model};

/// The label just behind a position along a way, without layers: the least of these spaces that reaches
/// on there, else the least of these elements, else the earth or the air.
pub(crate) fn label_behind(model: &Model, present: &[u32], way: Way, z: i32) -> Label
    ensures { result ≡ label_on model.now (normal_of way) present.now z }
{
    match space_behind(model, present, way, z) {
        Some(number) => Label::Space(number),
        None => match element_behind(model, present, way, z) {
            Some(number) => Label::Element(number, 0),
            None => open_behind(model, way, z),
        },
    }
}

/// The first of these numbers whose space reaches on behind a position.
fn space_behind(model: &Model, present: &[u32], way: Way, z: i32) -> Option<u32>
    ensures { result ≡ space_on model.now (normal_of way) present.now z }
{
    let mut rest = present;
    'numbers: while let Some((number, others)) = rest.split_first() {
        if space_reaches_on(model, *number, way, z) {
            return Some(*number);
        }
        rest = others;
    }
    None
}

/// The first of these numbers whose element does.
fn element_behind(model: &Model, present: &[u32], way: Way, z: i32) -> Option<u32>
    ensures { result ≡ element_on model.now (normal_of way) present.now z }
{
    let mut rest = present;
    'numbers: while let Some((number, others)) = rest.split_first() {
        if element_reaches_on(model, *number, way, z) {
            return Some(*number);
        }
        rest = others;
    }
    None
}

fn space_reaches_on(model: &Model, number: u32, way: Way, z: i32) -> bool
    ensures { result ≡ is_space_on (normal_of way) z (space_numbered model.now number) }
{
    match model.space(number) {
        Some(space) => way.reaches_on(&space.prism, z),
        None => false,
    }
}

fn element_reaches_on(model: &Model, number: u32, way: Way, z: i32) -> bool
    ensures { result ≡ is_element_on (normal_of way) z (element_numbered model.now number) }
{
    match model.element(number) {
        Some(element) => way.reaches_on(&element.prism, z),
        None => false,
    }
}

/// The earth or the air.
#[tactic(auto, using(crate::proofs::Ranges::HeightsFit::heights))]
fn open_behind(model: &Model, way: Way, z: i32) -> Label
    ensures { result ≡ is_open_behind (normal_of way) model.now.ground_height z }
{
    open_at(way, model.ground(), z)
}

fn open_at(way: Way, ground: i32, z: i32) -> Label
    requires { IsTrue (is_height ground) }
    ensures { result ≡ is_open_behind (normal_of way) ground z }
{
    match way {
        Way::Down => {
            if z < way.ground(ground) {
                Label::Void
            } else {
                Label::Earth
            }
        }
        Way::Up => {
            if z < ground {
                Label::Earth
            } else {
                Label::Void
            }
        }
    }
}

/// Whether two labels are one.
pub(crate) fn are_one(a: Label, b: Label) -> bool
    ensures { result ≡ same_label a b }
{
    match a {
        Label::Space(number) => is_space(b, number),
        Label::Element(number, layer) => is_layer(b, number, layer),
        Label::Earth => matches!(b, Label::Earth),
        Label::Void => matches!(b, Label::Void),
    }
}

fn is_space(l: Label, number: u32) -> bool
    ensures { result ≡ same_label (Label.Space number) l }
{
    match l {
        Label::Space(other) => number == other,
        Label::Element(_, _) | Label::Earth | Label::Void => false,
    }
}

fn is_layer(l: Label, number: u32, layer: u32) -> bool
    ensures { result ≡ same_label (Label.Element number layer) l }
{
    match l {
        Label::Element(other, index) => number == other && layer == index,
        Label::Space(_) | Label::Earth | Label::Void => false,
    }
}
