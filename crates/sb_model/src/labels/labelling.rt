//! What is at a point.

ghost use Rattle.std.specs.Prelude.{◌≡◌, ◌≤◌, ◌<ℤ◌, ◌*ℤ◌, pos, unsigned_abs, int_lt, if◌then◌else◌, IsTrue};
ghost use Rattle.std.specs.List.{find};
ghost use Rattle.std.specs.Option.{option_copied, option_map};
ghost use Rattle.sb_fraction.specs.Bounds.{is_abscissa_size, is_crossing_size, greatest_cross};
ghost use Rattle.sb_fraction.specs.Plane.{is_coordinate, greatest_coordinate};
ghost use Rattle.sb_fraction.specs.Spots.{spot_of};
ghost use Rattle.sb_points.specs.Places.{spot_over};
ghost use Rattle.sb_model.specs.Solids.{is_in_solid};
ghost use Rattle.sb_model.specs.Labels.{label_at as label_of};

use crate::building::Model;
use crate::labels::band::layer_at;
use crate::labels::label::Label;
use crate::products::{Element, Elements, Spaces};
use sb_fraction::{Fraction, HPoint};

/// What is at the point over `p` at the height `z`, in millimetres (mm): the lowest-numbered space
/// that contains it, else the lowest-numbered element that contains it, with its layer, else the
/// earth below the ground, else nothing. It goes over the points of all spaces and elements.
pub fn label_at(model: &Model, p: &HPoint, z: &Fraction) -> Label
    requires point_in { IsTrue (is_crossing_size (spot_of p.now)) }
    requires height_in { IsTrue (is_abscissa_size z.now) }
    ensures { result ≡ label_of model.now (spot_over p.now z.now) }
{
    if let Some(number) = space_at(model.spaces(), p, z) {
        return Label::Space(number);
    }
    match element_at(model.elements(), p, z) {
        Some(element) => Label::Element(
            element.number,
            layer_at(&element.prism, &element.layering, p, z),
        ),
        None => open_label(model.ground(), z),
    }
}

/// The number of the first space that contains the point.
fn space_at(spaces: &Spaces, p: &HPoint, z: &Fraction) -> Option<u32>
    requires point_in { IsTrue (is_crossing_size (spot_of p.now)) }
    requires height_in { IsTrue (is_abscissa_size z.now) }
    ensures { result ≡ option_map (λ s. s.number) (find (λ s. is_in_solid s.prism (spot_over p.now z.now)) spaces.now) }
{
    'spaces: for space in spaces.as_slice() {
        if space.prism.contains(p, z) {
            return Some(space.number);
        }
    }
    None
}

/// The first element that contains the point.
fn element_at<'a>(elements: &'a Elements, p: &HPoint, z: &Fraction) -> Option<&'a Element>
    requires point_in { IsTrue (is_crossing_size (spot_of p.now)) }
    requires height_in { IsTrue (is_abscissa_size z.now) }
    ensures { option_copied result ≡ find (λ e. is_in_solid e.prism (spot_over p.now z.now)) elements.now }
{
    'elements: for element in elements.as_slice() {
        if element.prism.contains(p, z) {
            return Some(element);
        }
    }
    None
}

/// The earth below the ground, else nothing.
fn open_label(level: i32, z: &Fraction) -> Label
    requires level_in { IsTrue (is_coordinate level) }
    requires height_in { IsTrue (is_abscissa_size z.now) }
    ensures value { result ≡ (if int_lt z.now.num (level *ℤ z.now.den) then Label.Earth else Label.Void) }
    ensures positive { pos 0 <ℤ z.now.den }
{
    if z.num() < whole_times(level, z.den()) {
        Label::Earth
    } else {
        Label::Void
    }
}

/// A whole height, so many times.
#[tactic(auto, using(crate::proofs::LabelsOfPoints::BandsFit::bands))]
fn whole_times(height: i32, den: i128) -> i128
    requires height_in { unsigned_abs height ≤ greatest_coordinate }
    requires den_in { unsigned_abs den ≤ greatest_cross }
    ensures { result ≡ height *ℤ den }
{
    height as i128 * den
}
