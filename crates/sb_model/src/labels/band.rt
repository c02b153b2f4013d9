//! The layer of an element in which a point lies.

ghost use Rattle.std.specs.Prelude.{◌≡◌, ◌≤◌, ◌<ℤ◌, ◌+◌, ◌+ℤ◌, ◌-ℤ◌, ◌*ℤ◌, ◌&&◌, ◌||◌, pos, unsigned_abs, int_lt, int_le, if◌then◌else◌, length, IsTrue};
ghost use Rattle.sb_fraction.specs.Bounds.{is_abscissa_size, is_crossing_size, greatest_cross, greatest_abscissa, greatest_crossing, greatest_offset};
ghost use Rattle.sb_fraction.specs.Plane.{longest_step};
ghost use Rattle.sb_fraction.specs.Spots.{spot_of};
ghost use Rattle.sb_points.specs.Places.{spot_over};
ghost use Rattle.sb_model.specs.Building.{is_layering, are_layers, is_level_axis, is_upright_axis, most_layers};
ghost use Rattle.sb_model.specs.Labels.{axis_vector, layer_at as layer_of, layer_from, total_of};
ghost use Rattle.sb_model.specs.Bands.{HasReading, is_in_band as is_within_band, greatest_total, greatest_position};

use crate::extent::{Extent, extent_of};
use crate::layers::{Axis, Layering, Layers};
use crate::prism::Prism;
use sb_fraction::{Fraction, HPoint};

/// The index of the layer of an element in which a point lies; 0 without layers along an axis.
pub(crate) fn layer_at(prism: &Prism, layering: &Layering, p: &HPoint, z: &Fraction) -> u32
    requires layering_in { IsTrue (is_layering layering.now) }
    requires point_in { IsTrue (is_crossing_size (spot_of p.now)) }
    requires height_in { IsTrue (is_abscissa_size z.now) }
    ensures { result ≡ layer_of prism.now layering.now (spot_over p.now z.now) }
{
    match layering {
        Layering::Plain => 0,
        Layering::Single(_) => 0,
        Layering::Layered(layers, axis) => layer_along(prism, layers, *axis, p, z),
    }
}

/// The index of the layer along an axis in which a point lies.
#[tactic(auto, using(crate::proofs::LabelsOfPoints::BandsFit::bands))]
fn layer_along(prism: &Prism, layers: &Layers, along: Axis, p: &HPoint, z: &Fraction) -> u32
    requires layers_in { IsTrue (are_layers 0 layers.now) }
    requires few { length layers.now ≤ most_layers }
    requires axis_in { IsTrue (is_level_axis along || is_upright_axis along) }
    requires point_in { IsTrue (is_crossing_size (spot_of p.now)) }
    requires height_in { IsTrue (is_abscissa_size z.now) }
    ensures { result ≡ layer_of prism.now (Layering.Layered layers.now along) (spot_over p.now z.now) }
{
    let extent = extent_of(prism, along);
    let reading = reading_along(along, p, z);
    let at = position(extent, reading, total_thickness(layers));
    layer_in(layers, at, length_of(extent, reading.den))
}

/// A reading along an axis, over its denominator.
#[derive(Clone, Copy)]
struct Reading {
    num: i128,
    den: i128,
}

/// The reading of a point along an axis, level or upright. Of its plan point and its height only the
/// one counts that the axis follows, so that the numbers stay small.
#[tactic(auto, using(crate::proofs::LabelsOfPoints::BandsFit::bands))]
fn reading_along(along: Axis, p: &HPoint, z: &Fraction) -> Reading
    requires axis_in { IsTrue (is_level_axis along || is_upright_axis along) }
    requires point_in { IsTrue (is_crossing_size (spot_of p.now)) }
    requires height_in { IsTrue (is_abscissa_size z.now) }
    ensures value { HasReading (axis_vector along) (spot_over p.now z.now) result.num result.den }
    ensures num_size { unsigned_abs result.num ≤ greatest_abscissa }
    ensures den_size { unsigned_abs result.den ≤ greatest_cross }
{
    let den = z.den();
    if along.z == 0 {
        Reading {
            num: in_plan(along, p),
            den: p.w,
        }
    } else {
        Reading {
            num: upright(along.z, z.num()),
            den,
        }
    }
}

/// The reading of a plan point along a level axis.
#[tactic(auto, using(crate::proofs::LabelsOfPoints::BandsFit::bands))]
fn in_plan(along: Axis, p: &HPoint) -> i128
    requires x_in { unsigned_abs along.x ≤ longest_step }
    requires y_in { unsigned_abs along.y ≤ longest_step }
    requires point_in { IsTrue (is_crossing_size (spot_of p.now)) }
    ensures value { result ≡ (p.now.x *ℤ along.x) +ℤ (p.now.y *ℤ along.y) }
    ensures size { unsigned_abs result ≤ greatest_abscissa }
{
    sum(
        coordinate_times(p.x, along.x),
        coordinate_times(p.y, along.y),
    )
}

/// A coordinate of a plan point times a number of an axis.
#[tactic(auto, using(crate::proofs::LabelsOfPoints::BandsFit::bands))]
fn coordinate_times(a: i128, by: i32) -> i128
    requires a_in { unsigned_abs a ≤ greatest_crossing }
    requires by_in { unsigned_abs by ≤ longest_step }
    ensures value { result ≡ a *ℤ by }
    ensures size { unsigned_abs result ≤ 1000000000000000000000000 }
{
    a * by as i128
}

/// Two readings together.
fn sum(a: i128, b: i128) -> i128
    requires a_in { unsigned_abs a ≤ 1000000000000000000000000 }
    requires b_in { unsigned_abs b ≤ 1000000000000000000000000 }
    ensures value { result ≡ a +ℤ b }
    ensures size { unsigned_abs result ≤ greatest_abscissa }
{
    a + b
}

/// The reading of a height along an upright axis, up or down.
#[tactic(auto, using(crate::proofs::LabelsOfPoints::BandsFit::bands))]
fn upright(sense: i32, num: i128) -> i128
    requires sense_in { unsigned_abs sense ≤ 1 }
    requires num_in { unsigned_abs num ≤ greatest_abscissa }
    ensures value { result ≡ num *ℤ sense }
    ensures size { unsigned_abs result ≤ greatest_abscissa }
{
    num * sense as i128
}

/// The reading less the extent's low end, times the sum of the thicknesses.
#[tactic(auto, using(crate::proofs::LabelsOfPoints::BandsFit::bands))]
fn position(extent: Extent, reading: Reading, total: u64) -> i128
    requires low_in { unsigned_abs extent.low ≤ greatest_cross }
    requires num_in { unsigned_abs reading.num ≤ greatest_abscissa }
    requires den_in { unsigned_abs reading.den ≤ greatest_cross }
    requires total_in { total ≤ greatest_total }
    ensures { result ≡ (reading.num -ℤ (extent.low *ℤ reading.den)) *ℤ pos total }
{
    times_total(less(reading.num, end_times(extent.low, reading.den)), total)
}

/// An end of an extent, so many times.
#[tactic(auto, using(crate::proofs::LabelsOfPoints::BandsFit::bands))]
fn end_times(end: i64, den: i128) -> i128
    requires end_in { unsigned_abs end ≤ 4000000000000 }
    requires den_in { unsigned_abs den ≤ greatest_cross }
    ensures value { result ≡ end *ℤ den }
    ensures size { unsigned_abs result ≤ greatest_offset }
{
    end as i128 * den
}

/// The difference of two readings.
fn less(a: i128, b: i128) -> i128
    requires a_in { unsigned_abs a ≤ greatest_abscissa }
    requires b_in { unsigned_abs b ≤ greatest_offset }
    ensures value { result ≡ a -ℤ b }
    ensures size { unsigned_abs result ≤ greatest_position }
{
    a - b
}

/// So many micrometres of a reading or of a length.
#[tactic(auto, using(crate::proofs::LabelsOfPoints::BandsFit::bands))]
fn times_total(a: i128, total: u64) -> i128
    requires a_in { unsigned_abs a ≤ greatest_position }
    requires total_in { total ≤ greatest_total }
    ensures { result ≡ a *ℤ pos total }
{
    a * total as i128
}

/// The length of an extent, so many times.
#[tactic(auto, using(crate::proofs::LabelsOfPoints::BandsFit::bands))]
fn length_of(extent: Extent, den: i128) -> i128
    requires low_in { unsigned_abs extent.low ≤ greatest_cross }
    requires high_in { unsigned_abs extent.high ≤ greatest_cross }
    requires den_in { unsigned_abs den ≤ greatest_cross }
    ensures value { result ≡ (extent.high -ℤ extent.low) *ℤ den }
    ensures size { unsigned_abs result ≤ greatest_offset }
{
    end_times(between(extent.low, extent.high), den)
}

/// The difference of two ends.
fn between(low: i64, high: i64) -> i64
    requires low_in { unsigned_abs low ≤ greatest_cross }
    requires high_in { unsigned_abs high ≤ greatest_cross }
    ensures value { result ≡ high -ℤ low }
    ensures size { unsigned_abs result ≤ 4000000000000 }
{
    high - low
}

/// The sum of the nominal thicknesses of layers, in micrometres (µm).
pub fn total_thickness(layers: &Layers) -> u64
    requires layers_in { IsTrue (are_layers 0 layers.now) }
    requires few { length layers.now ≤ most_layers }
    ensures value { result ≡ total_of layers.now }
    ensures size { result ≤ greatest_total }
{
    let mut total: u64 = 0;
    'layers: for layer in layers.as_slice() {
        total += layer.micro;
    }
    total
}

/// The index of the layer in whose band a reading lies; 0 where it lies in none.
fn layer_in(layers: &Layers, at: i128, scale: i128) -> u32
    requires layers_in { IsTrue (are_layers 0 layers.now) }
    requires few { length layers.now ≤ most_layers }
    requires scale_in { unsigned_abs scale ≤ greatest_offset }
    ensures { result ≡ layer_from at scale 0 layers.now }
{
    let mut before: u64 = 0;
    let mut left = layers.len();
    'layers: for layer in layers.as_slice() {
        let through = before + layer.micro;
        if is_in_band(at, scale, before, through, left == 1) {
            return layer.index;
        }
        before = through;
        left -= 1;
    }
    0
}

/// Whether a reading lies in a band: it has its lower end and not its upper end, but the last has
/// both.
#[tactic(auto, using(crate::proofs::LabelsOfPoints::BandsFit::bands))]
fn is_in_band(at: i128, scale: i128, before: u64, through: u64, is_last: bool) -> bool
    requires scale_in { unsigned_abs scale ≤ greatest_offset }
    requires before_in { before ≤ greatest_total }
    requires through_in { through ≤ greatest_total }
    ensures { result ≡ is_within_band at scale before through is_last }
{
    let high = times_total(scale, through);
    if times_total(scale, before) > at {
        false
    } else if is_last {
        at <= high
    } else {
        at < high
    }
}
