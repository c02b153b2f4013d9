//! From where to where a prism reaches along a direction.

ghost use Rattle.std.specs.Prelude.{◌≡◌, ◌≤◌, ◌+ℤ◌, ◌*ℤ◌, unsigned_abs, IsTrue};
ghost use Rattle.std.specs.Int.{int_min, int_max};
ghost use Rattle.std.specs.List.{fold, list_all};
ghost use Rattle.sb_fraction.specs.Bounds.{greatest_cross};
ghost use Rattle.sb_fraction.specs.Crossings.{abscissa_at};
ghost use Rattle.sb_fraction.specs.Plane.{is_plan_point, is_coordinate};
ghost use Rattle.sb_model.specs.Labels.{axis_vector, low_along, high_along};
ghost use Rattle.sb_model.specs.Labels.{readings_over, readings_in, readings_of, first_of, IsShortAxis};

use crate::layers::Axis;
use crate::prism::Prism;
use sb_fraction::Point;
use sb_loops::Points;

/// From the least to the greatest of some readings.
#[derive(Clone, Copy)]
pub struct Extent {
    pub low: i64,
    pub high: i64,
}

/// The extent of a prism along an axis: from the least `p·axis` of its corners to the greatest, in
/// millimetres (mm) along an axis of length 1.
#[tactic(auto, using(crate::proofs::ReadingsFit::readings))]
pub fn extent_of(prism: &Prism, along: Axis) -> Extent
    requires axis_in { IsShortAxis along }
    ensures low { result.low ≡ low_along prism.now (axis_vector along) }
    ensures high { result.high ≡ high_along prism.now (axis_vector along) }
    ensures low_size { unsigned_abs result.low ≤ greatest_cross }
    ensures high_size { unsigned_abs result.high ≤ greatest_cross }
{
    let points = prism.loops().points().as_slice();
    over_loops(first_extent(prism, along), points, prism, along)
}

/// The extent of the first corner alone.
#[tactic(auto, using(crate::proofs::ReadingsFit::readings))]
fn first_extent(prism: &Prism, along: Axis) -> Extent
    requires axis_in { IsShortAxis along }
    ensures low { result.low ≡ first_of (readings_of prism.now (axis_vector along) prism.now.loops) }
    ensures high { result.high ≡ first_of (readings_of prism.now (axis_vector along) prism.now.loops) }
    ensures size { unsigned_abs result.low ≤ greatest_cross }
{
    let points = prism.loops().points().as_slice();
    let first = reading_at(points[0].as_slice()[0], prism.z0(), along);
    Extent {
        low: first,
        high: first,
    }
}

/// The extent, the corners over these loops taken in.
fn over_loops(extent: Extent, loops: &[Points], prism: &Prism, along: Axis) -> Extent
    requires loops_in { IsTrue (list_all (list_all is_plan_point) loops.now) }
    requires axis_in { IsShortAxis along }
    requires low_is { unsigned_abs extent.low ≤ greatest_cross }
    requires high_is { unsigned_abs extent.high ≤ greatest_cross }
    ensures low { result.low ≡ fold int_min extent.low (readings_of prism.now (axis_vector along) loops.now) }
    ensures high { result.high ≡ fold int_max extent.high (readings_of prism.now (axis_vector along) loops.now) }
    ensures low_size { unsigned_abs result.low ≤ greatest_cross }
    ensures high_size { unsigned_abs result.high ≤ greatest_cross }
{
    let mut extent = extent;
    'loops: for points in loops {
        extent = over_points(extent, points.as_slice(), prism, along);
    }
    extent
}

/// The extent, the corners over these points taken in.
fn over_points(extent: Extent, points: &[Point], prism: &Prism, along: Axis) -> Extent
    requires points_in { IsTrue (list_all is_plan_point points.now) }
    requires axis_in { IsShortAxis along }
    requires low_is { unsigned_abs extent.low ≤ greatest_cross }
    requires high_is { unsigned_abs extent.high ≤ greatest_cross }
    ensures low { result.low ≡ fold int_min extent.low (readings_in prism.now (axis_vector along) points.now) }
    ensures high { result.high ≡ fold int_max extent.high (readings_in prism.now (axis_vector along) points.now) }
    ensures low_size { unsigned_abs result.low ≤ greatest_cross }
    ensures high_size { unsigned_abs result.high ≤ greatest_cross }
{
    let mut extent = extent;
    'points: for point in points {
        extent = over_point(extent, *point, prism, along);
    }
    extent
}

/// The extent, the two corners over this point taken in.
#[tactic(auto, using(crate::proofs::ReadingsFit::readings))]
fn over_point(extent: Extent, p: Point, prism: &Prism, along: Axis) -> Extent
    requires point_in { IsTrue (is_plan_point p) }
    requires axis_in { IsShortAxis along }
    requires low_is { unsigned_abs extent.low ≤ greatest_cross }
    requires high_is { unsigned_abs extent.high ≤ greatest_cross }
    ensures low { result.low ≡ fold int_min extent.low (readings_over prism.now (axis_vector along) p) }
    ensures high { result.high ≡ fold int_max extent.high (readings_over prism.now (axis_vector along) p) }
    ensures low_size { unsigned_abs result.low ≤ greatest_cross }
    ensures high_size { unsigned_abs result.high ≤ greatest_cross }
{
    let below = widened(extent, reading_at(p, prism.z0(), along));
    widened(below, reading_at(p, prism.z1(), along))
}

/// The extent, a reading taken in.
fn widened(extent: Extent, reading: i64) -> Extent
    requires low_is { unsigned_abs extent.low ≤ greatest_cross }
    requires high_is { unsigned_abs extent.high ≤ greatest_cross }
    requires reading_is { unsigned_abs reading ≤ greatest_cross }
    ensures low { result.low ≡ int_min extent.low reading }
    ensures high { result.high ≡ int_max extent.high reading }
    ensures low_size { unsigned_abs result.low ≤ greatest_cross }
    ensures high_size { unsigned_abs result.high ≤ greatest_cross }
{
    Extent {
        low: extent.low.min(reading),
        high: extent.high.max(reading),
    }
}

/// `p·axis` for the corner of a prism over a plan point.
#[tactic(auto, using(crate::proofs::ReadingsFit::readings))]
fn reading_at(p: Point, z: i32, along: Axis) -> i64
    requires point_in { IsTrue (is_plan_point p) }
    requires height_in { IsTrue (is_coordinate z) }
    requires axis_in { IsShortAxis along }
    ensures value { result ≡ abscissa_at p (axis_vector along) +ℤ (z *ℤ (axis_vector along).z) }
    ensures size { unsigned_abs result ≤ greatest_cross }
{
    sum(times(p.x, along.x), times(p.y, along.y), times(z, along.z))
}

/// Three readings together.
fn sum(a: i64, b: i64, c: i64) -> i64
    requires a_in { unsigned_abs a ≤ 500000000000 }
    requires b_in { unsigned_abs b ≤ 500000000000 }
    requires c_in { unsigned_abs c ≤ 500000000000 }
    ensures value { result ≡ (a +ℤ b) +ℤ c }
    ensures size { unsigned_abs result ≤ greatest_cross }
{
    a + b + c
}

/// A coordinate, so many times.
#[tactic(auto, using(crate::proofs::ReadingsFit::readings))]
fn times(coordinate: i32, by: i32) -> i64
    requires coordinate_in { IsTrue (is_coordinate coordinate) }
    requires by_in { unsigned_abs by ≤ 1000000 }
    ensures value { result ≡ coordinate *ℤ by }
    ensures size { unsigned_abs result ≤ 500000000000 }
{
    coordinate as i64 * by as i64
}
