// The least and the greatest of numbers.
ghost use Rattle.std.specs.Prelude.{◌≡◌, ◌≤◌, ◌++◌, ◌^◌, ℤ, List, [], ◌∷◌, map, unsigned_abs, IsTrue};
ghost use Rattle.sb_solid.specs.Spans as spans;
ghost use Rattle.sb_solid.specs.Steps as spec;

use crate::points::axes::Coordinate;
use crate::points::lying::coordinate;
use crate::points::sizes::{Extent, Lying, Lyings};

/// The extent of numbers with one more.
pub(crate) fn grown(extent: Option<Extent>, number: i128) -> Extent
    requires { unsigned_abs number ≤ 10 ^ 18 }
    ensures { (numbers : List ℤ) → spans.IsExtentOf numbers extent
        → spans.Reaches (numbers ++ number ∷ []) result.low result.high }
{
    match extent {
        None => Extent {
            low: number,
            high: number,
        },
        Some(extent) => widened(extent, number),
    }
}

fn widened(extent: Extent, number: i128) -> Extent
    requires { unsigned_abs number ≤ 10 ^ 18 }
    ensures { (numbers : List ℤ) → spans.Reaches numbers extent.low extent.high
        → spans.Reaches (numbers ++ number ∷ []) result.low result.high }
{
    if number < extent.low {
        return Extent {
            low: number,
            high: extent.high,
        };
    }
    if extent.high < number {
        return Extent {
            low: extent.low,
            high: number,
        };
    }
    extent
}

/// The extent of the coordinates of points along an axis; `None` exactly where there is no point.
pub(crate) fn reach_of(loops: &[Lyings], along: Coordinate) -> Option<Extent>
    ensures { spans.IsExtentOf (spec.numbers_along along loops.now) result }
{
    let mut extent = None;
    'loops: for points in loops {
        extent = reach_with(extent, points.as_slice(), along);
    }
    extent
}

/// The extent of numbers and of the coordinates of these points.
fn reach_with(extent: Option<Extent>, points: &[Lying], along: Coordinate) -> Option<Extent>
    ensures { (numbers : List ℤ) → spans.IsExtentOf numbers extent
        → spans.IsExtentOf (numbers ++ spec.coordinates along points.now) result }
{
    let mut extent = extent;
    'points: for point in points {
        extent = Some(grown(extent, coordinate(*point, along)));
    }
    extent
}
