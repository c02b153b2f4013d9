//! Whether a point of space lies in a prism.

ghost use Rattle.std.specs.Prelude.{◌≡◌, ◌≤◌, ◌*ℤ◌, ◌&&◌, int_lt, pos, ◌<ℤ◌, unsigned_abs, IsTrue};
ghost use Rattle.std.specs.List.{list_all};
ghost use Rattle.sb_fraction.specs.Plane.{is_plan_point, is_coordinate, greatest_coordinate};
ghost use Rattle.sb_fraction.specs.Bounds.{is_abscissa_size, is_crossing_size, greatest_cross};
ghost use Rattle.sb_fraction.specs.Spots.{spot_of};
ghost use Rattle.theory_plans.specs.Inside.{is_in_plan};
ghost use Rattle.sb_points.specs.Places.{spot_over, lies_between};

use crate::within::is_inside;
use sb_fraction::{Fraction, HPoint, Point};
use sb_list::Listed;

/// Whether a point of space lies in a prism: inside its loops, and strictly between its heights.
/// The point lies over `p`, at the height `z` in millimetres (mm).
pub fn contains(loops: &Listed<Listed<Point>>, z0: i32, z1: i32, p: &HPoint, z: &Fraction) -> bool
    requires loops_in { IsTrue (list_all (list_all is_plan_point) loops.now) }
    requires low_in { IsTrue (is_coordinate z0) }
    requires high_in { IsTrue (is_coordinate z1) }
    requires point_in { IsTrue (is_crossing_size (spot_of p.now)) }
    requires height_in { IsTrue (is_abscissa_size z.now) }
    ensures { result ≡ (is_in_plan loops.now (spot_over p.now z.now) && lies_between z0 z1 (spot_over p.now z.now)) }
{
    is_between(z0, z1, z) && is_inside(loops, p)
}

/// Whether a height lies strictly between two whole heights.
#[tactic(auto, using(crate::proofs::SizesFit::sizes))]
fn is_between(z0: i32, z1: i32, z: &Fraction) -> bool
    requires low_in { IsTrue (is_coordinate z0) }
    requires high_in { IsTrue (is_coordinate z1) }
    requires height_in { IsTrue (is_abscissa_size z.now) }
    ensures value { result ≡ (int_lt (z0 *ℤ z.now.den) z.now.num && int_lt z.now.num (z1 *ℤ z.now.den)) }
    ensures positive { pos 0 <ℤ z.now.den }
{
    times(z0, z.den()) < z.num() && z.num() < times(z1, z.den())
}

/// A whole height, so many times.
#[tactic(auto, using(crate::proofs::SizesFit::sizes))]
fn times(height: i32, den: i128) -> i128
    requires height_in { unsigned_abs height ≤ greatest_coordinate }
    requires den_in { unsigned_abs den ≤ greatest_cross }
    ensures { result ≡ height *ℤ den }
{
    height as i128 * den
}
