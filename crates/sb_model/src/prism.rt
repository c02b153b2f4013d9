//! Vertical prisms.

ghost use Rattle.std.specs.Prelude.{◌≡◌, ◌<ℤ◌, IsTrue};
ghost use Rattle.sb_fraction.specs.Bounds.{is_abscissa_size, is_crossing_size};
ghost use Rattle.sb_fraction.specs.Spots.{spot_of};
ghost use Rattle.theory_plans.specs.Plans.{is_plan};
ghost use Rattle.sb_points.specs.Places.{spot_over};
ghost use Rattle.sb_model.specs.Solids.{upright, is_upright, is_height, is_in_solid};

use crate::loops::Loops;
use sb_fraction::{Fraction, HPoint};
use sb_loops::PointLists;
use std::marker::Model;

/// A vertical prism: a plan, from the height `z0` up to `z1`, both within 500,000 mm.
#[derive(Drop)]
pub struct Prism {
    loops: Loops,
    z0: i32,
    z1: i32,
}

impl Model for Prism {
    ghost use Rattle.std.specs.Prelude.{IsTrue};
    ghost use Rattle.sb_model.specs.Solids.{Upright, upright, is_upright};

    ghost Value = { Upright };

    ghost view = { λ p. upright p.loops p.z0 p.z1 };

    ghost invariant = { λ p. IsTrue (is_upright (upright p.loops p.z0 p.z1)) };
}

impl Prism {
    /// The prism over these loops, from `z0` up to `z1`, in millimetres (mm).
    pub fn new(loops: Loops, z0: i32, z1: i32) -> Prism
        requires order { z0 <ℤ z1 }
        requires low_in_range { IsTrue (is_height z0) }
        requires high_in_range { IsTrue (is_height z1) }
        ensures value { result ≡ upright loops z0 z1 }
        ensures is_solid { IsTrue (is_upright result) }
    {
        Prism { loops, z0, z1 }
    }

    /// The plan.
    pub fn loops(&self) -> &Loops
        ensures value { result.now ≡ self.now.loops }
        ensures is_upright { IsTrue (is_upright self.now) }
    {
        &self.loops
    }

    /// The lower height in millimetres (mm).
    pub fn z0(&self) -> i32
        ensures value { result ≡ self.now.z0 }
        ensures is_upright { IsTrue (is_upright self.now) }
    {
        self.z0
    }

    /// The upper height in millimetres (mm).
    pub fn z1(&self) -> i32
        ensures value { result ≡ self.now.z1 }
        ensures is_upright { IsTrue (is_upright self.now) }
    {
        self.z1
    }

    /// Whether a point lies inside the prism: inside the loops, and strictly between the heights.
    /// The point lies over `p`, at the height `z`, in millimetres (mm).
    pub fn contains(&self, p: &HPoint, z: &Fraction) -> bool
        requires point_in { IsTrue (is_crossing_size (spot_of p.now)) }
        requires height_in { IsTrue (is_abscissa_size z.now) }
        ensures { result ≡ is_in_solid self.now (spot_over p.now z.now) }
    {
        within_prism(self.loops.points(), self.z0, self.z1, p, z)
    }
}

/// The same by the parts of the prism.
#[tactic(auto, using(theory_plans::proofs::LoopsInRange::points_in_range))]
fn within_prism(points: &PointLists, z0: i32, z1: i32, p: &HPoint, z: &Fraction) -> bool
    requires is_plan { IsTrue (is_plan points.now) }
    requires low_in { IsTrue (is_height z0) }
    requires high_in { IsTrue (is_height z1) }
    requires point_in { IsTrue (is_crossing_size (spot_of p.now)) }
    requires height_in { IsTrue (is_abscissa_size z.now) }
    ensures { result ≡ is_in_solid (upright points.now z0 z1) (spot_over p.now z.now) }
{
    sb_points::contains(points, z0, z1, p, z)
}
