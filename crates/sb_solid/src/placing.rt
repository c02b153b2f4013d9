// Where the coordinates of a solid lie, and its prism.
ghost use Rattle.std.specs.Prelude.{◌≡◌, ◌≤◌, ◌+ℤ◌, ◌&&◌, ◌^◌, ℤ, List, not, false, unsigned_abs};
ghost use Rattle.std.specs.List.{list_all};
ghost use Rattle.sb_fraction.specs.Spots.{vector};
ghost use Rattle.sb_model.specs.Frames.{vector_of};
ghost use Rattle.sb_solid.specs.Grid as grid;
ghost use Rattle.sb_solid.specs.Solids as solids;
ghost use Rattle.sb_solid.specs.Spans as spans;
ghost use Rattle.sb_solid.specs.Steps.{vector_at, wide_at};
ghost use Rattle.sb_solid.specs.Judged as spec;
ghost use Rattle.sb_solid.specs.Moving as moving;

use crate::counting::{anchor, step};
use crate::error::SolidError;
use crate::moving::{Displacement, moved};
use crate::points::lying::wide;
use crate::points::sizes::{Lying, Wide};
use crate::spans::{Span, are_in_world, are_near};
use sb_model::Prism;
use std::alloc::Global;

/// The spans of the three coordinates of a solid with points, its prism counted from its anchors, where it has
/// one, and how many points that has.
#[derive(Drop)]
pub(crate) struct Placing {
    pub(crate) x: Span,
    pub(crate) y: Span,
    pub(crate) z: Span,
    pub(crate) prism: Option<Prism>,
    pub(crate) points: usize,
}

impl Placing {
    /// Whether all points are in range at both ends where they are moved by this shift.
    pub(crate) fn are_in_world(&self, shift: Wide, way: Lying) -> bool
        ensures { (e : solids.Extruded) → spec.AreSpansOf e.loops self.now → vector_at way ≡ e.way
            → solids.is_beyond e (wide_at shift) ≡ not result }
    {
        let x = are_both_in_world(self.x, shift.x, way.x);
        let y = are_both_in_world(self.y, shift.y, way.y);
        let z = are_both_in_world(self.z, shift.z, way.z);
        all(x, y, z)
    }

    /// Whether all lie near whole millimetres.
    pub(crate) fn are_near(&self, shift: Wide, way: Lying) -> bool
        ensures { (e : solids.Extruded) → spec.AreSpansOf e.loops self.now → vector_at way ≡ e.way
            → solids.is_off_grid e (wide_at shift) ≡ not result }
    {
        let x = are_both_near(self.x, shift.x, way.x);
        let y = are_both_near(self.y, shift.y, way.y);
        let z = are_both_near(self.z, shift.z, way.z);
        all(x, y, z)
    }

    /// The prism where the solid is moved by this shift; `Loops` exactly where it has none.
    pub(crate) fn moved(
        &self,
        alloc: Global,
        shift: [i128; 3],
        way: Lying,
    ) -> Result<Prism, SolidError>
        ensures { (e : solids.Extruded) → spec.IsPlacingOf e self.now → vector_at way ≡ e.way
            → solids.is_beyond e (vector_of shift) ≡ false → solids.is_off_grid e (vector_of shift) ≡ false
            → solids.JudgesAt e (vector_of shift) result }
    {
        let Some(shift) = wide(shift) else {
            return Err(SolidError::Loops);
        };
        match &self.prism {
            Some(prism) => moved(alloc, prism, self.steps(shift, way)),
            None => Err(SolidError::Loops),
        }
    }

    /// How far the prism is moved from its anchors.
    fn steps(&self, shift: Wide, way: Lying) -> Displacement
        ensures value { moving.steps_at result ≡ spec.steps_of (spec.anchor_at self.now (vector_at way)) (wide_at shift) }
        ensures few { moving.AreFew result }
    {
        let anchors = anchors_of(self.x, self.y, self.z, way);
        Displacement {
            x: step(anchors.x, shift.x),
            y: step(anchors.y, shift.y),
            z: step(anchors.z, shift.z),
        }
    }
}

fn both(a: bool, b: bool) -> bool
    ensures { result ≡ (a && b) }
{
    a && b
}

fn all(a: bool, b: bool, c: bool) -> bool
    ensures { result ≡ (a && (b && c)) }
{
    a && b && c
}

fn further(way: i128, shift: i128) -> i128
    requires way_in { unsigned_abs way ≤ 10 ^ 18 }
    requires shift_in { unsigned_abs shift ≤ 2 ^ 61 }
    ensures value { result ≡ way +ℤ shift }
    ensures small { unsigned_abs result ≤ 2 ^ 64 }
{
    way + shift
}

fn are_both_in_world(span: Span, shift: i128, way: i128) -> bool
    requires shift_in { unsigned_abs shift ≤ 2 ^ 61 }
    requires way_in { unsigned_abs way ≤ 10 ^ 18 }
    ensures { (numbers : List ℤ) → spans.IsSpanOf numbers span
        → result ≡ (list_all (λ n. grid.is_in_world (n +ℤ shift)) numbers && list_all (λ n. grid.is_in_world (n +ℤ (way +ℤ shift))) numbers) }
{
    let near = are_in_world(span, shift);
    both(near, are_in_world(span, further(way, shift)))
}

fn are_both_near(span: Span, shift: i128, way: i128) -> bool
    requires shift_in { unsigned_abs shift ≤ 2 ^ 61 }
    requires way_in { unsigned_abs way ≤ 10 ^ 18 }
    ensures { (numbers : List ℤ) → spans.IsSpanOf numbers span
        → result ≡ (list_all (λ n. grid.is_near (n +ℤ shift)) numbers && list_all (λ n. grid.is_near (n +ℤ (way +ℤ shift))) numbers) }
{
    let near = are_near(span, shift);
    both(near, are_near(span, further(way, shift)))
}

/// The anchors of the three coordinates.
pub(crate) fn anchors_of(x: Span, y: Span, z: Span, way: Lying) -> Wide
    ensures { wide_at result
        ≡ vector (spec.anchor_of x.reach.low way.x) (spec.anchor_of y.reach.low way.y) (spec.anchor_of z.reach.low way.z) }
{
    Wide {
        x: anchor(x.reach.low, way.x),
        y: anchor(y.reach.low, way.y),
        z: anchor(z.reach.low, way.z),
    }
}
