// Placements, axes, points and directions.
ghost use Rattle.sb_schema.specs.Rows as rows;

use crate::attributes::Attributes;
use crate::error::ViewError;
use crate::lists::Texts;
use crate::viewing::Entity;
use std::alloc::Global;

/// IFCLOCALPLACEMENT: where something is placed.
#[derive(Drop)]
pub struct LocalPlacement {
    /// PlacementRelTo: the placement that this one is relative to.
    pub a1: Option<u32>,
    /// RelativePlacement: its axes.
    pub a2: u32,
}

impl<'a> Entity<'a, ()> for LocalPlacement {
    ghost table_row = { rows.local_placement };

    ghost fields = { λ v. (v.a1, (v.a2, tt)) };

    fn read(_memory: (), left: &mut Attributes<'a>) -> Result<Self, ViewError> {
        let a1 = left.reference_or_none()?;
        let a2 = left.reference()?;
        Ok(LocalPlacement { a1, a2 })
    }
}

/// IFCAXIS2PLACEMENT3D: axes in space.
#[derive(Drop)]
pub struct Axis2Placement3d {
    /// Location: their origin.
    pub a1: u32,
    /// Axis: the direction of z.
    pub a2: Option<u32>,
    /// RefDirection: the direction of x.
    pub a3: Option<u32>,
}

impl<'a> Entity<'a, ()> for Axis2Placement3d {
    ghost table_row = { rows.axis2_placement_3d };

    ghost fields = { λ v. (v.a1, (v.a2, (v.a3, tt))) };

    fn read(_memory: (), left: &mut Attributes<'a>) -> Result<Self, ViewError> {
        let a1 = left.reference()?;
        let a2 = left.reference_or_none()?;
        let a3 = left.reference_or_none()?;
        Ok(Axis2Placement3d { a1, a2, a3 })
    }
}

/// IFCAXIS2PLACEMENT2D: axes in a plane.
#[derive(Drop)]
pub struct Axis2Placement2d {
    /// Location: their origin.
    pub a1: u32,
    /// RefDirection: the direction of x.
    pub a2: Option<u32>,
}

impl<'a> Entity<'a, ()> for Axis2Placement2d {
    ghost table_row = { rows.axis2_placement_2d };

    ghost fields = { λ v. (v.a1, (v.a2, tt)) };

    fn read(_memory: (), left: &mut Attributes<'a>) -> Result<Self, ViewError> {
        let a1 = left.reference()?;
        let a2 = left.reference_or_none()?;
        Ok(Axis2Placement2d { a1, a2 })
    }
}

/// IFCCARTESIANPOINT: a point.
#[derive(Drop)]
pub struct CartesianPoint {
    /// Coordinates: two or three lengths, as they stand.
    pub a1: Texts,
}

impl<'a> Entity<'a, Global> for CartesianPoint {
    ghost table_row = { rows.cartesian_point };

    ghost fields = { λ v. (v.a1, tt) };

    fn read(alloc: Global, left: &mut Attributes<'a>) -> Result<Self, ViewError> {
        let a1 = left.coordinates(alloc)?;
        Ok(CartesianPoint { a1 })
    }
}

/// IFCDIRECTION: a direction.
#[derive(Drop)]
pub struct Direction {
    /// DirectionRatios: two or three ratios, as they stand.
    pub a1: Texts,
}

impl<'a> Entity<'a, Global> for Direction {
    ghost table_row = { rows.direction };

    ghost fields = { λ v. (v.a1, tt) };

    fn read(alloc: Global, left: &mut Attributes<'a>) -> Result<Self, ViewError> {
        let a1 = left.coordinates(alloc)?;
        Ok(Direction { a1 })
    }
}
