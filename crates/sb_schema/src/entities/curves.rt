// Curves and lists of points.
ghost use Rattle.sb_schema.specs.Rows as rows;

use crate::attributes::Attributes;
use crate::error::ViewError;
use crate::lent::{LentPairs, LentReferences};
use crate::lists::{Pairs, References, TypedLists};
use crate::viewing::Entity;
use std::alloc::Global;

/// IFCPOLYLINE: a curve through points.
#[derive(Drop)]
pub struct Polyline {
    /// Points: the points.
    pub a1: References,
}

impl<'a> Entity<'a, Global> for Polyline {
    ghost table_row = { rows.polyline };

    ghost fields = { λ v. (v.a1, tt) };

    fn read(alloc: Global, left: &mut Attributes<'a>) -> Result<Self, ViewError> {
        let a1 = left.references(alloc)?;
        Ok(Polyline { a1 })
    }
}

/// IFCINDEXEDPOLYCURVE: a curve through points of a list.
#[derive(Drop)]
pub struct IndexedPolyCurve {
    /// Points: the list.
    pub a1: u32,
    /// Segments: in which order they are taken.
    pub a2: Option<TypedLists>,
}

impl<'a> Entity<'a, Global> for IndexedPolyCurve {
    ghost table_row = { rows.indexed_poly_curve };

    ghost fields = { λ v. (v.a1, (v.a2, tt)) };

    fn read(alloc: Global, left: &mut Attributes<'a>) -> Result<Self, ViewError> {
        let a1 = left.reference()?;
        let a2 = left.typed_lists_or_none(alloc)?;
        left.has(1)?;
        Ok(IndexedPolyCurve { a1, a2 })
    }
}

/// IFCCARTESIANPOINTLIST2D: points in a plane.
#[derive(Drop)]
pub struct CartesianPointList2d {
    /// CoordList: two lengths of each, as they stand.
    pub a1: Pairs,
}

impl<'a> Entity<'a, Global> for CartesianPointList2d {
    ghost table_row = { rows.cartesian_point_list_2d };

    ghost fields = { λ v. (v.a1, tt) };

    fn read(alloc: Global, left: &mut Attributes<'a>) -> Result<Self, ViewError> {
        let a1 = left.pairs(alloc)?;
        Ok(CartesianPointList2d { a1 })
    }
}

/// IFCPOLYLINE, whose points are gone over.
#[derive(Drop)]
pub struct LentPolyline<'a> {
    /// Points: the points.
    pub a1: LentReferences<'a>,
}

impl<'a> Entity<'a, ()> for LentPolyline<'a> {
    ghost table_row = { rows.polyline };

    ghost fields = { λ v. (v.a1, tt) };

    fn read(_memory: (), left: &mut Attributes<'a>) -> Result<Self, ViewError> {
        let a1 = left.lent_references()?;
        Ok(LentPolyline { a1 })
    }
}

/// IFCCARTESIANPOINTLIST2D, whose points are gone over.
#[derive(Drop)]
pub struct LentCartesianPointList2d<'a> {
    /// CoordList: two lengths of each, as they stand.
    pub a1: LentPairs<'a>,
}

impl<'a> Entity<'a, ()> for LentCartesianPointList2d<'a> {
    ghost table_row = { rows.cartesian_point_list_2d };

    ghost fields = { λ v. (v.a1, tt) };

    fn read(_memory: (), left: &mut Attributes<'a>) -> Result<Self, ViewError> {
        let a1 = left.lent_pairs()?;
        Ok(LentCartesianPointList2d { a1 })
    }
}
