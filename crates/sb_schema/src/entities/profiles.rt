// Profiles.
ghost use Rattle.sb_schema.specs.Rows as rows;

use crate::attributes::Attributes;
use crate::error::ViewError;
use crate::lists::References;
use crate::viewing::Entity;
use sb_list::Text;
use std::alloc::Global;

/// IFCRECTANGLEPROFILEDEF: a rectangle about its position.
#[derive(Drop)]
pub struct RectangleProfileDef {
    /// Position: its axes.
    pub a3: Option<u32>,
    /// XDim: its size along x, as it stands.
    pub a4: Text,
    /// YDim: its size along y, as it stands.
    pub a5: Text,
}

impl<'a> Entity<'a, Global> for RectangleProfileDef {
    ghost table_row = { rows.rectangle_profile_def };

    ghost fields = { λ v. (v.a3, (v.a4, (v.a5, tt))) };

    fn read(alloc: Global, left: &mut Attributes<'a>) -> Result<Self, ViewError> {
        left.skip(2);
        let a3 = left.reference_or_none()?;
        let a4 = left.number(alloc)?;
        let a5 = left.number(alloc)?;
        Ok(RectangleProfileDef { a3, a4, a5 })
    }
}

/// IFCARBITRARYCLOSEDPROFILEDEF: what lies inside a curve.
#[derive(Drop)]
pub struct ArbitraryClosedProfileDef {
    /// OuterCurve: the curve.
    pub a3: u32,
}

impl<'a> Entity<'a, ()> for ArbitraryClosedProfileDef {
    ghost table_row = { rows.arbitrary_closed_profile_def };

    ghost fields = { λ v. (v.a3, tt) };

    fn read(_memory: (), left: &mut Attributes<'a>) -> Result<Self, ViewError> {
        left.skip(2);
        let a3 = left.reference()?;
        Ok(ArbitraryClosedProfileDef { a3 })
    }
}

/// IFCARBITRARYPROFILEDEFWITHVOIDS: what lies inside a curve and outside of others.
#[derive(Drop)]
pub struct ArbitraryProfileDefWithVoids {
    /// OuterCurve: the curve.
    pub a3: u32,
    /// InnerCurves: the others.
    pub a4: References,
}

impl<'a> Entity<'a, Global> for ArbitraryProfileDefWithVoids {
    ghost table_row = { rows.arbitrary_profile_def_with_voids };

    ghost fields = { λ v. (v.a3, (v.a4, tt)) };

    fn read(alloc: Global, left: &mut Attributes<'a>) -> Result<Self, ViewError> {
        left.skip(2);
        let a3 = left.reference()?;
        let a4 = left.references(alloc)?;
        Ok(ArbitraryProfileDefWithVoids { a3, a4 })
    }
}
