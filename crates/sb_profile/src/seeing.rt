// An instance is looked at as what is wanted at its place.
ghost use Rattle.std.specs.Prelude.{◌≡◌, find, OnOk};
ghost use Rattle.std.specs.Ordering.{nat_cmp};
ghost use Rattle.std.specs.BTreeSet.{contains};
ghost use Rattle.sb_profile.specs.declared.following.places.Place.TheVariants as place;
ghost use Rattle.sb_profile.specs.Contents.{Contents, Says};
ghost use Rattle.sb_profile.specs.Following.{from};
ghost use Rattle.sb_profile.specs.Steps.Sights.{seen_of};
ghost use Rattle.sb_profile.specs.Steps.Found.{Leads, Finds, AreBodies, shape_fields, shape_leads};

use crate::following::found::{Found, lead_each, lead_to, note, see, see_only};
use crate::following::places::Place;
use crate::reading::kinds::is_one_of;
use crate::sights::{Sight, look};
use sb_schema::{
    ArbitraryClosedProfileDef, ArbitraryProfileDefWithVoids, Axis2Placement2d, Axis2Placement3d,
    CartesianPoint, Direction, ExtrudedAreaSolid, IndexedPolyCurve, LentCartesianPointList2d,
    LentPolyline, LocalPlacement, Material, MaterialLayer, MaterialLayerSet, MaterialLayerSetUsage,
    ProductDefinitionShape, RectangleProfileDef, ShapeRepresentation,
};
use sb_step::StepFile;
use std::alloc::{AllocError, Global};
use std::collections::BTreeSet;

/// Looks at the instance of this number at this place, where these representations are bodies.
pub(crate) fn see_at(
    alloc: Global,
    file: &StepFile<'_>,
    bodies: &BTreeSet<u32>,
    at: Place,
    number: u32,
    found: &mut Found,
) -> Result<(), AllocError>
    ensures { OnOk result ((c : Contents) → Says file.now c
        → Finds (contains nat_cmp bodies.now) c at number found.old found.new) }
{
    match at {
        Place::Placement => see::<LocalPlacement>(alloc, file, number, found),
        Place::Shape => see_shape(alloc, file, bodies, number, found),
        Place::Representation => see_only::<ShapeRepresentation>(alloc, file, number, found),
        Place::Body => see::<ShapeRepresentation>(alloc, file, number, found),
        Place::Solid => see::<ExtrudedAreaSolid>(alloc, file, number, found),
        Place::Profile => see_profile(alloc, file, bodies, number, found),
        Place::Curve => see_curve(alloc, file, bodies, number, found),
        Place::PointList => see_only::<LentCartesianPointList2d>(alloc, file, number, found),
        Place::Position3d => see::<Axis2Placement3d>(alloc, file, number, found),
        Place::Position2d => see::<Axis2Placement2d>(alloc, file, number, found),
        Place::Point => see_only::<CartesianPoint>(alloc, file, number, found),
        Place::Direction => see_only::<Direction>(alloc, file, number, found),
        Place::Material => see_material(alloc, file, bodies, number, found),
        Place::LayerSet => see::<MaterialLayerSet>(alloc, file, number, found),
        Place::Layer => see::<MaterialLayer>(alloc, file, number, found),
        Place::LayerMaterial => see_only::<Material>(alloc, file, number, found),
    }
}

/// A profile is looked at as the one of the three that its keyword names.
fn see_profile(
    alloc: Global,
    file: &StepFile<'_>,
    bodies: &BTreeSet<u32>,
    number: u32,
    found: &mut Found,
) -> Result<(), AllocError>
    ensures { OnOk result ((c : Contents) → Says file.now c
        → Finds (contains nat_cmp bodies.now) c place.Profile number found.old found.new) }
{
    let keyword = file.keyword(number);
    if is_one_of(keyword, &[b"IFCARBITRARYCLOSEDPROFILEDEF"]) {
        see::<ArbitraryClosedProfileDef>(alloc, file, number, found)
    } else if is_one_of(keyword, &[b"IFCARBITRARYPROFILEDEFWITHVOIDS"]) {
        see::<ArbitraryProfileDefWithVoids>(alloc, file, number, found)
    } else {
        see::<RectangleProfileDef>(alloc, file, number, found)
    }
}

fn see_curve(
    alloc: Global,
    file: &StepFile<'_>,
    bodies: &BTreeSet<u32>,
    number: u32,
    found: &mut Found,
) -> Result<(), AllocError>
    ensures { OnOk result ((c : Contents) → Says file.now c
        → Finds (contains nat_cmp bodies.now) c place.Curve number found.old found.new) }
{
    let keyword = file.keyword(number);
    if is_one_of(keyword, &[b"IFCINDEXEDPOLYCURVE"]) {
        see::<IndexedPolyCurve>(alloc, file, number, found)
    } else {
        see::<LentPolyline>(alloc, file, number, found)
    }
}

fn see_material(
    alloc: Global,
    file: &StepFile<'_>,
    bodies: &BTreeSet<u32>,
    number: u32,
    found: &mut Found,
) -> Result<(), AllocError>
    ensures { OnOk result ((c : Contents) → Says file.now c
        → Finds (contains nat_cmp bodies.now) c place.Material number found.old found.new) }
{
    let keyword = file.keyword(number);
    if is_one_of(keyword, &[b"IFCMATERIALLAYERSETUSAGE"]) {
        see::<MaterialLayerSetUsage>(alloc, file, number, found)
    } else if is_one_of(keyword, &[b"IFCMATERIALLAYERSET"]) {
        see::<MaterialLayerSet>(alloc, file, number, found)
    } else {
        see::<Material>(alloc, file, number, found)
    }
}

/// Looks at the representation of this number, unless it is a body: then it is of its row.
pub(crate) fn see_representation(
    alloc: Global,
    file: &StepFile<'_>,
    bodies: &BTreeSet<u32>,
    number: u32,
    found: &mut Found,
) -> Result<(), AllocError>
    ensures { OnOk result ((c : Contents) → Says file.now c
        → AreBodies c (contains nat_cmp bodies.now)
        → Finds (contains nat_cmp bodies.now) c place.Representation number found.old found.new) }
{
    if bodies.contains(&number) {
        return Ok(());
    }
    see_only::<ShapeRepresentation>(alloc, file, number, found)
}

fn see_shape(
    alloc: Global,
    file: &StepFile<'_>,
    bodies: &BTreeSet<u32>,
    number: u32,
    found: &mut Found,
) -> Result<(), AllocError>
    ensures { OnOk result ((c : Contents) → Says file.now c
        → Finds (contains nat_cmp bodies.now) c place.Shape number found.old found.new) }
{
    let sight = look::<ProductDefinitionShape>(alloc, file, number)?;
    note(found, number, &sight);
    push_shape(found, bodies, &sight)?;
    Ok(())
}

/// Appends the representations of a shape, and the first that is a body.
fn push_shape(
    found: &mut Found,
    bodies: &BTreeSet<u32>,
    sight: &Sight<ProductDefinitionShape>,
) -> Result<(), AllocError>
    ensures { OnOk result (Leads (from (seen_of shape_fields sight.now)
        (shape_leads (contains nat_cmp bodies.now))) found.old found.new) }
{
    if let Sight::Of(view) = sight {
        lead_each(found, Place::Representation, view.a3.as_slice())?;
        let body = first_body(bodies, view.a3.as_slice());
        lead_to(found, Place::Body, body)?;
    }
    Ok(())
}

/// The first of these representations that is a body.
fn first_body(bodies: &BTreeSet<u32>, representations: &[u32]) -> Option<u32>
    ensures { result ≡ find (contains nat_cmp bodies.now) representations.now }
{
    representations
        .iter()
        .copied()
        .find(|number| bodies.contains(number))
}
