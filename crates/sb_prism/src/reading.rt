// Instances as they are read, one by one.
ghost use Rattle.std.specs.Prelude.{IfOk};
ghost use Rattle.sb_schema.specs.Rows as rows;
ghost use Rattle.sb_place.specs.Sight.{IsSeen};
ghost use Rattle.sb_place.specs.Positions as position;
ghost use Rattle.sb_prism.specs.Shapes as shapes;

use sb_place::{Seen, sighted};
use sb_schema::{
    ArbitraryClosedProfileDef, ArbitraryProfileDefWithVoids, CartesianPoint, Direction,
    ExtrudedAreaSolid, IndexedPolyCurve, LentCartesianPointList2d, LentPolyline,
    ProductDefinitionShape, RectangleProfileDef, ShapeRepresentation, Texts,
    arbitrary_closed_profile_def, arbitrary_profile_def_with_voids, cartesian_point, direction,
    extruded_area_solid, indexed_poly_curve, lent_cartesian_point_list_2d, lent_polyline,
    product_definition_shape, rectangle_profile_def, shape_representation,
};
use sb_step::StepFile;
use std::alloc::{AllocError, Global};

/// The coordinates of the point of this number.
pub(crate) fn point_at(
    alloc: Global,
    file: &StepFile<'_>,
    number: u32,
) -> Result<Seen<Texts>, AllocError>
    ensures { IfOk result (λ texts. position.IsPoint file.now number texts) }
{
    match point_seen(alloc, file, number)? {
        Seen::Absent(n) => Ok(Seen::Absent(n)),
        Seen::Broken(n) => Ok(Seen::Broken(n)),
        Seen::Other => Ok(Seen::Other),
        Seen::Shown(point) => Ok(Seen::Shown(point.a1)),
    }
}

/// The ratios of the direction of this number.
pub(crate) fn direction_at(
    alloc: Global,
    file: &StepFile<'_>,
    number: u32,
) -> Result<Seen<Texts>, AllocError>
    ensures { IfOk result (λ texts. position.IsDirection file.now number texts) }
{
    match direction_seen(alloc, file, number)? {
        Seen::Absent(n) => Ok(Seen::Absent(n)),
        Seen::Broken(n) => Ok(Seen::Broken(n)),
        Seen::Other => Ok(Seen::Other),
        Seen::Shown(direction) => Ok(Seen::Shown(direction.a1)),
    }
}

fn point_seen(
    alloc: Global,
    file: &StepFile<'_>,
    number: u32,
) -> Result<Seen<CartesianPoint>, AllocError>
    ensures { IfOk result (λ s. IsSeen rows.cartesian_point file.now number (λ v. (v.a1, tt)) s) }
{
    let view = cartesian_point(alloc, file, number);
    sighted(view)
}

fn direction_seen(
    alloc: Global,
    file: &StepFile<'_>,
    number: u32,
) -> Result<Seen<Direction>, AllocError>
    ensures { IfOk result (λ s. IsSeen rows.direction file.now number (λ v. (v.a1, tt)) s) }
{
    let view = direction(alloc, file, number);
    sighted(view)
}

/// What is seen of an IfcPolyline, kept in the text.
pub(crate) fn polyline_seen<'a>(
    file: &StepFile<'a>,
    number: u32,
) -> Result<Seen<LentPolyline<'a>>, AllocError>
    ensures { IfOk result (λ s. IsSeen rows.polyline file.now number (λ v. (v.a1, tt)) s) }
{
    let view = lent_polyline(file, number);
    sighted(view)
}

/// What is seen of an IfcIndexedPolyCurve.
pub(crate) fn indexed_seen(
    alloc: Global,
    file: &StepFile<'_>,
    number: u32,
) -> Result<Seen<IndexedPolyCurve>, AllocError>
    ensures { IfOk result (λ s. IsSeen rows.indexed_poly_curve file.now number (λ v. (v.a1, (v.a2, tt))) s) }
{
    let view = indexed_poly_curve(alloc, file, number);
    sighted(view)
}

/// What is seen of an IfcCartesianPointList2D, kept in the text.
pub(crate) fn list_seen<'a>(
    file: &StepFile<'a>,
    number: u32,
) -> Result<Seen<LentCartesianPointList2d<'a>>, AllocError>
    ensures { IfOk result (λ s. IsSeen rows.cartesian_point_list_2d file.now number (λ v. (v.a1, tt)) s) }
{
    let view = lent_cartesian_point_list_2d(file, number);
    sighted(view)
}

/// What is seen of an IfcRectangleProfileDef.
pub(crate) fn rectangle_seen(
    alloc: Global,
    file: &StepFile<'_>,
    number: u32,
) -> Result<Seen<RectangleProfileDef>, AllocError>
    ensures { IfOk result (λ s. IsSeen rows.rectangle_profile_def file.now number
        (λ v. (v.a3, (v.a4, (v.a5, tt)))) s) }
{
    let view = rectangle_profile_def(alloc, file, number);
    sighted(view)
}

/// What is seen of an IfcArbitraryClosedProfileDef.
pub(crate) fn closed_seen(
    file: &StepFile<'_>,
    number: u32,
) -> Result<Seen<ArbitraryClosedProfileDef>, AllocError>
    ensures { IfOk result (λ s. IsSeen rows.arbitrary_closed_profile_def file.now number (λ v. (v.a3, tt)) s) }
{
    let view = arbitrary_closed_profile_def(file, number);
    sighted(view)
}

/// What is seen of an IfcArbitraryProfileDefWithVoids.
pub(crate) fn voided_seen(
    alloc: Global,
    file: &StepFile<'_>,
    number: u32,
) -> Result<Seen<ArbitraryProfileDefWithVoids>, AllocError>
    ensures { IfOk result (λ s. IsSeen rows.arbitrary_profile_def_with_voids file.now number
        (λ v. (v.a3, (v.a4, tt))) s) }
{
    let view = arbitrary_profile_def_with_voids(alloc, file, number);
    sighted(view)
}

/// What is seen of an IfcExtrudedAreaSolid.
pub(crate) fn solid_seen(
    alloc: Global,
    file: &StepFile<'_>,
    number: u32,
) -> Result<Seen<ExtrudedAreaSolid>, AllocError>
    ensures { IfOk result (λ s. IsSeen rows.extruded_area_solid file.now number
        (λ v. (v.a1, (v.a2, (v.a3, (v.a4, tt))))) s) }
{
    let view = extruded_area_solid(alloc, file, number);
    sighted(view)
}

/// What is seen of an IfcProductDefinitionShape.
pub(crate) fn shape_seen(
    alloc: Global,
    file: &StepFile<'_>,
    number: u32,
) -> Result<Seen<ProductDefinitionShape>, AllocError>
    ensures { IfOk result (λ s. IsSeen rows.product_definition_shape file.now number (λ v. (v.a3, tt)) s) }
{
    let view = product_definition_shape(alloc, file, number);
    sighted(view)
}

/// What is seen of an IfcShapeRepresentation.
pub(crate) fn representation_at(
    alloc: Global,
    file: &StepFile<'_>,
    number: u32,
) -> Result<Seen<ShapeRepresentation>, AllocError>
    ensures { IfOk result (λ s. shapes.IsRepresentation file.now number s) }
{
    let view = shape_representation(alloc, file, number);
    sighted(view)
}
