// The views, a function for each row of the table, in its order.
ghost use Rattle.sb_schema.specs.Rows as rows;
ghost use Rattle.sb_schema.specs.Views.{Views};
ghost use Rattle.sb_schema.specs.Views.Taking.{with_memory, without_memory};

use crate::entities::curves::{
    CartesianPointList2d, IndexedPolyCurve, LentCartesianPointList2d, LentPolyline, Polyline,
};
use crate::entities::materials::{
    Material, MaterialLayer, MaterialLayerSet, MaterialLayerSetUsage,
};
use crate::entities::placements::{
    Axis2Placement2d, Axis2Placement3d, CartesianPoint, Direction, LocalPlacement,
};
use crate::entities::products::{Building, OpeningFilling, Product, Space};
use crate::entities::profiles::{
    ArbitraryClosedProfileDef, ArbitraryProfileDefWithVoids, RectangleProfileDef,
};
use crate::entities::relations::{
    LentRelAssociatesMaterial, LentRelDefinesByType, RelAssociatesMaterial, RelDefinesByType,
    RelFillsElement, RelVoidsElement,
};
use crate::entities::shapes::{ExtrudedAreaSolid, ProductDefinitionShape, ShapeRepresentation};
use crate::error::ViewError;
use crate::viewing::view;
use sb_step::StepFile;
use std::alloc::Global;

/// The view of an IFCBUILDING.
pub fn building(file: &StepFile<'_>, number: u32) -> Result<Building, ViewError>
    ensures { Views without_memory rows.building (λ v. (v.a6, tt)) file.now number result }
{
    view((), file, number, &[b"IFCBUILDING"])
}

/// The view of an IFCSPACE.
pub fn space(alloc: Global, file: &StepFile<'_>, number: u32) -> Result<Space, ViewError>
    ensures { Views with_memory rows.space (λ v. (v.a1, (v.a6, (v.a7, tt))))
        file.now number result }
{
    view(alloc, file, number, &[b"IFCSPACE"])
}

/// The view of a wall, slab, roof, column, beam, covering or opening.
pub fn product(file: &StepFile<'_>, number: u32) -> Result<Product, ViewError>
    ensures { Views without_memory rows.product (λ v. (v.a6, (v.a7, tt))) file.now number result }
{
    view(
        (),
        file,
        number,
        &[
            b"IFCWALL",
            b"IFCWALLSTANDARDCASE",
            b"IFCSLAB",
            b"IFCROOF",
            b"IFCCOLUMN",
            b"IFCBEAM",
            b"IFCCOVERING",
            b"IFCOPENINGELEMENT",
        ],
    )
}

/// The view of an IFCDOOR or IFCWINDOW.
pub fn opening_filling(file: &StepFile<'_>, number: u32) -> Result<OpeningFilling, ViewError>
    ensures { Views without_memory rows.opening_filling (λ _. tt) file.now number result }
{
    view((), file, number, &[b"IFCDOOR", b"IFCWINDOW"])
}

/// The view of an IFCLOCALPLACEMENT.
pub fn local_placement(file: &StepFile<'_>, number: u32) -> Result<LocalPlacement, ViewError>
    ensures { Views without_memory rows.local_placement (λ v. (v.a1, (v.a2, tt)))
        file.now number result }
{
    view((), file, number, &[b"IFCLOCALPLACEMENT"])
}

/// The view of an IFCAXIS2PLACEMENT3D.
pub fn axis2_placement_3d(file: &StepFile<'_>, number: u32) -> Result<Axis2Placement3d, ViewError>
    ensures { Views without_memory rows.axis2_placement_3d (λ v. (v.a1, (v.a2, (v.a3, tt))))
        file.now number result }
{
    view((), file, number, &[b"IFCAXIS2PLACEMENT3D"])
}

/// The view of an IFCAXIS2PLACEMENT2D.
pub fn axis2_placement_2d(file: &StepFile<'_>, number: u32) -> Result<Axis2Placement2d, ViewError>
    ensures { Views without_memory rows.axis2_placement_2d (λ v. (v.a1, (v.a2, tt)))
        file.now number result }
{
    view((), file, number, &[b"IFCAXIS2PLACEMENT2D"])
}

/// The view of an IFCCARTESIANPOINT.
pub fn cartesian_point(
    alloc: Global,
    file: &StepFile<'_>,
    number: u32,
) -> Result<CartesianPoint, ViewError>
    ensures { Views with_memory rows.cartesian_point (λ v. (v.a1, tt)) file.now number result }
{
    view(alloc, file, number, &[b"IFCCARTESIANPOINT"])
}

/// The view of an IFCDIRECTION.
pub fn direction(alloc: Global, file: &StepFile<'_>, number: u32) -> Result<Direction, ViewError>
    ensures { Views with_memory rows.direction (λ v. (v.a1, tt)) file.now number result }
{
    view(alloc, file, number, &[b"IFCDIRECTION"])
}

/// The view of an IFCPRODUCTDEFINITIONSHAPE.
pub fn product_definition_shape(
    alloc: Global,
    file: &StepFile<'_>,
    number: u32,
) -> Result<ProductDefinitionShape, ViewError>
    ensures { Views with_memory rows.product_definition_shape (λ v. (v.a3, tt))
        file.now number result }
{
    view(alloc, file, number, &[b"IFCPRODUCTDEFINITIONSHAPE"])
}

/// The view of an IFCSHAPEREPRESENTATION.
pub fn shape_representation(
    alloc: Global,
    file: &StepFile<'_>,
    number: u32,
) -> Result<ShapeRepresentation, ViewError>
    ensures { Views with_memory rows.shape_representation (λ v. (v.a2, (v.a4, tt)))
        file.now number result }
{
    view(alloc, file, number, &[b"IFCSHAPEREPRESENTATION"])
}

/// The view of an IFCEXTRUDEDAREASOLID.
pub fn extruded_area_solid(
    alloc: Global,
    file: &StepFile<'_>,
    number: u32,
) -> Result<ExtrudedAreaSolid, ViewError>
    ensures { Views with_memory rows.extruded_area_solid (λ v. (v.a1, (v.a2, (v.a3, (v.a4, tt)))))
        file.now number result }
{
    view(alloc, file, number, &[b"IFCEXTRUDEDAREASOLID"])
}

/// The view of an IFCRECTANGLEPROFILEDEF.
pub fn rectangle_profile_def(
    alloc: Global,
    file: &StepFile<'_>,
    number: u32,
) -> Result<RectangleProfileDef, ViewError>
    ensures { Views with_memory rows.rectangle_profile_def (λ v. (v.a3, (v.a4, (v.a5, tt))))
        file.now number result }
{
    view(alloc, file, number, &[b"IFCRECTANGLEPROFILEDEF"])
}

/// The view of an IFCARBITRARYCLOSEDPROFILEDEF.
pub fn arbitrary_closed_profile_def(
    file: &StepFile<'_>,
    number: u32,
) -> Result<ArbitraryClosedProfileDef, ViewError>
    ensures { Views without_memory rows.arbitrary_closed_profile_def (λ v. (v.a3, tt))
        file.now number result }
{
    view((), file, number, &[b"IFCARBITRARYCLOSEDPROFILEDEF"])
}

/// The view of an IFCARBITRARYPROFILEDEFWITHVOIDS.
pub fn arbitrary_profile_def_with_voids(
    alloc: Global,
    file: &StepFile<'_>,
    number: u32,
) -> Result<ArbitraryProfileDefWithVoids, ViewError>
    ensures { Views with_memory rows.arbitrary_profile_def_with_voids (λ v. (v.a3, (v.a4, tt)))
        file.now number result }
{
    view(alloc, file, number, &[b"IFCARBITRARYPROFILEDEFWITHVOIDS"])
}

/// The view of an IFCPOLYLINE.
pub fn polyline(alloc: Global, file: &StepFile<'_>, number: u32) -> Result<Polyline, ViewError>
    ensures { Views with_memory rows.polyline (λ v. (v.a1, tt)) file.now number result }
{
    view(alloc, file, number, &[b"IFCPOLYLINE"])
}

/// The view of an IFCINDEXEDPOLYCURVE.
pub fn indexed_poly_curve(
    alloc: Global,
    file: &StepFile<'_>,
    number: u32,
) -> Result<IndexedPolyCurve, ViewError>
    ensures { Views with_memory rows.indexed_poly_curve (λ v. (v.a1, (v.a2, tt)))
        file.now number result }
{
    view(alloc, file, number, &[b"IFCINDEXEDPOLYCURVE"])
}

/// The view of an IFCCARTESIANPOINTLIST2D.
pub fn cartesian_point_list_2d(
    alloc: Global,
    file: &StepFile<'_>,
    number: u32,
) -> Result<CartesianPointList2d, ViewError>
    ensures { Views with_memory rows.cartesian_point_list_2d (λ v. (v.a1, tt))
        file.now number result }
{
    view(alloc, file, number, &[b"IFCCARTESIANPOINTLIST2D"])
}

/// The view of an IFCRELVOIDSELEMENT.
pub fn rel_voids_element(file: &StepFile<'_>, number: u32) -> Result<RelVoidsElement, ViewError>
    ensures { Views without_memory rows.rel_voids_element (λ v. (v.a5, (v.a6, tt)))
        file.now number result }
{
    view((), file, number, &[b"IFCRELVOIDSELEMENT"])
}

/// The view of an IFCRELFILLSELEMENT.
pub fn rel_fills_element(file: &StepFile<'_>, number: u32) -> Result<RelFillsElement, ViewError>
    ensures { Views without_memory rows.rel_fills_element (λ v. (v.a5, (v.a6, tt)))
        file.now number result }
{
    view((), file, number, &[b"IFCRELFILLSELEMENT"])
}

/// The view of an IFCRELASSOCIATESMATERIAL.
pub fn rel_associates_material(
    alloc: Global,
    file: &StepFile<'_>,
    number: u32,
) -> Result<RelAssociatesMaterial, ViewError>
    ensures { Views with_memory rows.rel_associates_material (λ v. (v.a5, (v.a6, tt)))
        file.now number result }
{
    view(alloc, file, number, &[b"IFCRELASSOCIATESMATERIAL"])
}

/// The view of an IFCRELDEFINESBYTYPE.
pub fn rel_defines_by_type(
    alloc: Global,
    file: &StepFile<'_>,
    number: u32,
) -> Result<RelDefinesByType, ViewError>
    ensures { Views with_memory rows.rel_defines_by_type (λ v. (v.a5, (v.a6, tt)))
        file.now number result }
{
    view(alloc, file, number, &[b"IFCRELDEFINESBYTYPE"])
}

/// The view of an IFCMATERIAL.
pub fn material(alloc: Global, file: &StepFile<'_>, number: u32) -> Result<Material, ViewError>
    ensures { Views with_memory rows.material (λ v. (v.a1, tt)) file.now number result }
{
    view(alloc, file, number, &[b"IFCMATERIAL"])
}

/// The view of an IFCMATERIALLAYER.
pub fn material_layer(
    alloc: Global,
    file: &StepFile<'_>,
    number: u32,
) -> Result<MaterialLayer, ViewError>
    ensures { Views with_memory rows.material_layer (λ v. (v.a1, (v.a2, tt)))
        file.now number result }
{
    view(alloc, file, number, &[b"IFCMATERIALLAYER"])
}

/// The view of an IFCMATERIALLAYERSET.
pub fn material_layer_set(
    alloc: Global,
    file: &StepFile<'_>,
    number: u32,
) -> Result<MaterialLayerSet, ViewError>
    ensures { Views with_memory rows.material_layer_set (λ v. (v.a1, tt)) file.now number result }
{
    view(alloc, file, number, &[b"IFCMATERIALLAYERSET"])
}

/// The view of an IFCMATERIALLAYERSETUSAGE.
pub fn material_layer_set_usage(
    alloc: Global,
    file: &StepFile<'_>,
    number: u32,
) -> Result<MaterialLayerSetUsage, ViewError>
    ensures { Views with_memory rows.material_layer_set_usage (λ v. (v.a1, (v.a2, (v.a3, tt))))
        file.now number result }
{
    view(alloc, file, number, &[b"IFCMATERIALLAYERSETUSAGE"])
}

/// The view of an IFCPOLYLINE, kept in the text.
pub fn lent_polyline<'a>(file: &StepFile<'a>, number: u32) -> Result<LentPolyline<'a>, ViewError>
    ensures { Views without_memory rows.polyline (λ v. (v.a1, tt)) file.now number result }
{
    view((), file, number, &[b"IFCPOLYLINE"])
}

/// The view of an IFCCARTESIANPOINTLIST2D, kept in the text.
pub fn lent_cartesian_point_list_2d<'a>(
    file: &StepFile<'a>,
    number: u32,
) -> Result<LentCartesianPointList2d<'a>, ViewError>
    ensures { Views without_memory rows.cartesian_point_list_2d (λ v. (v.a1, tt))
        file.now number result }
{
    view((), file, number, &[b"IFCCARTESIANPOINTLIST2D"])
}

/// The view of an IFCRELASSOCIATESMATERIAL, kept in the text.
pub fn lent_rel_associates_material<'a>(
    file: &StepFile<'a>,
    number: u32,
) -> Result<LentRelAssociatesMaterial<'a>, ViewError>
    ensures { Views without_memory rows.rel_associates_material (λ v. (v.a5, (v.a6, tt)))
        file.now number result }
{
    view((), file, number, &[b"IFCRELASSOCIATESMATERIAL"])
}

/// The view of an IFCRELDEFINESBYTYPE, kept in the text.
pub fn lent_rel_defines_by_type<'a>(
    file: &StepFile<'a>,
    number: u32,
) -> Result<LentRelDefinesByType<'a>, ViewError>
    ensures { Views without_memory rows.rel_defines_by_type (λ v. (v.a5, (v.a6, tt)))
        file.now number result }
{
    view((), file, number, &[b"IFCRELDEFINESBYTYPE"])
}
