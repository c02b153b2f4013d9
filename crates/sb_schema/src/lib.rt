//! Typed views of the entities of an exchange text (ISO 10303-21) that are read: of each its
//! attributes, by position, as one table of the entities of IFC4 (ISO 16739) says.
//!
//! Read `specs/Rows.antt` first, the table, and `specs/Forms.antt`, which parameters are of a form.
//! `specs/Views.antt` says when a view answers what.
#![tactic(auto)]

mod attributes;
mod entities;
mod error;
mod lent;
mod lists;
mod viewing;
mod views;

pub use crate::entities::curves::{
    CartesianPointList2d, IndexedPolyCurve, LentCartesianPointList2d, LentPolyline, Polyline,
};
pub use crate::entities::materials::{
    Material, MaterialLayer, MaterialLayerSet, MaterialLayerSetUsage,
};
pub use crate::entities::placements::{
    Axis2Placement2d, Axis2Placement3d, CartesianPoint, Direction, LocalPlacement,
};
pub use crate::entities::products::{Building, OpeningFilling, Product, Space};
pub use crate::entities::profiles::{
    ArbitraryClosedProfileDef, ArbitraryProfileDefWithVoids, RectangleProfileDef,
};
pub use crate::entities::relations::{
    LentRelAssociatesMaterial, LentRelDefinesByType, RelAssociatesMaterial, RelDefinesByType,
    RelFillsElement, RelVoidsElement,
};
pub use crate::entities::shapes::{ExtrudedAreaSolid, ProductDefinitionShape, ShapeRepresentation};
pub use crate::error::ViewError;
pub use crate::lent::{LentPairs, LentReferences};
pub use crate::lists::{Pairs, References, Texts, TypedList, TypedLists};
pub use crate::views::{
    arbitrary_closed_profile_def, arbitrary_profile_def_with_voids, axis2_placement_2d,
    axis2_placement_3d, building, cartesian_point, cartesian_point_list_2d, direction,
    extruded_area_solid, indexed_poly_curve, lent_cartesian_point_list_2d, lent_polyline,
    lent_rel_associates_material, lent_rel_defines_by_type, local_placement, material,
    material_layer, material_layer_set, material_layer_set_usage, opening_filling, polyline,
    product, product_definition_shape, rectangle_profile_def, rel_associates_material,
    rel_defines_by_type, rel_fills_element, rel_voids_element, shape_representation, space,
};
