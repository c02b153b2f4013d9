// Each view as a text, and each asked for by its row.
use crate::views::shown::{Show, tell};
use sb_schema::{
    ArbitraryClosedProfileDef, ArbitraryProfileDefWithVoids, Axis2Placement2d, Axis2Placement3d,
    Building, CartesianPoint, CartesianPointList2d, Direction, ExtrudedAreaSolid, IndexedPolyCurve,
    LocalPlacement, Material, MaterialLayer, MaterialLayerSet, MaterialLayerSetUsage,
    OpeningFilling, Polyline, Product, ProductDefinitionShape, RectangleProfileDef,
    RelAssociatesMaterial, RelDefinesByType, RelFillsElement, RelVoidsElement, ShapeRepresentation,
    Space, arbitrary_closed_profile_def, arbitrary_profile_def_with_voids, axis2_placement_2d,
    axis2_placement_3d, building, cartesian_point, cartesian_point_list_2d, direction,
    extruded_area_solid, indexed_poly_curve, local_placement, material, material_layer,
    material_layer_set, material_layer_set_usage, opening_filling, polyline, product,
    product_definition_shape, rectangle_profile_def, rel_associates_material, rel_defines_by_type,
    rel_fills_element, rel_voids_element, shape_representation, space,
};
use sb_step::{StepError, StepFile, index};
use std::alloc::{AllocError, Global};

impl Show for Building {
    fn show(&self, text: &mut Vec<u8>) -> Result<(), AllocError> {
        self.a6.show(text)?;
        Ok(())
    }
}

impl Show for Space {
    fn show(&self, text: &mut Vec<u8>) -> Result<(), AllocError> {
        self.a1.show(text)?;
        text.push(b' ')?;
        self.a6.show(text)?;
        text.push(b' ')?;
        self.a7.show(text)?;
        Ok(())
    }
}

impl Show for Product {
    fn show(&self, text: &mut Vec<u8>) -> Result<(), AllocError> {
        self.a6.show(text)?;
        text.push(b' ')?;
        self.a7.show(text)?;
        Ok(())
    }
}

impl Show for OpeningFilling {
    fn show(&self, _text: &mut Vec<u8>) -> Result<(), AllocError> {
        Ok(())
    }
}

impl Show for LocalPlacement {
    fn show(&self, text: &mut Vec<u8>) -> Result<(), AllocError> {
        self.a1.show(text)?;
        text.push(b' ')?;
        self.a2.show(text)?;
        Ok(())
    }
}

impl Show for Axis2Placement3d {
    fn show(&self, text: &mut Vec<u8>) -> Result<(), AllocError> {
        self.a1.show(text)?;
        text.push(b' ')?;
        self.a2.show(text)?;
        text.push(b' ')?;
        self.a3.show(text)?;
        Ok(())
    }
}

impl Show for Axis2Placement2d {
    fn show(&self, text: &mut Vec<u8>) -> Result<(), AllocError> {
        self.a1.show(text)?;
        text.push(b' ')?;
        self.a2.show(text)?;
        Ok(())
    }
}

impl Show for CartesianPoint {
    fn show(&self, text: &mut Vec<u8>) -> Result<(), AllocError> {
        self.a1.show(text)?;
        Ok(())
    }
}

impl Show for Direction {
    fn show(&self, text: &mut Vec<u8>) -> Result<(), AllocError> {
        self.a1.show(text)?;
        Ok(())
    }
}

impl Show for ProductDefinitionShape {
    fn show(&self, text: &mut Vec<u8>) -> Result<(), AllocError> {
        self.a3.show(text)?;
        Ok(())
    }
}

impl Show for ShapeRepresentation {
    fn show(&self, text: &mut Vec<u8>) -> Result<(), AllocError> {
        self.a2.show(text)?;
        text.push(b' ')?;
        self.a4.show(text)?;
        Ok(())
    }
}

impl Show for ExtrudedAreaSolid {
    fn show(&self, text: &mut Vec<u8>) -> Result<(), AllocError> {
        self.a1.show(text)?;
        text.push(b' ')?;
        self.a2.show(text)?;
        text.push(b' ')?;
        self.a3.show(text)?;
        text.push(b' ')?;
        self.a4.show(text)?;
        Ok(())
    }
}

impl Show for RectangleProfileDef {
    fn show(&self, text: &mut Vec<u8>) -> Result<(), AllocError> {
        self.a3.show(text)?;
        text.push(b' ')?;
        self.a4.show(text)?;
        text.push(b' ')?;
        self.a5.show(text)?;
        Ok(())
    }
}

impl Show for ArbitraryClosedProfileDef {
    fn show(&self, text: &mut Vec<u8>) -> Result<(), AllocError> {
        self.a3.show(text)?;
        Ok(())
    }
}

impl Show for ArbitraryProfileDefWithVoids {
    fn show(&self, text: &mut Vec<u8>) -> Result<(), AllocError> {
        self.a3.show(text)?;
        text.push(b' ')?;
        self.a4.show(text)?;
        Ok(())
    }
}

impl Show for Polyline {
    fn show(&self, text: &mut Vec<u8>) -> Result<(), AllocError> {
        self.a1.show(text)?;
        Ok(())
    }
}

impl Show for IndexedPolyCurve {
    fn show(&self, text: &mut Vec<u8>) -> Result<(), AllocError> {
        self.a1.show(text)?;
        text.push(b' ')?;
        self.a2.show(text)?;
        Ok(())
    }
}

impl Show for CartesianPointList2d {
    fn show(&self, text: &mut Vec<u8>) -> Result<(), AllocError> {
        self.a1.show(text)?;
        Ok(())
    }
}

impl Show for RelVoidsElement {
    fn show(&self, text: &mut Vec<u8>) -> Result<(), AllocError> {
        self.a5.show(text)?;
        text.push(b' ')?;
        self.a6.show(text)?;
        Ok(())
    }
}

impl Show for RelFillsElement {
    fn show(&self, text: &mut Vec<u8>) -> Result<(), AllocError> {
        self.a5.show(text)?;
        text.push(b' ')?;
        self.a6.show(text)?;
        Ok(())
    }
}

impl Show for RelAssociatesMaterial {
    fn show(&self, text: &mut Vec<u8>) -> Result<(), AllocError> {
        self.a5.show(text)?;
        text.push(b' ')?;
        self.a6.show(text)?;
        Ok(())
    }
}

impl Show for RelDefinesByType {
    fn show(&self, text: &mut Vec<u8>) -> Result<(), AllocError> {
        self.a5.show(text)?;
        text.push(b' ')?;
        self.a6.show(text)?;
        Ok(())
    }
}

impl Show for Material {
    fn show(&self, text: &mut Vec<u8>) -> Result<(), AllocError> {
        self.a1.show(text)?;
        Ok(())
    }
}

impl Show for MaterialLayer {
    fn show(&self, text: &mut Vec<u8>) -> Result<(), AllocError> {
        self.a1.show(text)?;
        text.push(b' ')?;
        self.a2.show(text)?;
        Ok(())
    }
}

impl Show for MaterialLayerSet {
    fn show(&self, text: &mut Vec<u8>) -> Result<(), AllocError> {
        self.a1.show(text)?;
        Ok(())
    }
}

impl Show for MaterialLayerSetUsage {
    fn show(&self, text: &mut Vec<u8>) -> Result<(), AllocError> {
        self.a1.show(text)?;
        text.push(b' ')?;
        self.a2.show(text)?;
        text.push(b' ')?;
        self.a3.show(text)?;
        Ok(())
    }
}

/// What the view of this row answers of the instance of this number.
pub(crate) fn ask(
    alloc: Global,
    text: &mut Vec<u8>,
    file: &StepFile<'_>,
    row: u8,
    number: u32,
) -> Result<(), AllocError> {
    if row <= 9 {
        ask_products_and_placements(alloc, text, file, row, number)
    } else if row <= 18 {
        ask_shapes(alloc, text, file, row, number)
    } else {
        ask_relations_and_materials(alloc, text, file, row, number)
    }
}

fn ask_products_and_placements(
    alloc: Global,
    text: &mut Vec<u8>,
    file: &StepFile<'_>,
    row: u8,
    number: u32,
) -> Result<(), AllocError> {
    match row {
        1 => tell(text, building(file, number)),
        2 => tell(text, space(alloc, file, number)),
        3 => tell(text, product(file, number)),
        4 => tell(text, opening_filling(file, number)),
        5 => tell(text, local_placement(file, number)),
        6 => tell(text, axis2_placement_3d(file, number)),
        7 => tell(text, axis2_placement_2d(file, number)),
        8 => tell(text, cartesian_point(alloc, file, number)),
        _ => tell(text, direction(alloc, file, number)),
    }
}

fn ask_shapes(
    alloc: Global,
    text: &mut Vec<u8>,
    file: &StepFile<'_>,
    row: u8,
    number: u32,
) -> Result<(), AllocError> {
    match row {
        10 => tell(text, product_definition_shape(alloc, file, number)),
        11 => tell(text, shape_representation(alloc, file, number)),
        12 => tell(text, extruded_area_solid(alloc, file, number)),
        13 => tell(text, rectangle_profile_def(alloc, file, number)),
        14 => tell(text, arbitrary_closed_profile_def(file, number)),
        15 => tell(text, arbitrary_profile_def_with_voids(alloc, file, number)),
        16 => tell(text, polyline(alloc, file, number)),
        17 => tell(text, indexed_poly_curve(alloc, file, number)),
        _ => tell(text, cartesian_point_list_2d(alloc, file, number)),
    }
}

fn ask_relations_and_materials(
    alloc: Global,
    text: &mut Vec<u8>,
    file: &StepFile<'_>,
    row: u8,
    number: u32,
) -> Result<(), AllocError> {
    match row {
        19 => tell(text, rel_voids_element(file, number)),
        20 => tell(text, rel_fills_element(file, number)),
        21 => tell(text, rel_associates_material(alloc, file, number)),
        22 => tell(text, rel_defines_by_type(alloc, file, number)),
        23 => tell(text, material(alloc, file, number)),
        24 => tell(text, material_layer(alloc, file, number)),
        25 => tell(text, material_layer_set(alloc, file, number)),
        _ => tell(text, material_layer_set_usage(alloc, file, number)),
    }
}

/// What the view of this row answers of the instance of this number in a text of these instances.
pub(crate) fn answer(
    alloc: Global,
    instances: &[u8],
    row: u8,
    number: u32,
) -> Result<Vec<u8>, AllocError> {
    let mut input = Vec::new(alloc);
    input.extend_from_slice(b"ISO-10303-21;HEADER;A();ENDSEC;DATA;")?;
    input.extend_from_slice(instances)?;
    input.extend_from_slice(b"ENDSEC;END-ISO-10303-21;")?;
    let mut text = Vec::new(alloc);
    match index(alloc, &input) {
        Ok(file) => ask(alloc, &mut text, &file, row, number)?,
        Err(StepError::NoMemory) => return Err(AllocError),
        Err(_) => text.extend_from_slice(b"not indexed")?,
    }
    Ok(text)
}
