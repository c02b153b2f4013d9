// What is at fault with shapes: each fault just met and just not, and which of two comes first.
use crate::asked::{Row, holds, is_answered};
use std::test::Fail;

const ROWS: [Row; 38] = [
    Row {
        solid: b"#3=IFCEXTRUDEDAREASOLID(#4,#5,#6,2500.);#4=IFCRECTANGLEPROFILEDEF(.AREA.,$,#7,4000.,3000.);",
        answer: b"sound",
    },
    // positions that are left out
    Row {
        solid: b"#3=IFCEXTRUDEDAREASOLID(#4,$,#6,2500.);#4=IFCRECTANGLEPROFILEDEF(.AREA.,$,$,4000.,3000.);",
        answer: b"sound",
    },
    // a depth that is rounded to 1 nm, and one to 0
    Row {
        solid: b"#3=IFCEXTRUDEDAREASOLID(#4,#5,#6,0.0000005);#4=IFCRECTANGLEPROFILEDEF(.AREA.,$,#7,4000.,3000.);",
        answer: b"sound",
    },
    Row {
        solid: b"#3=IFCEXTRUDEDAREASOLID(#4,#5,#6,0.0000004);#4=IFCRECTANGLEPROFILEDEF(.AREA.,$,#7,4000.,3000.);",
        answer: b"Shape",
    },
    // the sign decides of a depth out of range
    Row {
        solid: b"#3=IFCEXTRUDEDAREASOLID(#4,#5,#6,-1.E+99);#4=IFCRECTANGLEPROFILEDEF(.AREA.,$,#7,4000.,3000.);",
        answer: b"Shape",
    },
    Row {
        solid: b"#3=IFCEXTRUDEDAREASOLID(#4,#5,#6,1.E+99);#4=IFCRECTANGLEPROFILEDEF(.AREA.,$,#7,4000.,3000.);",
        answer: b"Range",
    },
    // 10^15 nm and 1 nm more
    Row {
        solid: b"#3=IFCEXTRUDEDAREASOLID(#4,#5,#6,1000000000.);#4=IFCRECTANGLEPROFILEDEF(.AREA.,$,#7,4000.,3000.);",
        answer: b"sound",
    },
    Row {
        solid: b"#3=IFCEXTRUDEDAREASOLID(#4,#5,#6,1000000000.000001);#4=IFCRECTANGLEPROFILEDEF(.AREA.,$,#7,4000.,3000.);",
        answer: b"Range",
    },
    // a side of 0, and one out of range
    Row {
        solid: b"#3=IFCEXTRUDEDAREASOLID(#4,#5,#6,2500.);#4=IFCRECTANGLEPROFILEDEF(.AREA.,$,#7,4000.,0.);",
        answer: b"Shape",
    },
    Row {
        solid: b"#3=IFCEXTRUDEDAREASOLID(#4,#5,#6,2500.);#4=IFCRECTANGLEPROFILEDEF(.AREA.,$,#7,1.E+99,3000.);",
        answer: b"Range",
    },
    // down, to the side, and a third ratio that is left out
    Row {
        solid: b"#3=IFCEXTRUDEDAREASOLID(#4,#5,#10,2500.);#10=IFCDIRECTION((0.,0.,-1.));#4=IFCRECTANGLEPROFILEDEF(.AREA.,$,#7,4000.,3000.);",
        answer: b"sound",
    },
    Row {
        solid: b"#3=IFCEXTRUDEDAREASOLID(#4,#5,#10,2500.);#10=IFCDIRECTION((0.,1.,0.));#4=IFCRECTANGLEPROFILEDEF(.AREA.,$,#7,4000.,3000.);",
        answer: b"Shape",
    },
    Row {
        solid: b"#3=IFCEXTRUDEDAREASOLID(#4,#5,#10,2500.);#10=IFCDIRECTION((0.,1.));#4=IFCRECTANGLEPROFILEDEF(.AREA.,$,#7,4000.,3000.);",
        answer: b"Shape",
    },
    // a point for a direction, and a position of the plan for one in space
    Row {
        solid: b"#3=IFCEXTRUDEDAREASOLID(#4,#5,#8,2500.);#4=IFCRECTANGLEPROFILEDEF(.AREA.,$,#7,4000.,3000.);",
        answer: b"Shape",
    },
    Row {
        solid: b"#3=IFCEXTRUDEDAREASOLID(#4,#7,#6,2500.);#4=IFCRECTANGLEPROFILEDEF(.AREA.,$,#7,4000.,3000.);",
        answer: b"Shape",
    },
    // a slanted axis comes before a depth of 0
    Row {
        solid: b"#3=IFCEXTRUDEDAREASOLID(#4,#10,#6,0.);#10=IFCAXIS2PLACEMENT3D(#8,#11,$);#11=IFCDIRECTION((0.,1.,1.));#4=IFCRECTANGLEPROFILEDEF(.AREA.,$,#7,4000.,3000.);",
        answer: b"Turned",
    },
    // and so does one of the rectangle
    Row {
        solid: b"#3=IFCEXTRUDEDAREASOLID(#4,#5,#6,2500.);#4=IFCRECTANGLEPROFILEDEF(.AREA.,$,#10,0.,3000.);#10=IFCAXIS2PLACEMENT2D(#9,#11);#11=IFCDIRECTION((3.,4.));",
        answer: b"Turned",
    },
    // a third ratio and a third coordinate in the plan are not read
    Row {
        solid: b"#3=IFCEXTRUDEDAREASOLID(#4,#5,#6,2500.);#4=IFCRECTANGLEPROFILEDEF(.AREA.,$,#10,1.,3000.);#10=IFCAXIS2PLACEMENT2D(#9,#11);#11=IFCDIRECTION((0.,1.,1.E+99));",
        answer: b"sound",
    },
    Row {
        solid: b"#3=IFCEXTRUDEDAREASOLID(#4,#5,#6,2500.);#4=IFCARBITRARYCLOSEDPROFILEDEF(.AREA.,$,#20);#20=IFCPOLYLINE((#8,#9,#21,#8));#21=IFCCARTESIANPOINT((0.,1.,1.E+99));",
        answer: b"sound",
    },
    // a second one is
    Row {
        solid: b"#3=IFCEXTRUDEDAREASOLID(#4,#5,#6,2500.);#4=IFCARBITRARYCLOSEDPROFILEDEF(.AREA.,$,#20);#20=IFCPOLYLINE((#8,#9,#21,#8));#21=IFCCARTESIANPOINT((0.,1.E+99));",
        answer: b"Range",
    },
    // a direction for a point
    Row {
        solid: b"#3=IFCEXTRUDEDAREASOLID(#4,#5,#6,2500.);#4=IFCARBITRARYCLOSEDPROFILEDEF(.AREA.,$,#20);#20=IFCPOLYLINE((#8,#6));",
        answer: b"Shape",
    },
    // a curve of no points is judged later
    Row {
        solid: b"#3=IFCEXTRUDEDAREASOLID(#4,#5,#6,2500.);#4=IFCARBITRARYCLOSEDPROFILEDEF(.AREA.,$,#20);#20=IFCPOLYLINE(());",
        answer: b"sound",
    },
    // points that no index names are not read
    Row {
        solid: b"#3=IFCEXTRUDEDAREASOLID(#4,#5,#6,2500.);#4=IFCARBITRARYCLOSEDPROFILEDEF(.AREA.,$,#20);#20=IFCINDEXEDPOLYCURVE(#21,(IFCLINEINDEX((1,2,3)),IFCLINEINDEX((3,1))),$);#21=IFCCARTESIANPOINTLIST2D(((0.,0.),(4000.,0.),(0.,3000.),(1.E+99,0.)));",
        answer: b"sound",
    },
    // and all are without segments
    Row {
        solid: b"#3=IFCEXTRUDEDAREASOLID(#4,#5,#6,2500.);#4=IFCARBITRARYCLOSEDPROFILEDEF(.AREA.,$,#20);#20=IFCINDEXEDPOLYCURVE(#21,$,$);#21=IFCCARTESIANPOINTLIST2D(((0.,0.),(4000.,0.),(0.,3000.),(1.E+99,0.)));",
        answer: b"Range",
    },
    // the last index, one more, and 0
    Row {
        solid: b"#3=IFCEXTRUDEDAREASOLID(#4,#5,#6,2500.);#4=IFCARBITRARYCLOSEDPROFILEDEF(.AREA.,$,#20);#20=IFCINDEXEDPOLYCURVE(#21,(IFCLINEINDEX((1,4))),$);#21=IFCCARTESIANPOINTLIST2D(((0.,0.),(4000.,0.),(0.,3000.),(1.E+99,0.)));",
        answer: b"Range",
    },
    Row {
        solid: b"#3=IFCEXTRUDEDAREASOLID(#4,#5,#6,2500.);#4=IFCARBITRARYCLOSEDPROFILEDEF(.AREA.,$,#20);#20=IFCINDEXEDPOLYCURVE(#21,(IFCLINEINDEX((1,5))),$);#21=IFCCARTESIANPOINTLIST2D(((0.,0.),(4000.,0.),(0.,3000.),(1.E+99,0.)));",
        answer: b"Shape",
    },
    Row {
        solid: b"#3=IFCEXTRUDEDAREASOLID(#4,#5,#6,2500.);#4=IFCARBITRARYCLOSEDPROFILEDEF(.AREA.,$,#20);#20=IFCINDEXEDPOLYCURVE(#21,(IFCLINEINDEX((0,1))),$);#21=IFCCARTESIANPOINTLIST2D(((0.,0.),(4000.,0.),(0.,3000.),(1.E+99,0.)));",
        answer: b"Shape",
    },
    Row {
        solid: b"#3=IFCEXTRUDEDAREASOLID(#4,#5,#6,2500.);#4=IFCARBITRARYCLOSEDPROFILEDEF(.AREA.,$,#20);#20=IFCINDEXEDPOLYCURVE(#21,(IFCLINEINDEX((-1,1))),$);#21=IFCCARTESIANPOINTLIST2D(((0.,0.),(4000.,0.),(0.,3000.),(1.E+99,0.)));",
        answer: b"Shape",
    },
    // an index of more than 64 bits
    Row {
        solid: b"#3=IFCEXTRUDEDAREASOLID(#4,#5,#6,2500.);#4=IFCARBITRARYCLOSEDPROFILEDEF(.AREA.,$,#20);#20=IFCINDEXEDPOLYCURVE(#21,(IFCLINEINDEX((1,18446744073709551617))),$);#21=IFCCARTESIANPOINTLIST2D(((0.,0.),(4000.,0.),(0.,3000.),(1.E+99,0.)));",
        answer: b"Shape",
    },
    // an arc
    Row {
        solid: b"#3=IFCEXTRUDEDAREASOLID(#4,#5,#6,2500.);#4=IFCARBITRARYCLOSEDPROFILEDEF(.AREA.,$,#20);#20=IFCINDEXEDPOLYCURVE(#21,(IFCARCINDEX((1,2,3))),$);#21=IFCCARTESIANPOINTLIST2D(((0.,0.),(4000.,0.),(0.,3000.),(1.E+99,0.)));",
        answer: b"Shape",
    },
    // a point for a list of points
    Row {
        solid: b"#3=IFCEXTRUDEDAREASOLID(#4,#5,#6,2500.);#4=IFCARBITRARYCLOSEDPROFILEDEF(.AREA.,$,#20);#20=IFCINDEXEDPOLYCURVE(#8,$,$);",
        answer: b"Shape",
    },
    // an inner curve that is none, not there, and not of its row
    Row {
        solid: b"#3=IFCEXTRUDEDAREASOLID(#4,#5,#6,2500.);#4=IFCARBITRARYPROFILEDEFWITHVOIDS(.AREA.,$,#20,(#22));#20=IFCPOLYLINE((#8,#9));#22=IFCPOLYLINE((#8,#9));",
        answer: b"sound",
    },
    Row {
        solid: b"#3=IFCEXTRUDEDAREASOLID(#4,#5,#6,2500.);#4=IFCARBITRARYPROFILEDEFWITHVOIDS(.AREA.,$,#20,(#22));#20=IFCPOLYLINE((#8,#9));#22=IFCCIRCLE($,1.);",
        answer: b"Shape",
    },
    Row {
        solid: b"#3=IFCEXTRUDEDAREASOLID(#4,#5,#6,2500.);#4=IFCARBITRARYPROFILEDEFWITHVOIDS(.AREA.,$,#20,(#22));#20=IFCPOLYLINE((#8,#9));",
        answer: b"Missing 22",
    },
    Row {
        solid: b"#3=IFCEXTRUDEDAREASOLID(#4,#5,#6,2500.);#4=IFCARBITRARYPROFILEDEFWITHVOIDS(.AREA.,$,#20,(#22));#20=IFCPOLYLINE((#8,#9));#22=IFCPOLYLINE((#8,1.));",
        answer: b"Fields 22",
    },
    // what is not of its row comes before what is absent
    Row {
        solid: b"#3=IFCEXTRUDEDAREASOLID(#4,#5,#99,2500.);#4=IFCRECTANGLEPROFILEDEF(.AREA.,$,#7,4000.,$);",
        answer: b"Fields 4",
    },
    // another solid, and a solid that is not there
    Row {
        solid: b"#3=IFCFACETEDBREP(#4);",
        answer: b"Shape",
    },
    Row {
        solid: b"",
        answer: b"Missing 3",
    },
];

#[test]
fn each_row_is_answered(rt: HostRuntime) -> Result<(), Fail> {
    let alloc = rt.alloc();
    for (i, row) in ROWS.iter().enumerate() {
        assert!(rt; holds(alloc, row)?, "row {i}");
    }
    Ok(())
}

/// A solid #3, and another #13 that is none.
const SOLIDS: &[u8] = b"#3=IFCEXTRUDEDAREASOLID(#4,$,#6,2500.);\
#4=IFCRECTANGLEPROFILEDEF(.AREA.,$,$,4000.,3000.);#6=IFCDIRECTION((0.,0.,1.));#13=IFCCIRCLE($,1.);";

/// Representations of a shape, and what is answered of it.
const BODIES: [(&[u8], &[u8]); 12] = [
    (
        b"#1=IFCPRODUCTDEFINITIONSHAPE($,$,(#2));#2=IFCSHAPEREPRESENTATION($,'Body',$,(#3));",
        b"sound",
    ),
    // the first Body, behind another representation and before a second Body
    (
        b"#1=IFCPRODUCTDEFINITIONSHAPE($,$,(#7,#2,#8));#2=IFCSHAPEREPRESENTATION($,'Body',$,(#3));\
#7=IFCSHAPEREPRESENTATION($,$,$,(#13));#8=IFCSHAPEREPRESENTATION($,'Body',$,(#13));",
        b"sound",
    ),
    (
        b"#1=IFCPRODUCTDEFINITIONSHAPE($,$,(#8,#2));#2=IFCSHAPEREPRESENTATION($,'Body',$,(#3));\
#8=IFCSHAPEREPRESENTATION($,'Body',$,(#13));",
        b"Shape",
    ),
    // another name, no name, no representation, two items, none
    (
        b"#1=IFCPRODUCTDEFINITIONSHAPE($,$,(#2));#2=IFCSHAPEREPRESENTATION($,'body',$,(#3));",
        b"Shape",
    ),
    (
        b"#1=IFCPRODUCTDEFINITIONSHAPE($,$,(#2));#2=IFCSHAPEREPRESENTATION($,$,$,(#3));",
        b"Shape",
    ),
    (b"#1=IFCPRODUCTDEFINITIONSHAPE($,$,());", b"Shape"),
    (
        b"#1=IFCPRODUCTDEFINITIONSHAPE($,$,(#2));#2=IFCSHAPEREPRESENTATION($,'Body',$,(#3,#3));",
        b"Shape",
    ),
    (
        b"#1=IFCPRODUCTDEFINITIONSHAPE($,$,(#2));#2=IFCSHAPEREPRESENTATION($,'Body',$,());",
        b"Shape",
    ),
    // one of another entity is passed over, one that is not of its row or absent is not
    (
        b"#1=IFCPRODUCTDEFINITIONSHAPE($,$,(#13,#2));#2=IFCSHAPEREPRESENTATION($,'Body',$,(#3));",
        b"sound",
    ),
    (
        b"#1=IFCPRODUCTDEFINITIONSHAPE($,$,(#2,#9));#2=IFCSHAPEREPRESENTATION($,'Body',$,(#3));\
#9=IFCSHAPEREPRESENTATION($,'Body',$,(1.));",
        b"Fields 9",
    ),
    (
        b"#1=IFCPRODUCTDEFINITIONSHAPE($,$,(#2,#9));#2=IFCSHAPEREPRESENTATION($,'Body',$,(#3));",
        b"Missing 9",
    ),
    // another entity in the place of the shape
    (b"#1=IFCPRODUCTREPRESENTATION($,$,(#2));", b"Shape"),
];

#[test]
fn the_first_body_counts(rt: HostRuntime) -> Result<(), Fail> {
    let alloc = rt.alloc();
    for (i, (shape, wanted)) in BODIES.iter().enumerate() {
        assert!(rt; is_answered(alloc, shape, SOLIDS, wanted)?, "shape {i}");
    }
    Ok(())
}
