// The prisms of shapes in frames.
use crate::asked::{indexed_text, told};
use sb_fraction::Unit;
use sb_model::{Axis, Frame, Prism, Turn};
use sb_prism::{PrismError, prism_of};
use sb_step::{StepError, index};
use std::alloc::{AllocError, Global};
use std::test::Fail;

/// A solid #3 and what it names, the shift of its product in nanometres (nm), and what is answered.
struct Row {
    solid: &'static [u8],
    shift: [i128; 3],
    answer: &'static [u8],
}

/// The shape #1 with the one solid #3, and what solids name.
const SHAPE: &[u8] = b"#1=IFCPRODUCTDEFINITIONSHAPE($,$,(#2));\
#2=IFCSHAPEREPRESENTATION($,'Body','SweptSolid',(#3));#5=IFCAXIS2PLACEMENT3D(#8,$,$);\
#6=IFCDIRECTION((0.,0.,1.));#7=IFCAXIS2PLACEMENT2D(#9,$);#8=IFCCARTESIANPOINT((0.,0.,0.));\
#9=IFCCARTESIANPOINT((2000.,1500.));#10=IFCCARTESIANPOINT((4000.,0.));#11=IFCCARTESIANPOINT((0.,3000.));\
#12=IFCCARTESIANPOINT((1000.,1000.));#13=IFCCARTESIANPOINT((2000.,1000.));#14=IFCCARTESIANPOINT((1000.,2000.));\
#15=IFCPOLYLINE((#8,#10,#11));#16=IFCPOLYLINE((#12,#14,#13));\
#17=IFCRECTANGLEPROFILEDEF(.AREA.,$,#7,4000.,3000.);#18=IFCARBITRARYCLOSEDPROFILEDEF(.AREA.,$,#15);\
#19=IFCARBITRARYPROFILEDEFWITHVOIDS(.AREA.,$,#15,(#16));#20=IFCDIRECTION((1.,0.,0.));\
#21=IFCDIRECTION((0.,1.,0.));#22=IFCAXIS2PLACEMENT3D(#8,#20,#21);#23=IFCDIRECTION((0.,0.,-1.));";

const ROWS: [Row; 29] = [
    Row {
        solid: b"#3=IFCEXTRUDEDAREASOLID(#17,#5,#6,2500.);",
        shift: [0, 0, 0],
        answer: b"0,0 4000,0 4000,3000 0,3000; 0 2500",
    },
    // down
    Row {
        solid: b"#3=IFCEXTRUDEDAREASOLID(#17,$,#23,2500.);",
        shift: [0, 0, 0],
        answer: b"0,0 4000,0 4000,3000 0,3000; -2500 0",
    },
    // 10 um and 1 nm more, on both sides of 0
    Row {
        solid: b"#3=IFCEXTRUDEDAREASOLID(#17,$,#6,2500.);",
        shift: [10_000, 0, 0],
        answer: b"0,0 4000,0 4000,3000 0,3000; 0 2500",
    },
    Row {
        solid: b"#3=IFCEXTRUDEDAREASOLID(#17,$,#6,2500.);",
        shift: [10_001, 0, 0],
        answer: b"OffGrid",
    },
    Row {
        solid: b"#3=IFCEXTRUDEDAREASOLID(#17,$,#6,2500.);",
        shift: [0, -10_000, 0],
        answer: b"0,0 4000,0 4000,3000 0,3000; 0 2500",
    },
    Row {
        solid: b"#3=IFCEXTRUDEDAREASOLID(#17,$,#6,2500.);",
        shift: [0, -10_001, 0],
        answer: b"OffGrid",
    },
    // 500 m and 10 um, and 1 nm more
    Row {
        solid: b"#3=IFCEXTRUDEDAREASOLID(#17,$,#6,2500.);",
        shift: [496_000_010_000, 0, 0],
        answer: b"496000,0 500000,0 500000,3000 496000,3000; 0 2500",
    },
    Row {
        solid: b"#3=IFCEXTRUDEDAREASOLID(#17,$,#6,2500.);",
        shift: [496_000_010_001, 0, 0],
        answer: b"Range",
    },
    // the far end alone
    Row {
        solid: b"#3=IFCEXTRUDEDAREASOLID(#17,$,#6,2500.);",
        shift: [0, 0, 497_500_010_000],
        answer: b"0,0 4000,0 4000,3000 0,3000; 497500 500000",
    },
    Row {
        solid: b"#3=IFCEXTRUDEDAREASOLID(#17,$,#6,2500.);",
        shift: [0, 0, 497_500_010_001],
        answer: b"Range",
    },
    // out of range before off the grid, also far beyond 10^18 nm
    Row {
        solid: b"#3=IFCEXTRUDEDAREASOLID(#17,$,#6,2500.);",
        shift: [500_000, 0, 600_000_000_000],
        answer: b"Range",
    },
    Row {
        solid: b"#3=IFCEXTRUDEDAREASOLID(#17,$,#6,2500.);",
        shift: [0, 64_000_000_000_000_000, 0],
        answer: b"Range",
    },
    Row {
        solid: b"#3=IFCEXTRUDEDAREASOLID(#17,$,#6,2500.);",
        shift: [0, -170_141_183_460_469_231_731_687_303_715_884_105_728, 0],
        answer: b"Range",
    },
    // off the grid before loops
    Row {
        solid: b"#3=IFCEXTRUDEDAREASOLID(#30,$,#6,2500.);#30=IFCARBITRARYCLOSEDPROFILEDEF(.AREA.,$,#31);#31=IFCPOLYLINE((#8,#10));",
        shift: [0, 500_000, 0],
        answer: b"OffGrid",
    },
    // a curve of two points, and of none
    Row {
        solid: b"#3=IFCEXTRUDEDAREASOLID(#30,$,#6,2500.);#30=IFCARBITRARYCLOSEDPROFILEDEF(.AREA.,$,#31);#31=IFCPOLYLINE((#8,#10));",
        shift: [0, 0, 0],
        answer: b"Loops",
    },
    Row {
        solid: b"#3=IFCEXTRUDEDAREASOLID(#30,$,#6,2500.);#30=IFCARBITRARYCLOSEDPROFILEDEF(.AREA.,$,#31);#31=IFCPOLYLINE(());",
        shift: [0, 0, 600_000_000_000],
        answer: b"Loops",
    },
    // a depth that is rounded to 1 nm: the two heights are one
    Row {
        solid: b"#3=IFCEXTRUDEDAREASOLID(#17,$,#6,0.0000005);",
        shift: [0, 0, 0],
        answer: b"Loops",
    },
    // an inner curve
    Row {
        solid: b"#3=IFCEXTRUDEDAREASOLID(#19,$,#6,2500.);",
        shift: [0, 0, 0],
        answer: b"0,0 4000,0 0,3000 1000,1000 1000,2000 2000,1000; 0 2500",
    },
    // upright: a rectangle, a triangle, and one with an inner curve
    Row {
        solid: b"#3=IFCEXTRUDEDAREASOLID(#17,#22,#6,2500.);",
        shift: [1_000_000_000, 0, 0],
        answer: b"1000,0 3500,0 3500,4000 1000,4000; 0 3000",
    },
    Row {
        solid: b"#3=IFCEXTRUDEDAREASOLID(#17,#22,#23,2500.);",
        shift: [0, 0, 0],
        answer: b"-2500,0 0,0 0,4000 -2500,4000; 0 3000",
    },
    Row {
        solid: b"#3=IFCEXTRUDEDAREASOLID(#18,#22,#6,2500.);",
        shift: [0, 0, 0],
        answer: b"Loops",
    },
    Row {
        solid: b"#3=IFCEXTRUDEDAREASOLID(#30,#22,#6,2500.);#30=IFCARBITRARYPROFILEDEFWITHVOIDS(.AREA.,$,#31,(#16));#31=IFCPOLYLINE((#8,#10,#32,#11));#32=IFCCARTESIANPOINT((4000.,3000.));",
        shift: [0, 0, 0],
        answer: b"Loops",
    },
    // half of a side, rounded away from 0: 10,000 nm lie near a millimetre, and 10,001 nm do not
    Row {
        solid: b"#3=IFCEXTRUDEDAREASOLID(#30,$,#6,2500.);#30=IFCRECTANGLEPROFILEDEF(.AREA.,$,$,0.02,4000.);",
        shift: [0, 0, 0],
        answer: b"Loops",
    },
    Row {
        solid: b"#3=IFCEXTRUDEDAREASOLID(#30,$,#6,2500.);#30=IFCRECTANGLEPROFILEDEF(.AREA.,$,$,0.020001,4000.);",
        shift: [0, 0, 0],
        answer: b"OffGrid",
    },
    // heights that are 1 mm apart
    Row {
        solid: b"#3=IFCEXTRUDEDAREASOLID(#17,$,#6,1.);",
        shift: [0, 0, 0],
        answer: b"0,0 4000,0 4000,3000 0,3000; 0 1",
    },
    // an upright rectangle with a point on a side and its first point twice
    Row {
        solid: b"#3=IFCEXTRUDEDAREASOLID(#30,#22,#6,2500.);#30=IFCARBITRARYCLOSEDPROFILEDEF(.AREA.,$,#31);#31=IFCPOLYLINE((#8,#10,#33,#32,#11,#8));#32=IFCCARTESIANPOINT((4000.,3000.));#33=IFCCARTESIANPOINT((4000.,1000.));",
        shift: [0, 0, 0],
        answer: b"0,0 2500,0 2500,4000 0,4000; 0 3000",
    },
    // an upright one of no height, and of 2 mm
    Row {
        solid: b"#3=IFCEXTRUDEDAREASOLID(#30,#22,#6,2500.);#30=IFCRECTANGLEPROFILEDEF(.AREA.,$,$,4000.,0.02);",
        shift: [0, 0, 0],
        answer: b"Loops",
    },
    Row {
        solid: b"#3=IFCEXTRUDEDAREASOLID(#30,#22,#6,2500.);#30=IFCRECTANGLEPROFILEDEF(.AREA.,$,$,4000.,2.);",
        shift: [0, 0, 0],
        answer: b"0,-2000 2500,-2000 2500,2000 0,2000; -1 1",
    },
    // a triangle lying
    Row {
        solid: b"#3=IFCEXTRUDEDAREASOLID(#18,$,#6,2500.);",
        shift: [0, 0, 0],
        answer: b"0,0 4000,0 0,3000; 0 2500",
    },
];

#[test]
fn each_prism_is_answered(rt: HostRuntime) -> Result<(), Fail> {
    let alloc = rt.alloc();
    for (i, row) in ROWS.iter().enumerate() {
        let answer = answer(alloc, SHAPE, row.solid, EAST, row.shift, Unit::Millimetre)?;
        assert!(rt; answer.as_slice() == row.answer, "row {i}");
    }
    Ok(())
}

/// The wall and the space of the file of an authoring tool, in metres.
const AUTHORED: &[u8] =
    b"#5=IFCCARTESIANPOINT((0.,0.,0.));#6=IFCDIRECTION((0.,0.,1.));#11=IFCAXIS2PLACEMENT3D(#5,$,$);\
#19=IFCCARTESIANPOINTLIST2D(((0.,0.),(3.,0.),(2.9999999999999996,0.1),(0.,0.1)));\
#20=IFCINDEXEDPOLYCURVE(#19,(IFCLINEINDEX((1,2)),IFCLINEINDEX((2,3)),IFCLINEINDEX((3,4,1))),.F.);\
#21=IFCARBITRARYCLOSEDPROFILEDEF(.AREA.,$,#20);#22=IFCEXTRUDEDAREASOLID(#21,#11,#6,2.5);\
#26=IFCCARTESIANPOINT((2.,1.5));#27=IFCAXIS2PLACEMENT2D(#26,$);#28=IFCRECTANGLEPROFILEDEF(.AREA.,$,#27,4.,3.);\
#29=IFCEXTRUDEDAREASOLID(#28,$,#6,2.5);#2=IFCSHAPEREPRESENTATION($,'Body','SweptSolid',(#22));\
#30=IFCSHAPEREPRESENTATION($,'Body','SweptSolid',(#29));";

/// A length of a metre file that lies less than a nanometre below 3.5 m.
const BELOW: &[u8] = b"#1=IFCPRODUCTDEFINITIONSHAPE($,$,(#2));\
#2=IFCSHAPEREPRESENTATION($,'Body','SweptSolid',(#3));#3=IFCEXTRUDEDAREASOLID(#4,$,#6,3.4999999999999996);\
#4=IFCARBITRARYCLOSEDPROFILEDEF(.AREA.,$,#5);#5=IFCPOLYLINE((#7,#8,#9));#6=IFCDIRECTION((0.,0.,1.));\
#7=IFCCARTESIANPOINT((0.,0.));#8=IFCCARTESIANPOINT((3.4999999999999996,0.));\
#9=IFCCARTESIANPOINT((0.,-3.4999999999999996));";

/// A shape in metres, where the local x of its product goes, how far it is moved in nanometres (nm), and what
/// is answered.
struct Metres {
    shape: &'static [u8],
    solids: &'static [u8],
    x: Axis,
    shift: [i128; 3],
    answer: &'static [u8],
}

const FILES: [Metres; 3] = [
    // the wall, and the space
    Metres {
        shape: AUTHORED,
        solids: b"#1=IFCPRODUCTDEFINITIONSHAPE($,$,(#2));",
        x: NORTH,
        shift: [4_100_000_000, 0, 0],
        answer: b"4000,0 4100,0 4100,3000 4000,3000; 0 2500",
    },
    Metres {
        shape: AUTHORED,
        solids: b"#1=IFCPRODUCTDEFINITIONSHAPE($,$,(#30));",
        x: EAST,
        shift: [0, 0, 0],
        answer: b"0,0 4000,0 4000,3000 0,3000; 0 2500",
    },
    // rounded to the nanometre
    Metres {
        shape: BELOW,
        solids: b"",
        x: EAST,
        shift: [0, 0, 0],
        answer: b"0,-3500 3500,0 0,0; 0 3500",
    },
];

#[test]
fn lengths_in_metres(rt: HostRuntime) -> Result<(), Fail> {
    let alloc = rt.alloc();
    for (i, row) in FILES.iter().enumerate() {
        let answer = answer(alloc, row.shape, row.solids, row.x, row.shift, Unit::Metre)?;
        assert!(rt; answer.as_slice() == row.answer, "row {i}");
    }
    Ok(())
}

/// Where the local x of a product goes, and its local z.
pub(crate) const EAST: Axis = Axis { x: 1, y: 0, z: 0 };

const NORTH: Axis = Axis { x: 0, y: 1, z: 0 };

const UP: Axis = Axis { x: 0, y: 0, z: 1 };

/// What is answered of the shape #1 in a text of these instances, where the local x of its product goes so
/// and it is moved so far.
pub(crate) fn answer(
    alloc: Global,
    shape: &[u8],
    solids: &[u8],
    x: Axis,
    shift: [i128; 3],
    unit: Unit,
) -> Result<Vec<u8>, AllocError> {
    let Some(turn) = Turn::new(x, UP) else {
        return Ok(Vec::new(alloc));
    };
    let input = indexed_text(alloc, shape, solids)?;
    match index(alloc, &input) {
        Ok(file) => match prism_of(alloc, &file, 1, &Frame { turn, shift }, unit) {
            Ok(prism) => shown(alloc, &prism),
            Err(error) => told(alloc, error),
        },
        Err(StepError::NoMemory) => Err(AllocError),
        Err(_) => Ok(Vec::new(alloc)),
    }
}

/// The points of a prism in order, and its heights.
fn shown(alloc: Global, prism: &Prism) -> Result<Vec<u8>, AllocError> {
    let mut all = Vec::new(alloc);
    for points in prism.loops().points().as_slice() {
        for p in points.as_slice() {
            if !all.is_empty() {
                all.push(b' ')?;
            }
            let text = format!(in alloc; "{},{}", p.x, p.y)?;
            all.extend_from_slice(text.as_bytes())?;
        }
    }
    let text = format!(in alloc; "; {} {}", prism.z0(), prism.z1())?;
    all.extend_from_slice(text.as_bytes())?;
    Ok(all)
}
