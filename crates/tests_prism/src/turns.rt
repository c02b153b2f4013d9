// The 24 turns of a solid's position.
use crate::prisms::{EAST, answer};
use sb_fraction::Unit;
use std::test::Fail;

/// The numbers of Axis and RefDirection, and what the solid fills along x, y and z in millimetres (mm). Its
/// own box goes 4,000 along the local x, 3,000 along y, and is extruded 2,500 along z.
struct Turned {
    axis: u32,
    reference: u32,
    fills: [i32; 6],
}

/// The six directions: #40 is x, #41 its opposite, #42 y, #43 its opposite, #44 z and #45 its opposite.
const SHAPE: &[u8] = b"#1=IFCPRODUCTDEFINITIONSHAPE($,$,(#2));\
#2=IFCSHAPEREPRESENTATION($,'Body','SweptSolid',(#3));#3=IFCEXTRUDEDAREASOLID(#4,#5,#44,2500.);\
#4=IFCRECTANGLEPROFILEDEF(.AREA.,$,#7,4000.,3000.);#7=IFCAXIS2PLACEMENT2D(#9,$);\
#8=IFCCARTESIANPOINT((0.,0.,0.));#9=IFCCARTESIANPOINT((2000.,1500.));\
#40=IFCDIRECTION((1.,0.,0.));#41=IFCDIRECTION((-1.,0.,0.));#42=IFCDIRECTION((0.,1.,0.));\
#43=IFCDIRECTION((0.,-1.,0.));#44=IFCDIRECTION((0.,0.,1.));#45=IFCDIRECTION((0.,0.,-1.));";

const TURNS: [Turned; 24] = [
    Turned {
        axis: 44,
        reference: 40,
        fills: [0, 4_000, 0, 3_000, 0, 2_500],
    },
    Turned {
        axis: 44,
        reference: 41,
        fills: [-4_000, 0, -3_000, 0, 0, 2_500],
    },
    Turned {
        axis: 44,
        reference: 42,
        fills: [-3_000, 0, 0, 4_000, 0, 2_500],
    },
    Turned {
        axis: 44,
        reference: 43,
        fills: [0, 3_000, -4_000, 0, 0, 2_500],
    },
    Turned {
        axis: 45,
        reference: 40,
        fills: [0, 4_000, -3_000, 0, -2_500, 0],
    },
    Turned {
        axis: 45,
        reference: 41,
        fills: [-4_000, 0, 0, 3_000, -2_500, 0],
    },
    Turned {
        axis: 45,
        reference: 42,
        fills: [0, 3_000, 0, 4_000, -2_500, 0],
    },
    Turned {
        axis: 45,
        reference: 43,
        fills: [-3_000, 0, -4_000, 0, -2_500, 0],
    },
    Turned {
        axis: 40,
        reference: 42,
        fills: [0, 2_500, 0, 4_000, 0, 3_000],
    },
    Turned {
        axis: 40,
        reference: 43,
        fills: [0, 2_500, -4_000, 0, -3_000, 0],
    },
    Turned {
        axis: 40,
        reference: 44,
        fills: [0, 2_500, -3_000, 0, 0, 4_000],
    },
    Turned {
        axis: 40,
        reference: 45,
        fills: [0, 2_500, 0, 3_000, -4_000, 0],
    },
    Turned {
        axis: 41,
        reference: 42,
        fills: [-2_500, 0, 0, 4_000, -3_000, 0],
    },
    Turned {
        axis: 41,
        reference: 43,
        fills: [-2_500, 0, -4_000, 0, 0, 3_000],
    },
    Turned {
        axis: 41,
        reference: 44,
        fills: [-2_500, 0, 0, 3_000, 0, 4_000],
    },
    Turned {
        axis: 41,
        reference: 45,
        fills: [-2_500, 0, -3_000, 0, -4_000, 0],
    },
    Turned {
        axis: 42,
        reference: 40,
        fills: [0, 4_000, 0, 2_500, -3_000, 0],
    },
    Turned {
        axis: 42,
        reference: 41,
        fills: [-4_000, 0, 0, 2_500, 0, 3_000],
    },
    Turned {
        axis: 42,
        reference: 44,
        fills: [0, 3_000, 0, 2_500, 0, 4_000],
    },
    Turned {
        axis: 42,
        reference: 45,
        fills: [-3_000, 0, 0, 2_500, -4_000, 0],
    },
    Turned {
        axis: 43,
        reference: 40,
        fills: [0, 4_000, -2_500, 0, 0, 3_000],
    },
    Turned {
        axis: 43,
        reference: 41,
        fills: [-4_000, 0, -2_500, 0, -3_000, 0],
    },
    Turned {
        axis: 43,
        reference: 44,
        fills: [-3_000, 0, -2_500, 0, 0, 4_000],
    },
    Turned {
        axis: 43,
        reference: 45,
        fills: [0, 3_000, -2_500, 0, -4_000, 0],
    },
];

#[test]
fn each_turn_of_a_position(rt: HostRuntime) -> Result<(), Fail> {
    let alloc = rt.alloc();
    for (i, row) in TURNS.iter().enumerate() {
        let position = format!(in alloc;
            "#5=IFCAXIS2PLACEMENT3D(#8,#{},#{});",
            row.axis, row.reference
        )?;
        let [x0, x1, y0, y1, z0, z1] = row.fills;
        let wanted = format!(in alloc; "{x0},{y0} {x1},{y0} {x1},{y1} {x0},{y1}; {z0} {z1}")?;
        let answer = answer(
            alloc,
            SHAPE,
            position.as_bytes(),
            EAST,
            [0, 0, 0],
            Unit::Millimetre,
        )?;
        assert!(rt; answer.as_slice() == wanted.as_bytes(), "turn {i}");
    }
    Ok(())
}
