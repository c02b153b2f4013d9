// Single placements: what their directions snap to, and how their origins are read.
use crate::asked::{Row, answer, holds, is, text_of};
use sb_fraction::Unit;
use sb_place::{Seen, plan_position, space_position, told};
use sb_step::index;
use std::alloc::{AllocError, Global};
use std::test::Fail;

/// Axis, RefDirection, and where the placement turns (1, 2, 3).
const TURNS: [(&[u8], &[u8], &[u8]); 24] = [
    (b"1.,0.,0.", b"0.,1.,0.", b"3 1 2 by 0 0 0"),
    (b"1.,0.,0.", b"0.,-1.,0.", b"3 -1 -2 by 0 0 0"),
    (b"1.,0.,0.", b"0.,0.,1.", b"3 -2 1 by 0 0 0"),
    (b"1.,0.,0.", b"0.,0.,-1.", b"3 2 -1 by 0 0 0"),
    (b"-1.,0.,0.", b"0.,1.,0.", b"-3 1 -2 by 0 0 0"),
    (b"-1.,0.,0.", b"0.,-1.,0.", b"-3 -1 2 by 0 0 0"),
    (b"-1.,0.,0.", b"0.,0.,1.", b"-3 2 1 by 0 0 0"),
    (b"-1.,0.,0.", b"0.,0.,-1.", b"-3 -2 -1 by 0 0 0"),
    (b"0.,1.,0.", b"1.,0.,0.", b"1 3 -2 by 0 0 0"),
    (b"0.,1.,0.", b"-1.,0.,0.", b"-1 3 2 by 0 0 0"),
    (b"0.,1.,0.", b"0.,0.,1.", b"2 3 1 by 0 0 0"),
    (b"0.,1.,0.", b"0.,0.,-1.", b"-2 3 -1 by 0 0 0"),
    (b"0.,-1.,0.", b"1.,0.,0.", b"1 -3 2 by 0 0 0"),
    (b"0.,-1.,0.", b"-1.,0.,0.", b"-1 -3 -2 by 0 0 0"),
    (b"0.,-1.,0.", b"0.,0.,1.", b"-2 -3 1 by 0 0 0"),
    (b"0.,-1.,0.", b"0.,0.,-1.", b"2 -3 -1 by 0 0 0"),
    (b"0.,0.,1.", b"1.,0.,0.", b"1 2 3 by 0 0 0"),
    (b"0.,0.,1.", b"-1.,0.,0.", b"-1 -2 3 by 0 0 0"),
    (b"0.,0.,1.", b"0.,1.,0.", b"-2 1 3 by 0 0 0"),
    (b"0.,0.,1.", b"0.,-1.,0.", b"2 -1 3 by 0 0 0"),
    (b"0.,0.,-1.", b"1.,0.,0.", b"1 -2 -3 by 0 0 0"),
    (b"0.,0.,-1.", b"-1.,0.,0.", b"-1 2 -3 by 0 0 0"),
    (b"0.,0.,-1.", b"0.,1.,0.", b"2 1 -3 by 0 0 0"),
    (b"0.,0.,-1.", b"0.,-1.,0.", b"-2 -1 -3 by 0 0 0"),
];

/// `$` has one byte, and a direction more.
fn is_left_out(direction: &[u8]) -> bool {
    direction.len() == 1
}

/// The answer of a placement at the origin with these directions; `$` for one that is left out.
fn turned(alloc: Global, axis: &[u8], reference: &[u8]) -> Result<Vec<u8>, AllocError> {
    let mut instances = Vec::new(alloc);
    instances.extend_from_slice(b"#1=IFCLOCALPLACEMENT($,#2);#2=IFCAXIS2PLACEMENT3D(#3,")?;
    instances.extend_from_slice(if is_left_out(axis) { b"$" } else { b"#4" })?;
    instances.extend_from_slice(b",")?;
    instances.extend_from_slice(if is_left_out(reference) { b"$" } else { b"#5" })?;
    instances.extend_from_slice(b");#3=IFCCARTESIANPOINT((0.,0.,0.));")?;
    if !is_left_out(axis) {
        instances.extend_from_slice(b"#4=IFCDIRECTION((")?;
        instances.extend_from_slice(axis)?;
        instances.extend_from_slice(b"));")?;
    }
    if !is_left_out(reference) {
        instances.extend_from_slice(b"#5=IFCDIRECTION((")?;
        instances.extend_from_slice(reference)?;
        instances.extend_from_slice(b"));")?;
    }
    answer(alloc, &instances, Some(1), None, Unit::Metre)
}

/// Axis, RefDirection, and what is answered.
const DIRECTIONS: [(&[u8], &[u8], &[u8]); 22] = [
    // what is left out is z and x; one that is given keeps the other's default
    (b"$", b"$", b"1 2 3 by 0 0 0"),
    (b"0.,0.,-1.", b"$", b"1 -2 -3 by 0 0 0"),
    (b"0.,1.,0.", b"$", b"1 3 -2 by 0 0 0"),
    (b"1.,0.,0.", b"$", b"Turned"),
    (b"-1.,0.,0.", b"$", b"Turned"),
    (b"$", b"0.,1.,0.", b"-2 1 3 by 0 0 0"),
    (b"$", b"0.,0.,1.", b"Turned"),
    // both on one axis
    (b"0.,1.,0.", b"0.,1.,0.", b"Turned"),
    (b"0.,1.,0.", b"0.,-1.,0.", b"Turned"),
    // a direction without length, and a long one
    (b"$", b"0.,0.,0.", b"Turned"),
    (b"$", b"0.,1.E+12,0.", b"-2 1 3 by 0 0 0"),
    (b"$", b"0.,1.000001E+12,0.", b"Turned"),
    (b"$", b"0.,4.E-13,0.", b"Turned"),
    (b"$", b"0.,5.E-13,0.", b"-2 1 3 by 0 0 0"),
    // a millionth, and a millionth and 10^-12
    (b"$", b"0.000001,1.,0.", b"-2 1 3 by 0 0 0"),
    (b"$", b"0.000001000001,1.,0.", b"Turned"),
    (b"$", b"-0.000001,-1.,0.", b"2 -1 3 by 0 0 0"),
    (b"$", b"-0.000001000001,-1.,0.", b"Turned"),
    (b"$", b"6.12E-17,1.,0.", b"-2 1 3 by 0 0 0"),
    (b"$", b"0.8,0.6,0.", b"Turned"),
    // a third ratio that is left out is 0
    (b"$", b"0.,1.", b"-2 1 3 by 0 0 0"),
    (b"0.,1.", b"1.,0.", b"1 3 -2 by 0 0 0"),
];

#[test]
fn directions_snap_to_axes(rt: HostRuntime) -> Result<(), Fail> {
    let alloc = rt.alloc();
    for (axis, reference, wanted) in &TURNS {
        let told = turned(alloc, axis, reference)?;
        assert!(rt; told.as_slice() == *wanted, "one of the 24 turns");
    }
    for (axis, reference, wanted) in &DIRECTIONS {
        let told = turned(alloc, axis, reference)?;
        assert!(rt; told.as_slice() == *wanted, "a direction");
    }
    Ok(())
}

/// A placement's origin, in metres.
const ORIGINS: [Row; 6] = [
    Row {
        instances: b"#1=IFCLOCALPLACEMENT($,#2);#2=IFCAXIS2PLACEMENT3D(#3,$,$);#3=IFCCARTESIANPOINT((1.5,-2.,0.25));",
        placement: Some(1),
        building: None,
        answer: b"1 2 3 by 1500000000 -2000000000 250000000",
    },
    // a third coordinate that is left out is 0
    Row {
        instances: b"#1=IFCLOCALPLACEMENT($,#2);#2=IFCAXIS2PLACEMENT3D(#3,$,$);#3=IFCCARTESIANPOINT((1.5,-2.));",
        placement: Some(1),
        building: None,
        answer: b"1 2 3 by 1500000000 -2000000000 0",
    },
    // half a nanometre is rounded away from 0
    Row {
        instances: b"#1=IFCLOCALPLACEMENT($,#2);#2=IFCAXIS2PLACEMENT3D(#3,$,$);#3=IFCCARTESIANPOINT((0.0000000005,-0.0000000005,0.0000000004));",
        placement: Some(1),
        building: None,
        answer: b"1 2 3 by 1 -1 0",
    },
    // 10^12 nm, and one more
    Row {
        instances: b"#1=IFCLOCALPLACEMENT($,#2);#2=IFCAXIS2PLACEMENT3D(#3,$,$);#3=IFCCARTESIANPOINT((1000.,-1000.,0.));",
        placement: Some(1),
        building: None,
        answer: b"1 2 3 by 1000000000000 -1000000000000 0",
    },
    Row {
        instances: b"#1=IFCLOCALPLACEMENT($,#2);#2=IFCAXIS2PLACEMENT3D(#3,$,$);#3=IFCCARTESIANPOINT((1000.000000001,0.,0.));",
        placement: Some(1),
        building: None,
        answer: b"Range",
    },
    Row {
        instances: b"#1=IFCLOCALPLACEMENT($,#2);#2=IFCAXIS2PLACEMENT3D(#3,$,$);#3=IFCCARTESIANPOINT((0.,0.,-1000.000000001));",
        placement: Some(1),
        building: None,
        answer: b"Range",
    },
];

#[test]
fn origins_are_shifts(rt: HostRuntime) -> Result<(), Fail> {
    let alloc = rt.alloc();
    for row in &ORIGINS {
        assert!(rt; holds(alloc, row, Unit::Metre)?, "an origin");
    }
    let millimetres = answer(alloc, ORIGINS[0].instances, Some(1), None, Unit::Millimetre)?;
    assert!(rt;
        is(&millimetres, b"1 2 3 by 1500000 -2000000 250000"),
        "in millimetres"
    );
    Ok(())
}

#[test]
fn positions_in_the_plan_have_two_coordinates(rt: HostRuntime) -> Result<(), Fail> {
    let alloc = rt.alloc();
    let input = text_of(
        alloc,
        b"#1=IFCAXIS2PLACEMENT2D(#2,#3);#2=IFCCARTESIANPOINT((1.,2.,1.E+99));\
#3=IFCDIRECTION((0.,-1.,1.E+99));#4=IFCAXIS2PLACEMENT3D(#2,$,#3);",
    )?;
    let Ok(file) = index(alloc, &input) else {
        assert!(rt; false, "no text");
        return Ok(());
    };
    let plan = told(&plan_position(alloc, &file, 1)?, Unit::Metre);
    let [x, y, z] = plan.frame.apply([1, 2, 3]);
    assert!(rt; x == 1_000_000_002, "x");
    assert!(rt; y == 1_999_999_999, "y");
    assert!(rt; z == 3, "z");
    assert!(rt; !plan.turned && !plan.far && !plan.stray, "no fault");
    let space = told(&space_position(alloc, &file, 4)?, Unit::Metre);
    assert!(rt; space.turned && space.far && !space.stray, "read in space");
    assert!(rt;
        matches!(plan_position(alloc, &file, 4)?, Seen::Other),
        "a position in space"
    );
    Ok(())
}
