// Frames of products that share placements.
use crate::asked::{frame_told, text_of};
use sb_building::{frame_in, no_placements};
use sb_fraction::Unit;
use sb_place::PlaceError;
use sb_step::{StepFile, index};
use std::alloc::{AllocError, Global};
use std::test::Fail;

/// The placements of a file of an authoring tool: the site is turned by a slanted direction, the
/// building's placement is #12, the storey's #14, and a wall has #18. Of two further ones on the storey #30
/// is on a point that is absent, and #31 is out of range.
const HOUSE: &[u8] = b"#5=IFCCARTESIANPOINT((0.,0.,0.));#6=IFCDIRECTION((0.,0.,1.));\
#7=IFCDIRECTION((0.8,0.6,0.));#8=IFCAXIS2PLACEMENT3D(#5,#6,#7);#10=IFCLOCALPLACEMENT($,#8);\
#11=IFCAXIS2PLACEMENT3D(#5,$,$);#12=IFCLOCALPLACEMENT(#10,#11);#14=IFCLOCALPLACEMENT(#12,#11);\
#15=IFCDIRECTION((6.12E-17,1.,0.));#16=IFCCARTESIANPOINT((4.1,0.,0.));\
#17=IFCAXIS2PLACEMENT3D(#16,#6,#15);#18=IFCLOCALPLACEMENT(#14,#17);\
#30=IFCLOCALPLACEMENT(#14,#32);#31=IFCLOCALPLACEMENT(#14,#33);#32=IFCAXIS2PLACEMENT3D(#99,$,$);\
#33=IFCAXIS2PLACEMENT3D(#34,$,$);#34=IFCCARTESIANPOINT((1000.000000001,0.,0.));\
#35=IFCLOCALPLACEMENT(#18,#17);#36=IFCLOCALPLACEMENT(#10,#17);#37=IFCLOCALPLACEMENT(#5,#17);";

/// A placement, and what is to be answered of it below the building's.
struct Row {
    placement: Option<u32>,
    answer: &'static [u8],
}

const ROWS: [Row; 10] = [
    Row {
        placement: Some(18),
        answer: b"-2 1 3 by 4100000000 0 0",
    },
    Row {
        placement: Some(14),
        answer: b"1 2 3 by 0 0 0",
    },
    // the building's placement, and none
    Row {
        placement: Some(12),
        answer: b"1 2 3 by 0 0 0",
    },
    Row {
        placement: None,
        answer: b"Chain",
    },
    // on the wall: the way to the wall is turned with it
    Row {
        placement: Some(35),
        answer: b"-1 -2 3 by 4100000000 4100000000 0",
    },
    // beside the building, and on what is no placement
    Row {
        placement: Some(36),
        answer: b"Chain",
    },
    Row {
        placement: Some(37),
        answer: b"Chain",
    },
    Row {
        placement: Some(30),
        answer: b"Missing 99",
    },
    Row {
        placement: Some(31),
        answer: b"Range",
    },
    Row {
        placement: Some(98),
        answer: b"Missing 98",
    },
];

/// What is answered of a placement where another was read before it.
fn answered_after(
    alloc: Global,
    file: &StepFile<'_>,
    first: Option<u32>,
    second: Option<u32>,
) -> Result<Vec<u8>, AllocError> {
    let mut known = no_placements(alloc);
    match frame_in(alloc, file, &mut known, first, Some(12), Unit::Metre) {
        Err(PlaceError::NoMemory) => Err(AllocError),
        _ => {
            let frame = frame_in(alloc, file, &mut known, second, Some(12), Unit::Metre);
            frame_told(alloc, frame)
        }
    }
}

#[test]
fn each_frame_is_answered(rt: HostRuntime) -> Result<(), Fail> {
    let alloc = rt.alloc();
    let input = text_of(alloc, HOUSE)?;
    let Ok(file) = index(alloc, &input) else {
        assert!(rt; false, "no text");
        return Ok(());
    };
    for (at, row) in ROWS.iter().enumerate() {
        let mut known = no_placements(alloc);
        let frame = frame_in(
            alloc,
            &file,
            &mut known,
            row.placement,
            Some(12),
            Unit::Metre,
        );
        let told = frame_told(alloc, frame)?;
        assert!(rt; told.as_slice() == row.answer, "row {at}");
    }
    Ok(())
}

#[test]
fn and_the_same_after_each_other(rt: HostRuntime) -> Result<(), Fail> {
    let alloc = rt.alloc();
    let input = text_of(alloc, HOUSE)?;
    let Ok(file) = index(alloc, &input) else {
        assert!(rt; false, "no text");
        return Ok(());
    };
    for first in &ROWS {
        for (at, row) in ROWS.iter().enumerate() {
            let told = answered_after(alloc, &file, first.placement, row.placement)?;
            assert!(rt; told.as_slice() == row.answer, "row {at} behind another");
        }
    }
    Ok(())
}
