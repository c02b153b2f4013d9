// Chains of placements.
use crate::asked::{Row, answer, holds, is};
use sb_fraction::Unit;
use std::alloc::{AllocError, Global};
use std::test::Fail;

/// The placements of a file of an authoring tool: the site is turned by a slanted direction, the
/// building's placement is #12, and a wall has #18.
const HOUSE: &[u8] = b"#5=IFCCARTESIANPOINT((0.,0.,0.));#6=IFCDIRECTION((0.,0.,1.));\
#7=IFCDIRECTION((0.8,0.6,0.));#8=IFCAXIS2PLACEMENT3D(#5,#6,#7);#10=IFCLOCALPLACEMENT($,#8);\
#11=IFCAXIS2PLACEMENT3D(#5,$,$);#12=IFCLOCALPLACEMENT(#10,#11);#14=IFCLOCALPLACEMENT(#12,#11);\
#15=IFCDIRECTION((6.12E-17,1.,0.));#16=IFCCARTESIANPOINT((4.1,0.,0.));\
#17=IFCAXIS2PLACEMENT3D(#16,#6,#15);#18=IFCLOCALPLACEMENT(#14,#17);";

/// A placement #1 on #2 on #3, each of them with an origin of its own and the middle one turned to the left.
const THREE: &[u8] = b"#1=IFCLOCALPLACEMENT(#2,#11);#2=IFCLOCALPLACEMENT(#3,#12);\
#3=IFCLOCALPLACEMENT($,#13);#11=IFCAXIS2PLACEMENT3D(#21,$,$);#12=IFCAXIS2PLACEMENT3D(#22,$,#30);\
#13=IFCAXIS2PLACEMENT3D(#23,#31,$);#21=IFCCARTESIANPOINT((1.,2.,3.));\
#22=IFCCARTESIANPOINT((10.,20.,30.));#23=IFCCARTESIANPOINT((100.,200.,300.));\
#30=IFCDIRECTION((0.,1.,0.));#31=IFCDIRECTION((0.,1.,0.));";

const ROWS: [Row; 20] = [
    Row {
        instances: HOUSE,
        placement: Some(18),
        building: Some(12),
        answer: b"-2 1 3 by 4100000000 0 0",
    },
    Row {
        instances: HOUSE,
        placement: Some(14),
        building: Some(12),
        answer: b"1 2 3 by 0 0 0",
    },
    // the building's placement at the beginning, and no placement of a building
    Row {
        instances: HOUSE,
        placement: Some(12),
        building: Some(12),
        answer: b"1 2 3 by 0 0 0",
    },
    Row {
        instances: HOUSE,
        placement: Some(18),
        building: None,
        answer: b"Turned",
    },
    Row {
        instances: HOUSE,
        placement: None,
        building: None,
        answer: b"1 2 3 by 0 0 0",
    },
    Row {
        instances: HOUSE,
        placement: None,
        building: Some(12),
        answer: b"Chain",
    },
    // the chain ends beside the building
    Row {
        instances: HOUSE,
        placement: Some(10),
        building: Some(12),
        answer: b"Chain",
    },
    // (1, 2, 3) is turned to (-2, 1, 3), and then to (-2, 3, -1)
    Row {
        instances: THREE,
        placement: Some(1),
        building: None,
        answer: b"-2 3 -1 by 108000000000 233000000000 279000000000",
    },
    Row {
        instances: THREE,
        placement: Some(1),
        building: Some(3),
        answer: b"-2 1 3 by 8000000000 21000000000 33000000000",
    },
    Row {
        instances: THREE,
        placement: Some(1),
        building: Some(2),
        answer: b"1 2 3 by 1000000000 2000000000 3000000000",
    },
    // a part of the sum is beyond 10^12 nm, and comes back
    Row {
        instances: b"#1=IFCLOCALPLACEMENT(#2,#11);#2=IFCLOCALPLACEMENT($,#12);\
#11=IFCAXIS2PLACEMENT3D(#21,$,$);#12=IFCAXIS2PLACEMENT3D(#22,$,$);\
#21=IFCCARTESIANPOINT((-1000000.,0.,1.));#22=IFCCARTESIANPOINT((1000000.,0.,0.));",
        placement: Some(1),
        building: None,
        answer: b"1 2 3 by 0 0 1000000000",
    },
    // a coordinate is out of range in the middle, just and just not
    Row {
        instances: b"#1=IFCLOCALPLACEMENT(#2,#11);#2=IFCLOCALPLACEMENT($,#12);\
#11=IFCAXIS2PLACEMENT3D(#21,$,$);#12=IFCAXIS2PLACEMENT3D(#22,$,$);\
#21=IFCCARTESIANPOINT((-1000000.,0.,0.));#22=IFCCARTESIANPOINT((1000000.000000001,0.,0.));",
        placement: Some(1),
        building: None,
        answer: b"Range",
    },
    // a position in the plan is none of a chain
    Row {
        instances: b"#1=IFCLOCALPLACEMENT($,#2);#2=IFCAXIS2PLACEMENT2D(#3,$);#3=IFCCARTESIANPOINT((0.,0.));",
        placement: Some(1),
        building: None,
        answer: b"Chain",
    },
    // no placement, no point, no direction
    Row {
        instances: b"#1=IFCGRIDPLACEMENT($,#2);",
        placement: Some(1),
        building: None,
        answer: b"Chain",
    },
    Row {
        instances: b"#1=IFCLOCALPLACEMENT($,#2);#2=IFCAXIS2PLACEMENT3D(#3,$,#4);#3=IFCVERTEXPOINT($);\
#4=IFCDIRECTION((1.,1.,0.));",
        placement: Some(1),
        building: None,
        answer: b"Chain",
    },
    // what is not of its row comes first, and then what is absent
    Row {
        instances: b"#1=IFCLOCALPLACEMENT(#5,#2);#2=IFCAXIS2PLACEMENT3D(#3,$,#4);#3=IFCVERTEXPOINT($);\
#4=IFCDIRECTION((1.));",
        placement: Some(1),
        building: None,
        answer: b"Fields 4",
    },
    Row {
        instances: b"#1=IFCLOCALPLACEMENT(#5,#2);#2=IFCAXIS2PLACEMENT3D(#3,$,#4);#3=IFCVERTEXPOINT($);\
#4=IFCDIRECTION((1.,1.,0.));",
        placement: Some(1),
        building: None,
        answer: b"Missing 5",
    },
    Row {
        instances: b"#1=IFCLOCALPLACEMENT(#5);",
        placement: Some(1),
        building: None,
        answer: b"Fields 1",
    },
    // the building's placement is not read
    Row {
        instances: b"#1=IFCLOCALPLACEMENT(#5,#2);#2=IFCAXIS2PLACEMENT3D(#3,$,$);#3=IFCCARTESIANPOINT((0.,0.));",
        placement: Some(1),
        building: Some(5),
        answer: b"1 2 3 by 0 0 0",
    },
    // a chain that leads into itself
    Row {
        instances: b"#1=IFCLOCALPLACEMENT(#4,#2);#4=IFCLOCALPLACEMENT(#1,#2);\
#2=IFCAXIS2PLACEMENT3D(#3,$,$);#3=IFCCARTESIANPOINT((0.,0.));",
        placement: Some(1),
        building: None,
        answer: b"Chain",
    },
];

#[test]
fn chains_are_composed(rt: HostRuntime) -> Result<(), Fail> {
    let alloc = rt.alloc();
    for row in &ROWS {
        assert!(rt; holds(alloc, row, Unit::Metre)?, "a chain");
    }
    Ok(())
}

/// So many placements one on the other, from #101 on, each 1 mm up; and what is named last.
fn tower(alloc: Global, storeys: u32, above: &[u8]) -> Result<Vec<u8>, AllocError> {
    let mut instances = Vec::new(alloc);
    instances.extend_from_slice(
        b"#2=IFCAXIS2PLACEMENT3D(#3,$,$);#3=IFCCARTESIANPOINT((0.,0.,1.));",
    )?;
    for n in 0..storeys {
        let number = u64::from(n) + 101;
        let link = if n + 1 == storeys {
            format!(in alloc; "#{number}=IFCLOCALPLACEMENT(")?
        } else {
            format!(in alloc; "#{number}=IFCLOCALPLACEMENT(#{}", number + 1)?
        };
        instances.extend_from_slice(link.as_bytes())?;
        if n + 1 == storeys {
            instances.extend_from_slice(above)?;
        }
        instances.extend_from_slice(b",#2);")?;
    }
    Ok(instances)
}

#[test]
fn sixty_four_placements_are_read(rt: HostRuntime) -> Result<(), Fail> {
    let alloc = rt.alloc();
    let most = tower(alloc, 64, b"$")?;
    let told = answer(alloc, &most, Some(101), None, Unit::Millimetre)?;
    assert!(rt; is(&told, b"1 2 3 by 0 0 64000000"), "64 placements");
    let more = tower(alloc, 65, b"$")?;
    let told = answer(alloc, &more, Some(101), None, Unit::Millimetre)?;
    assert!(rt; is(&told, b"Chain"), "65 placements");
    // the building's placement is the 65th
    let told = answer(alloc, &more, Some(101), Some(165), Unit::Millimetre)?;
    assert!(rt;
        is(&told, b"1 2 3 by 0 0 64000000"),
        "64 below the building's"
    );
    // the 65th is not followed, the 64th is
    let absent = tower(alloc, 64, b"#99")?;
    let told = answer(alloc, &absent, Some(101), None, Unit::Millimetre)?;
    assert!(rt; is(&told, b"Chain"), "an absent 65th");
    let told = answer(alloc, &absent, Some(102), None, Unit::Millimetre)?;
    assert!(rt; is(&told, b"Missing 99"), "an absent 64th");
    Ok(())
}
