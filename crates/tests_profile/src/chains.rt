// Chains of placements.
use crate::asked::{Row, has, holds};
use std::alloc::{AllocError, Global};
use std::test::Fail;

const ROWS: [Row; 7] = [
    // the building's placement is not read, though it is absent
    Row {
        instances: b"#9=IFCSPACE('',$,$,$,$,#4,#30,$,$,$,$);",
        defect: b"none",
    },
    Row {
        instances: b"#9=IFCSPACE('',$,$,$,$,#8,#30,$,$,$,$);#8=IFCLOCALPLACEMENT(#7,#22);\
#7=IFCLOCALPLACEMENT(#98,#22);",
        defect: b"Missing 98",
    },
    Row {
        instances: b"#9=IFCSPACE('',$,$,$,$,#8,#30,$,$,$,$);#8=IFCLOCALPLACEMENT(#7,#22);\
#7=IFCLOCALPLACEMENT(#98);",
        defect: b"Fields 7",
    },
    // a chain ends at a placement of another keyword
    Row {
        instances: b"#9=IFCSPACE('',$,$,$,$,#8,#30,$,$,$,$);#8=IFCLOCALPLACEMENT(#7,#22);\
#7=IFCGRIDPLACEMENT(#98,#97);",
        defect: b"none",
    },
    // positions with their points and directions
    Row {
        instances: b"#9=IFCSPACE('',$,$,$,$,#8,#30,$,$,$,$);#8=IFCLOCALPLACEMENT($,#7);\
#7=IFCAXIS2PLACEMENT3D(#99,#98,#97);",
        defect: b"Missing 97",
    },
    Row {
        instances: b"#9=IFCSPACE('',$,$,$,$,#8,#30,$,$,$,$);#8=IFCLOCALPLACEMENT($,#7);\
#7=IFCAXIS2PLACEMENT3D(#23,#24,#6);#6=IFCDIRECTION((1.));",
        defect: b"Fields 6",
    },
    // a chain that leads into itself
    Row {
        instances: b"#9=IFCSPACE('',$,$,$,$,#8,#30,$,$,$,$);#8=IFCLOCALPLACEMENT(#7,#22);\
#7=IFCLOCALPLACEMENT(#8,#22);",
        defect: b"none",
    },
];

#[test]
fn chains_are_followed(rt: HostRuntime) -> Result<(), Fail> {
    let alloc = rt.alloc();
    for (at, row) in ROWS.iter().enumerate() {
        assert!(rt; holds(alloc, row)?, "row {at}");
    }
    Ok(())
}

/// A space on so many placements one on the other, from #101 on, the last of them on #98.
fn tower(alloc: Global, storeys: u32) -> Result<Vec<u8>, AllocError> {
    let mut instances = Vec::new(alloc);
    instances.extend_from_slice(b"#9=IFCSPACE('',$,$,$,$,#101,#30,$,$,$,$);")?;
    for n in 0..storeys {
        let number = u64::from(n) + 101;
        let above = if n + 1 == storeys { 98 } else { number + 1 };
        let placement = format!(in alloc; "#{number}=IFCLOCALPLACEMENT(#{above},#22);")?;
        instances.extend_from_slice(placement.as_bytes())?;
    }
    Ok(instances)
}

#[test]
fn sixty_four_placements_are_followed(rt: HostRuntime) -> Result<(), Fail> {
    let alloc = rt.alloc();
    let most = tower(alloc, 63)?;
    assert!(rt; has(alloc, &most, b"Missing 98")?, "an absent 64th");
    let more = tower(alloc, 64)?;
    assert!(rt; has(alloc, &more, b"none")?, "an absent 65th");
    Ok(())
}
