// The codes that are judged before any instance is read: schema, unit, building.
use crate::asked::{BUILDING, SCHEMA, UNITS, bytes, told};
use std::alloc::{AllocError, Global};
use std::test::Fail;

// Header entities, and the first defect of a text that has a unit and a building.
const HEADERS: [(&[u8], &[u8]); 8] = [
    (b"FILE_SCHEMA(('IFC4'));", b"none"),
    (b"FILE_NAME('IFC4');FILE_SCHEMA(('IFC4'));", b"none"),
    (b"FILE_SCHEMA(('IFC2X3'));", b"Schema 0"),
    (b"FILE_SCHEMA(('IFC4X3'));", b"Schema 0"),
    (b"FILE_SCHEMA(('IFC4','IFC4'));", b"Schema 0"),
    (b"FILE_SCHEMA('IFC4');", b"Schema 0"),
    (b"FILE_SCHEMA(('IFC4'));FILE_SCHEMA(('IFC4'));", b"Schema 0"),
    (b"FILE_NAME(('IFC4'));", b"Schema 0"),
];

// Instances, and the first defect of a text that has a building.
const OF_UNITS: [(&[u8], &[u8]); 16] = [
    (
        b"#1=IFCUNITASSIGNMENT((#2));#2=IFCSIUNIT(*,.LENGTHUNIT.,$,.METRE.);",
        b"none",
    ),
    (
        b"#1=IFCUNITASSIGNMENT((#2));#2=IFCSIUNIT(*,.LENGTHUNIT.,.MILLI.,.METRE.);",
        b"none",
    ),
    // units of other types and keywords, and what is no instance, are passed over
    (
        b"#1=IFCUNITASSIGNMENT((#5,#2,#6,$,#9,#7));#2=IFCSIUNIT(*,.LENGTHUNIT.,$,.METRE.);\
#5=IFCSIUNIT(*,.AREAUNIT.,$,.SQUARE_METRE.);#6=IFCCONVERSIONBASEDUNIT(#8,.LENGTHUNIT.,'FOOT',#9);\
#7=(A()B());",
        b"none",
    ),
    (b"", b"Units 0"),
    (b"#2=IFCSIUNIT(*,.LENGTHUNIT.,$,.METRE.);", b"Units 0"),
    (
        b"#1=IFCUNITASSIGNMENT(#2);#2=IFCSIUNIT(*,.LENGTHUNIT.,$,.METRE.);",
        b"Units 0",
    ),
    (
        b"#1=IFCUNITASSIGNMENT(());#2=IFCSIUNIT(*,.LENGTHUNIT.,$,.METRE.);",
        b"Units 0",
    ),
    (
        b"#1=IFCUNITASSIGNMENT((#2));#2=IFCSIUNIT(*,.AREAUNIT.,$,.METRE.);",
        b"Units 0",
    ),
    (
        b"#1=IFCUNITASSIGNMENT((#2));#2=IFCSIUNIT(*,.LENGTHUNIT.,.CENTI.,.METRE.);",
        b"Units 0",
    ),
    (
        b"#1=IFCUNITASSIGNMENT((#2));#2=IFCSIUNIT(*,.LENGTHUNIT.,*,.METRE.);",
        b"Units 0",
    ),
    (
        b"#1=IFCUNITASSIGNMENT((#2));#2=IFCSIUNIT(*,.LENGTHUNIT.,$,.INCH.);",
        b"Units 0",
    ),
    (
        b"#1=IFCUNITASSIGNMENT((#2));#2=IFCSIUNIT(*,.LENGTHUNIT.,$,.METRE.,$);",
        b"Units 0",
    ),
    (
        b"#1=IFCUNITASSIGNMENT((#2));#2=IFCSIUNIT(*,.LENGTHUNIT.,$);",
        b"Units 0",
    ),
    // one that is listed twice is two
    (
        b"#1=IFCUNITASSIGNMENT((#2,#2));#2=IFCSIUNIT(*,.LENGTHUNIT.,$,.METRE.);",
        b"Units 0",
    ),
    (
        b"#1=IFCUNITASSIGNMENT((#2,#5));#2=IFCSIUNIT(*,.LENGTHUNIT.,$,.METRE.);\
#5=IFCSIUNIT(*,.LENGTHUNIT.,.CENTI.,.METRE.);",
        b"Units 0",
    ),
    (
        b"#1=IFCUNITASSIGNMENT((#2));#2=IFCSIUNIT(*,.LENGTHUNIT.,$,.METRE.);#5=IFCUNITASSIGNMENT(());",
        b"Units 0",
    ),
];

// Instances, and the first defect of a text that has a unit.
const OF_BUILDINGS: [(&[u8], &[u8]); 7] = [
    (b"#7=IFCBUILDING($,$,$,$,$,#4,$,$,$,$,$,$);", b"none"),
    (b"", b"Building 0"),
    (b"#7=IFCBUILDINGSTOREY($,$,$,$,$,$,$,$,$,$);", b"Building 0"),
    // a building that is not of its row is one
    (b"#7=IFCBUILDING($,$,$,$,$,#4,$,$,$,$,$);", b"Fields 7"),
    (b"#7=IFCBUILDING($,$,$,$,$,4,$,$,$,$,$,$);", b"Fields 7"),
    (b"#7=IFCBUILDING();#5=IFCBUILDING();", b"Building 7"),
    // of three the second lowest, in whatever order they stand
    (
        b"#9=IFCBUILDING();#5=IFCBUILDING();#7=IFCBUILDING();",
        b"Building 7",
    ),
];

fn joined(alloc: Global, one: &[u8], other: &[u8]) -> Result<Vec<u8>, AllocError> {
    let mut all = bytes(alloc, one)?;
    all.extend_from_slice(other)?;
    Ok(all)
}

fn header_holds(alloc: Global, header: &[u8], defect: &[u8]) -> Result<bool, AllocError> {
    let instances = joined(alloc, UNITS, BUILDING)?;
    let told = told(alloc, header, &instances)?;
    Ok(told.as_slice() == defect)
}

fn unit_holds(alloc: Global, units: &[u8], defect: &[u8]) -> Result<bool, AllocError> {
    let instances = joined(alloc, units, BUILDING)?;
    let told = told(alloc, SCHEMA, &instances)?;
    Ok(told.as_slice() == defect)
}

fn building_holds(alloc: Global, buildings: &[u8], defect: &[u8]) -> Result<bool, AllocError> {
    let instances = joined(alloc, UNITS, buildings)?;
    let told = told(alloc, SCHEMA, &instances)?;
    Ok(told.as_slice() == defect)
}

#[test]
fn schemas_are_judged(rt: HostRuntime) -> Result<(), Fail> {
    let alloc = rt.alloc();
    for (header, defect) in HEADERS {
        assert!(rt; header_holds(alloc, header, defect)?, "a schema");
    }
    Ok(())
}

#[test]
fn units_are_judged(rt: HostRuntime) -> Result<(), Fail> {
    let alloc = rt.alloc();
    for (units, defect) in OF_UNITS {
        assert!(rt; unit_holds(alloc, units, defect)?, "a unit");
    }
    Ok(())
}

#[test]
fn buildings_are_judged(rt: HostRuntime) -> Result<(), Fail> {
    let alloc = rt.alloc();
    for (buildings, defect) in OF_BUILDINGS {
        assert!(rt; building_holds(alloc, buildings, defect)?, "a building");
    }
    Ok(())
}

// what has defects of several codes has that of the first
#[test]
fn the_first_code_is_told(rt: HostRuntime) -> Result<(), Fail> {
    let alloc = rt.alloc();
    let nothing = told(alloc, b"A();", b"#9=IFCCURTAINWALL();")?;
    assert!(rt;
        nothing.as_slice() == b"Schema 0".as_slice(),
        "no schema, no unit"
    );
    let no_unit = told(alloc, SCHEMA, b"#9=IFCCURTAINWALL();")?;
    assert!(rt;
        no_unit.as_slice() == b"Units 0".as_slice(),
        "no unit, no building"
    );
    let two = joined(
        alloc,
        UNITS,
        b"#7=IFCBUILDING();#5=IFCBUILDING();#3=IFCCURTAINWALL();",
    )?;
    let two = told(alloc, SCHEMA, &two)?;
    assert!(rt; two.as_slice() == b"Building 7".as_slice(), "two buildings");
    Ok(())
}
