// What follows from the shape of a space that is taken.
use crate::asked::{Row, bytes, has};
use std::alloc::{AllocError, Global};
use std::test::Fail;

/// A space with the shape #8.
const SPACE: &[u8] = b"#9=IFCSPACE('',$,$,$,$,$,#8,$,$,$,$);";

/// A space with the solid #10.
const SOLID: &[u8] = b"#9=IFCSPACE('',$,$,$,$,$,#8,$,$,$,$);#8=IFCPRODUCTDEFINITIONSHAPE($,$,(#7));\
#7=IFCSHAPEREPRESENTATION($,'Body',$,(#10));";

/// A space with the profile #11.
const PROFILE: &[u8] =
    b"#9=IFCSPACE('',$,$,$,$,$,#8,$,$,$,$);#8=IFCPRODUCTDEFINITIONSHAPE($,$,(#7));\
#7=IFCSHAPEREPRESENTATION($,'Body',$,(#10));#10=IFCEXTRUDEDAREASOLID(#11,$,#24,3000.);";

// Instances behind those of a space, and the first defect.
const OF_SHAPES: [Row; 9] = [
    Row {
        instances: b"#8=IFCPRODUCTDEFINITIONSHAPE($,$,());",
        defect: b"none",
    },
    Row {
        instances: b"#8=IFCPRODUCTDEFINITIONSHAPE($,$,(#7),$);#7=IFCTOPOLOGYREPRESENTATION(#98);",
        defect: b"none",
    },
    Row {
        instances: b"#8=IFCPRODUCTDEFINITIONSHAPE($,$);",
        defect: b"Fields 8",
    },
    // all representations are read, before and behind the body
    Row {
        instances: b"#8=IFCPRODUCTDEFINITIONSHAPE($,$,(#98,#32));",
        defect: b"Missing 98",
    },
    Row {
        instances: b"#8=IFCPRODUCTDEFINITIONSHAPE($,$,(#32,#7));#7=IFCSHAPEREPRESENTATION($,'Box',$);",
        defect: b"Fields 7",
    },
    // of the first body all items follow, and of no other representation
    Row {
        instances: b"#8=IFCPRODUCTDEFINITIONSHAPE($,$,(#7));#7=IFCSHAPEREPRESENTATION($,'Body',$,(#33,#98));",
        defect: b"Missing 98",
    },
    Row {
        instances: b"#8=IFCPRODUCTDEFINITIONSHAPE($,$,(#7));#7=IFCSHAPEREPRESENTATION($,'BODY',$,(#98));",
        defect: b"none",
    },
    Row {
        instances: b"#8=IFCPRODUCTDEFINITIONSHAPE($,$,(#7));#7=IFCSHAPEREPRESENTATION($,$,$,(#98));",
        defect: b"none",
    },
    Row {
        instances: b"#8=IFCPRODUCTDEFINITIONSHAPE($,$,(#31,#7,#6));\
#7=IFCSHAPEREPRESENTATION($,'Body',$,(#98));#6=IFCSHAPEREPRESENTATION($,'Body',$,(#97));",
        defect: b"Missing 98",
    },
];

const OF_SOLIDS: [Row; 5] = [
    Row {
        instances: b"#10=IFCEXTRUDEDAREASOLID(#34,#22,#24,3000.);",
        defect: b"none",
    },
    Row {
        instances: b"#10=IFCMAPPEDITEM(#98);",
        defect: b"none",
    },
    Row {
        instances: b"#10=IFCEXTRUDEDAREASOLID(#34,$,#24,$);",
        defect: b"Fields 10",
    },
    Row {
        instances: b"#10=IFCEXTRUDEDAREASOLID(#99,#98,#97,3000.);",
        defect: b"Missing 97",
    },
    Row {
        instances: b"#10=IFCEXTRUDEDAREASOLID(#99,#98,#24,3000.);",
        defect: b"Missing 98",
    },
];

const OF_PROFILES: [Row; 14] = [
    Row {
        instances: b"#11=IFCCIRCLEPROFILEDEF(#98);",
        defect: b"none",
    },
    Row {
        instances: b"#11=IFCRECTANGLEPROFILEDEF(.AREA.,$,#98,1.,1.);",
        defect: b"Missing 98",
    },
    Row {
        instances: b"#11=IFCRECTANGLEPROFILEDEF(.AREA.,$,$,1.);",
        defect: b"Fields 11",
    },
    Row {
        instances: b"#11=IFCRECTANGLEPROFILEDEF(.AREA.,$,#12,1.,1.);#12=IFCAXIS2PLACEMENT2D(#36,#98);",
        defect: b"Missing 98",
    },
    Row {
        instances: b"#11=IFCARBITRARYCLOSEDPROFILEDEF(.AREA.,$,#12);#12=IFCPOLYLINE((#36,#98));",
        defect: b"Missing 98",
    },
    Row {
        instances: b"#11=IFCARBITRARYCLOSEDPROFILEDEF(.AREA.,$,#12);#12=IFCPOLYLINE((#36,#13));\
#13=IFCCARTESIANPOINT((1.));",
        defect: b"Fields 13",
    },
    Row {
        instances: b"#11=IFCARBITRARYCLOSEDPROFILEDEF(.AREA.,$,#12);#12=IFCPOLYLINE(#36);",
        defect: b"Fields 12",
    },
    Row {
        instances: b"#11=IFCARBITRARYCLOSEDPROFILEDEF(.AREA.,$,#12);#12=IFCCIRCLE(#98);",
        defect: b"none",
    },
    Row {
        instances: b"#11=IFCARBITRARYCLOSEDPROFILEDEF(.AREA.,$,#12);#12=IFCINDEXEDPOLYCURVE(#98,$,$);",
        defect: b"Missing 98",
    },
    Row {
        instances: b"#11=IFCARBITRARYCLOSEDPROFILEDEF(.AREA.,$,#12);#12=IFCINDEXEDPOLYCURVE(#13,$,$);\
#13=IFCCARTESIANPOINTLIST2D(((1.,2.),(3.,4.,5.)));",
        defect: b"Fields 13",
    },
    Row {
        instances: b"#11=IFCARBITRARYCLOSEDPROFILEDEF(.AREA.,$,#12);\
#12=IFCINDEXEDPOLYCURVE(#13,(IFCLINEINDEX((1,2)),IFCARCINDEX((2,9,1))),$);\
#13=IFCCARTESIANPOINTLIST2D(((1.,2.),(3.,4.)));",
        defect: b"none",
    },
    Row {
        instances: b"#11=IFCARBITRARYPROFILEDEFWITHVOIDS(.AREA.,$,#98,(#97));",
        defect: b"Missing 97",
    },
    Row {
        instances: b"#11=IFCARBITRARYPROFILEDEFWITHVOIDS(.AREA.,$,#97,(#98));",
        defect: b"Missing 97",
    },
    Row {
        instances: b"#11=IFCARBITRARYPROFILEDEFWITHVOIDS(.AREA.,$,#97);",
        defect: b"Fields 11",
    },
];

/// Whether the row has the defect that it says, behind these instances.
fn holds(alloc: Global, before: &[u8], row: &Row) -> Result<bool, AllocError> {
    let mut instances = bytes(alloc, before)?;
    instances.extend_from_slice(row.instances)?;
    has(alloc, &instances, row.defect)
}

#[test]
fn shapes_are_followed(rt: HostRuntime) -> Result<(), Fail> {
    let alloc = rt.alloc();
    for (at, row) in OF_SHAPES.iter().enumerate() {
        assert!(rt; holds(alloc, SPACE, row)?, "row {at}");
    }
    Ok(())
}

#[test]
fn solids_are_followed(rt: HostRuntime) -> Result<(), Fail> {
    let alloc = rt.alloc();
    for (at, row) in OF_SOLIDS.iter().enumerate() {
        assert!(rt; holds(alloc, SOLID, row)?, "row {at}");
    }
    Ok(())
}

#[test]
fn profiles_are_followed(rt: HostRuntime) -> Result<(), Fail> {
    let alloc = rt.alloc();
    for (at, row) in OF_PROFILES.iter().enumerate() {
        assert!(rt; holds(alloc, PROFILE, row)?, "row {at}");
    }
    Ok(())
}
