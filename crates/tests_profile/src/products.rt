// Classes that are refused, and products that are taken and that are not.
use crate::asked::{Row, holds};
use std::test::Fail;

const ROWS: [Row; 32] = [
    Row {
        instances: b"",
        defect: b"none",
    },
    // each of the classes, without a shape
    Row {
        instances: b"#9=IFCCURTAINWALL($,$,$,$,$,$,$,$,$);",
        defect: b"Class 9",
    },
    Row {
        instances: b"#9=IFCSLABSTANDARDCASE($,$,$,$,$,$,$,$,$);",
        defect: b"Class 9",
    },
    Row {
        instances: b"#9=IFCCOLUMNSTANDARDCASE($,$,$,$,$,$,$,$,$);",
        defect: b"Class 9",
    },
    Row {
        instances: b"#9=IFCBEAMSTANDARDCASE($,$,$,$,$,$,$,$,$);",
        defect: b"Class 9",
    },
    Row {
        instances: b"#9=IFCOPENINGSTANDARDCASE();",
        defect: b"Class 9",
    },
    // the lowest of several, and before any that is not of its row
    Row {
        instances: b"#9=IFCCURTAINWALL();#8=IFCBEAMSTANDARDCASE();#10=IFCCURTAINWALL();",
        defect: b"Class 8",
    },
    Row {
        instances: b"#9=IFCCURTAINWALL();#8=IFCSPACE();",
        defect: b"Class 9",
    },
    // passed over: a class of no row, and a complex instance
    Row {
        instances: b"#9=IFCSTAIR(#98);#8=IFCMEMBERSTANDARDCASE(#97);",
        defect: b"none",
    },
    Row {
        instances: b"#9=(IFCCURTAINWALL()IFCWALL());",
        defect: b"none",
    },
    Row {
        instances: b"#9=IFCWALLSTANDARDCASE($,$,$,$,$,$,$,$,$);",
        defect: b"none",
    },
    // each product just of its row, and just not
    Row {
        instances: b"#9=IFCSPACE('',$,$,$,$,$,$,$,$,$,$);",
        defect: b"none",
    },
    Row {
        instances: b"#9=IFCSPACE('',$,$,$,$,$,$,$,$,$);",
        defect: b"Fields 9",
    },
    Row {
        instances: b"#9=IFCSPACE($,$,$,$,$,$,$,$,$,$,$);",
        defect: b"Fields 9",
    },
    Row {
        instances: b"#9=IFCROOF($,$,$,$,$,$,$,$);",
        defect: b"Fields 9",
    },
    Row {
        instances: b"#9=IFCOPENINGELEMENT($,$,$,$,$,$,*,$,$);",
        defect: b"Fields 9",
    },
    Row {
        instances: b"#9=IFCDOOR(1,2,3,4,5,6,7,8,9,10,11,12,13);",
        defect: b"none",
    },
    Row {
        instances: b"#9=IFCWINDOW(1,2,3,4,5,6,7,8,9,10,11,12);",
        defect: b"Fields 9",
    },
    // the lowest of several
    Row {
        instances: b"#9=IFCDOOR();#7=IFCSPACE();#8=IFCBEAM();",
        defect: b"Fields 7",
    },
    // what is not taken is not followed, but judged itself
    Row {
        instances: b"#9=IFCCOVERING($,$,$,$,$,#98,$,$,$);",
        defect: b"none",
    },
    Row {
        instances: b"#9=IFCCOVERING($,$,$,$,$,#8,$,$,$);#8=IFCLOCALPLACEMENT($);",
        defect: b"none",
    },
    Row {
        instances: b"#9=IFCCOVERING($,$,$,$,$,8,$,$,$);",
        defect: b"Fields 9",
    },
    // a product that is not of its row is not taken
    Row {
        instances: b"#9=IFCCOVERING($,$,$,$,$,#8,#98,$);#8=IFCLOCALPLACEMENT($);",
        defect: b"Fields 9",
    },
    // what is taken is followed
    Row {
        instances: b"#9=IFCCOLUMN($,$,$,$,$,#97,#98,$,$);",
        defect: b"Missing 97",
    },
    Row {
        instances: b"#9=IFCCOLUMN($,$,$,$,$,#98,#97,$,$);",
        defect: b"Missing 97",
    },
    Row {
        instances: b"#9=IFCSPACE('',$,$,$,$,$,#98,$,$,$,$);",
        defect: b"Missing 98",
    },
    Row {
        instances: b"#9=IFCSPACE('',$,$,$,$,#8,#98,$,$,$,$);#8=IFCLOCALPLACEMENT($);",
        defect: b"Fields 8",
    },
    // an instance of another keyword, or a complex one, is not read there
    Row {
        instances: b"#9=IFCBEAM($,$,$,$,$,#8,#7,$,$);#8=IFCGRIDPLACEMENT();#7=(A()B());",
        defect: b"none",
    },
    // openings: of an element that is taken, of one that is not, of no element
    Row {
        instances: b"#9=IFCOPENINGELEMENT($,$,$,$,$,#98,#30,$,$);",
        defect: b"none",
    },
    Row {
        instances: b"#9=IFCOPENINGELEMENT($,$,$,$,$,#98,#30,$,$);#8=IFCRELVOIDSELEMENT($,$,$,$,#20,#9);",
        defect: b"Missing 98",
    },
    Row {
        instances: b"#9=IFCOPENINGELEMENT($,$,$,$,$,#98,#30,$,$);#8=IFCRELVOIDSELEMENT($,$,$,$,#7,#9);\
#7=IFCSLAB($,$,$,$,$,$,$,$,$);",
        defect: b"none",
    },
    Row {
        instances: b"#9=IFCOPENINGELEMENT($,$,$,$,$,#98,$,$,$);#8=IFCRELVOIDSELEMENT($,$,$,$,#20,#9);",
        defect: b"none",
    },
];

#[test]
fn products_are_judged(rt: HostRuntime) -> Result<(), Fail> {
    let alloc = rt.alloc();
    for (at, row) in ROWS.iter().enumerate() {
        assert!(rt; holds(alloc, row)?, "row {at}");
    }
    Ok(())
}
