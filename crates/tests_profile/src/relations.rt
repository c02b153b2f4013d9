// Relations, in any order and several of a kind, and what elements are made of.
use crate::asked::{Row, holds};
use std::test::Fail;

const ROWS: [Row; 24] = [
    // nothing follows from a relation by itself
    Row {
        instances: b"#9=IFCRELVOIDSELEMENT($,$,$,$,#97,#98);#8=IFCRELFILLSELEMENT($,$,$,$,#97,#98);\
#7=IFCRELASSOCIATESMATERIAL($,$,$,$,(#97),#98);#6=IFCRELDEFINESBYTYPE($,$,$,$,(#97),#98);",
        defect: b"none",
    },
    // each just not of its row
    Row {
        instances: b"#9=IFCRELVOIDSELEMENT($,$,$,$,#20);",
        defect: b"Fields 9",
    },
    Row {
        instances: b"#9=IFCRELFILLSELEMENT($,$,$,$,#20,$);",
        defect: b"Fields 9",
    },
    Row {
        instances: b"#9=IFCRELASSOCIATESMATERIAL($,$,$,$,#20,#98);",
        defect: b"Fields 9",
    },
    Row {
        instances: b"#9=IFCRELDEFINESBYTYPE($,$,$,$,(#20,$),#98);",
        defect: b"Fields 9",
    },
    // what the wall is made of: absent, complex, of another keyword, of its row, and not
    Row {
        instances: b"#9=IFCRELASSOCIATESMATERIAL($,$,$,$,(#20),#98);",
        defect: b"Missing 98",
    },
    Row {
        instances: b"#9=IFCRELASSOCIATESMATERIAL($,$,$,$,(#98,#20,#20),#8);#8=(IFCMATERIAL()A());",
        defect: b"none",
    },
    Row {
        instances: b"#9=IFCRELASSOCIATESMATERIAL($,$,$,$,(#20),#8);#8=IFCMATERIALLIST((#98));",
        defect: b"none",
    },
    Row {
        instances: b"#9=IFCRELASSOCIATESMATERIAL($,$,$,$,(#20),#8);#8=IFCMATERIAL('brick',$,$);",
        defect: b"none",
    },
    Row {
        instances: b"#9=IFCRELASSOCIATESMATERIAL($,$,$,$,(#20),#8);#8=IFCMATERIAL('brick',$);",
        defect: b"Fields 8",
    },
    // only the lowest relation counts, whether it stands first or last
    Row {
        instances: b"#10=IFCRELASSOCIATESMATERIAL($,$,$,$,(#20),#98);\
#9=IFCRELASSOCIATESMATERIAL($,$,$,$,(#20),#8);#8=IFCMATERIAL('brick',$,$);",
        defect: b"none",
    },
    Row {
        instances: b"#9=IFCRELASSOCIATESMATERIAL($,$,$,$,(#20),#98);\
#10=IFCRELASSOCIATESMATERIAL($,$,$,$,(#20),#97);",
        defect: b"Missing 98",
    },
    // one of a space is of no element
    Row {
        instances: b"#9=IFCRELASSOCIATESMATERIAL($,$,$,$,(#8),#98);#8=IFCSPACE('',$,$,$,$,$,#30,$,$,$,$);",
        defect: b"none",
    },
    // by its type, which may be absent itself
    Row {
        instances: b"#9=IFCRELDEFINESBYTYPE($,$,$,$,(#20),#97);#8=IFCRELASSOCIATESMATERIAL($,$,$,$,(#97),#98);",
        defect: b"Missing 98",
    },
    // its own relation comes before that of its type
    Row {
        instances: b"#9=IFCRELDEFINESBYTYPE($,$,$,$,(#20),#97);#8=IFCRELASSOCIATESMATERIAL($,$,$,$,(#97),#98);\
#10=IFCRELASSOCIATESMATERIAL($,$,$,$,(#20),#11);#11=IFCMATERIAL('brick',$,$);",
        defect: b"none",
    },
    // only the lowest relation to a type is asked
    Row {
        instances: b"#9=IFCRELDEFINESBYTYPE($,$,$,$,(#20),#97);#8=IFCRELASSOCIATESMATERIAL($,$,$,$,(#97),#98);\
#7=IFCRELDEFINESBYTYPE($,$,$,$,(#20),#96);",
        defect: b"none",
    },
    // a list of materials: a layer that is absent, not of its row, of another keyword
    Row {
        instances: b"#9=IFCRELASSOCIATESMATERIAL($,$,$,$,(#20),#8);\
#8=IFCMATERIALLAYERSETUSAGE(#7,.AXIS2.,.POSITIVE.,0.,$);#7=IFCMATERIALLAYERSET((#6,#98),$,$);\
#6=IFCMATERIALLAYER($,10.,$,$,$,$,$);",
        defect: b"Missing 98",
    },
    Row {
        instances: b"#9=IFCRELASSOCIATESMATERIAL($,$,$,$,(#20),#8);\
#8=IFCMATERIALLAYERSETUSAGE(#7,.AXIS2.,.POSITIVE.,0.,$);#7=IFCMATERIALLAYERSET((#6,#98),$,$);\
#6=IFCMATERIALLAYER($,10.,$,$,$,$);",
        defect: b"Fields 6",
    },
    Row {
        instances: b"#9=IFCRELASSOCIATESMATERIAL($,$,$,$,(#20),#8);\
#8=IFCMATERIALLAYERSETUSAGE(#7,.AXIS2.,.POSITIVE.,0.,$);#7=IFCMATERIALLAYERSET((#6),$,$);\
#6=IFCMATERIALCONSTITUENT(#98);",
        defect: b"none",
    },
    Row {
        instances: b"#9=IFCRELASSOCIATESMATERIAL($,$,$,$,(#20),#8);\
#8=IFCMATERIALLAYERSETUSAGE(#98,.AXIS2.,.POSITIVE.,0.,$);",
        defect: b"Missing 98",
    },
    Row {
        instances: b"#9=IFCRELASSOCIATESMATERIAL($,$,$,$,(#20),#8);\
#8=IFCMATERIALLAYERSETUSAGE(#7,.AXIS2.,$,0.,$);",
        defect: b"Fields 8",
    },
    Row {
        instances: b"#9=IFCRELASSOCIATESMATERIAL($,$,$,$,(#20),#7);#7=IFCMATERIALLAYERSET((#6),$,$);\
#6=IFCMATERIALLAYER(#98,10.,$,$,$,$,$);",
        defect: b"Missing 98",
    },
    Row {
        instances: b"#9=IFCRELASSOCIATESMATERIAL($,$,$,$,(#20),#7);#7=IFCMATERIALLAYERSET((#6),$,$);\
#6=IFCMATERIALLAYER(#5,10.,$,$,$,$,$);#5=IFCMATERIAL($,$,$);",
        defect: b"Fields 5",
    },
    // a defect of a row comes before an absent one, whichever is the lower
    Row {
        instances: b"#9=IFCRELASSOCIATESMATERIAL($,$,$,$,(#20),#7);#19=IFCRELVOIDSELEMENT();",
        defect: b"Fields 19",
    },
];

#[test]
fn relations_are_judged(rt: HostRuntime) -> Result<(), Fail> {
    let alloc = rt.alloc();
    for (at, row) in ROWS.iter().enumerate() {
        assert!(rt; holds(alloc, row)?, "row {at}");
    }
    Ok(())
}
