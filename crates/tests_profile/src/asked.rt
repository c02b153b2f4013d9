// How a row is asked: a text of these header entities and instances, and its first defect as a text.
use sb_profile::{Code, Defect, first_defect};
use sb_step::{StepError, index};
use std::alloc::{AllocError, Global};

/// The header entity of the schema that is read.
pub(crate) const SCHEMA: &[u8] = b"FILE_SCHEMA(('IFC4'));";

/// One unit of lengths.
pub(crate) const UNITS: &[u8] =
    b"#1=IFCUNITASSIGNMENT((#2));#2=IFCSIUNIT(*,.LENGTHUNIT.,.MILLI.,.METRE.);";

/// One building, which has a placement that is absent.
pub(crate) const BUILDING: &[u8] = b"#3=IFCBUILDING($,$,$,$,$,#4,$,$,$,$,$,$);";

/// A wall with all that is read of it, and a representation whose item is absent: it is no body.
const WALL: &[u8] = b"#20=IFCWALL($,$,$,$,$,#21,#30,$,$);#21=IFCLOCALPLACEMENT(#4,#22);\
#22=IFCAXIS2PLACEMENT3D(#23,#24,#25);#23=IFCCARTESIANPOINT((0.,0.,0.));\
#24=IFCDIRECTION((0.,0.,1.));#25=IFCDIRECTION((1.,0.,0.));\
#30=IFCPRODUCTDEFINITIONSHAPE($,$,(#31,#32));#31=IFCSHAPEREPRESENTATION($,'Axis','Curve2D',(#99));\
#32=IFCSHAPEREPRESENTATION($,'Body','SweptSolid',(#33));#33=IFCEXTRUDEDAREASOLID(#34,$,#24,3000.);\
#34=IFCRECTANGLEPROFILEDEF(.AREA.,$,#35,4000.,300.);#35=IFCAXIS2PLACEMENT2D(#36,$);\
#36=IFCCARTESIANPOINT((2000.,150.));";

/// Instances behind the unit, the building and the wall, and the first defect.
pub(crate) struct Row {
    pub(crate) instances: &'static [u8],
    pub(crate) defect: &'static [u8],
}

/// Whether the row has the defect that it says.
pub(crate) fn holds(alloc: Global, row: &Row) -> Result<bool, AllocError> {
    has(alloc, row.instances, row.defect)
}

/// Whether a text with these instances behind the unit, the building and the wall has this defect.
pub(crate) fn has(alloc: Global, instances: &[u8], defect: &[u8]) -> Result<bool, AllocError> {
    let mut all = bytes(alloc, UNITS)?;
    all.extend_from_slice(BUILDING)?;
    all.extend_from_slice(WALL)?;
    all.extend_from_slice(instances)?;
    let told = told(alloc, SCHEMA, all.as_slice())?;
    Ok(told.as_slice() == defect)
}

/// The first defect of a text of these header entities and instances.
pub(crate) fn told(alloc: Global, header: &[u8], instances: &[u8]) -> Result<Vec<u8>, AllocError> {
    let mut input = bytes(alloc, b"ISO-10303-21;HEADER;")?;
    input.extend_from_slice(header)?;
    input.extend_from_slice(b"ENDSEC;DATA;")?;
    input.extend_from_slice(instances)?;
    input.extend_from_slice(b"ENDSEC;END-ISO-10303-21;")?;
    match index(alloc, &input) {
        Ok(file) => shown(alloc, first_defect(alloc, &file)?),
        Err(StepError::NoMemory) => Err(AllocError),
        Err(_) => bytes(alloc, b"no text"),
    }
}

/// A defect as a text.
fn shown(alloc: Global, defect: Option<Defect>) -> Result<Vec<u8>, AllocError> {
    let Some(defect) = defect else {
        return bytes(alloc, b"none");
    };
    let number = defect.number;
    let text = match defect.code {
        Code::Schema => format!(in alloc; "Schema {number}")?,
        Code::Units => format!(in alloc; "Units {number}")?,
        Code::Building => format!(in alloc; "Building {number}")?,
        Code::Class => format!(in alloc; "Class {number}")?,
        Code::Fields => format!(in alloc; "Fields {number}")?,
        Code::Missing => format!(in alloc; "Missing {number}")?,
        _ => format!(in alloc; "of a product {number}")?,
    };
    bytes(alloc, text.as_bytes())
}

pub(crate) fn bytes(alloc: Global, text: &[u8]) -> Result<Vec<u8>, AllocError> {
    let mut all = Vec::new(alloc);
    all.extend_from_slice(text)?;
    Ok(all)
}
