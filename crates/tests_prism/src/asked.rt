// How a row is asked: a text with these instances, and what is answered of its shape #1 as a text.
use sb_fraction::Unit;
use sb_prism::{PrismError, shape_at};
use sb_step::{StepError, index};
use std::alloc::{AllocError, Global};

/// A solid #3 and what it names, and what is to be answered of the shape #1 that has it.
pub(crate) struct Row {
    pub(crate) solid: &'static [u8],
    pub(crate) answer: &'static [u8],
}

/// The shape #1 with the one solid #3, and the placements that solids name.
const SHAPE: &[u8] = b"#1=IFCPRODUCTDEFINITIONSHAPE($,$,(#2));\
#2=IFCSHAPEREPRESENTATION($,'Body','SweptSolid',(#3));#5=IFCAXIS2PLACEMENT3D(#8,$,$);\
#6=IFCDIRECTION((0.,0.,1.));#7=IFCAXIS2PLACEMENT2D(#9,$);#8=IFCCARTESIANPOINT((0.,0.,0.));\
#9=IFCCARTESIANPOINT((2000.,1500.));";

/// Whether the row is answered as it says.
pub(crate) fn holds(alloc: Global, row: &Row) -> Result<bool, AllocError> {
    is_answered(alloc, SHAPE, row.solid, row.answer)
}

/// Whether of the shape #1 in a text of these instances this is answered.
pub(crate) fn is_answered(
    alloc: Global,
    shape: &[u8],
    solids: &[u8],
    wanted: &[u8],
) -> Result<bool, AllocError> {
    let mut instances = bytes(alloc, shape)?;
    instances.extend_from_slice(solids)?;
    let told = answer(alloc, &instances)?;
    Ok(told.as_slice() == wanted)
}

/// What is answered of the shape #1 in a text of these instances.
fn answer(alloc: Global, instances: &[u8]) -> Result<Vec<u8>, AllocError> {
    let input = text_of(alloc, instances)?;
    match index(alloc, &input) {
        Ok(file) => {
            let kept = shape_at(alloc, &file, 1, Unit::Millimetre)?;
            match kept.sound() {
                Ok(_) => bytes(alloc, b"sound"),
                Err(error) => told(alloc, error),
            }
        }
        Err(StepError::NoMemory) => Err(AllocError),
        Err(_) => bytes(alloc, b"no text"),
    }
}

/// The exchange text of these instances, and of these.
pub(crate) fn indexed_text(
    alloc: Global,
    shape: &[u8],
    solids: &[u8],
) -> Result<Vec<u8>, AllocError> {
    let mut instances = bytes(alloc, shape)?;
    instances.extend_from_slice(solids)?;
    text_of(alloc, &instances)
}

/// The exchange text of these instances.
fn text_of(alloc: Global, instances: &[u8]) -> Result<Vec<u8>, AllocError> {
    let mut input = bytes(alloc, b"ISO-10303-21;HEADER;A();ENDSEC;DATA;")?;
    input.extend_from_slice(instances)?;
    input.extend_from_slice(b"ENDSEC;END-ISO-10303-21;")?;
    Ok(input)
}

fn bytes(alloc: Global, text: &[u8]) -> Result<Vec<u8>, AllocError> {
    let mut all = Vec::new(alloc);
    all.extend_from_slice(text)?;
    Ok(all)
}

/// A refusal as a text.
pub(crate) fn told(alloc: Global, error: PrismError) -> Result<Vec<u8>, AllocError> {
    let text = match error {
        PrismError::Fields(n) => format!(in alloc; "Fields {n}")?,
        PrismError::Missing(n) => format!(in alloc; "Missing {n}")?,
        PrismError::Turned => format!(in alloc; "Turned")?,
        PrismError::Shape => format!(in alloc; "Shape")?,
        PrismError::Range => format!(in alloc; "Range")?,
        PrismError::OffGrid => format!(in alloc; "OffGrid")?,
        PrismError::Loops => format!(in alloc; "Loops")?,
        PrismError::NoMemory => return Err(AllocError),
    };
    bytes(alloc, text.as_bytes())
}
