// How a row is asked: a text with these instances, and what is answered of it as a text.
use sb_fraction::Unit;
use sb_model::Frame;
use sb_place::{PlaceError, frame_of};
use sb_step::{StepError, index};
use std::alloc::{AllocError, Global};

/// A placement with its number, the number of the building's, and what is to be answered of it.
pub(crate) struct Row {
    pub(crate) instances: &'static [u8],
    pub(crate) placement: Option<u32>,
    pub(crate) building: Option<u32>,
    pub(crate) answer: &'static [u8],
}

/// Whether the row is answered as it says.
pub(crate) fn holds(alloc: Global, row: &Row, unit: Unit) -> Result<bool, AllocError> {
    let told = answer(alloc, row.instances, row.placement, row.building, unit)?;
    Ok(told.as_slice() == row.answer)
}

/// Whether the text is the one that is wanted.
pub(crate) fn is(text: &Vec<u8>, wanted: &[u8]) -> bool {
    text.as_slice() == wanted
}

/// What is answered of a placement in a text of these instances.
pub(crate) fn answer(
    alloc: Global,
    instances: &[u8],
    placement: Option<u32>,
    building: Option<u32>,
    unit: Unit,
) -> Result<Vec<u8>, AllocError> {
    let input = text_of(alloc, instances)?;
    match index(alloc, &input) {
        Ok(file) => told(alloc, frame_of(alloc, &file, placement, building, unit)),
        Err(StepError::NoMemory) => Err(AllocError),
        Err(_) => bytes(alloc, b"no text"),
    }
}

/// The exchange text of these instances.
pub(crate) fn text_of(alloc: Global, instances: &[u8]) -> Result<Vec<u8>, AllocError> {
    let mut input = bytes(alloc, b"ISO-10303-21;HEADER;A();ENDSEC;DATA;")?;
    input.extend_from_slice(instances)?;
    input.extend_from_slice(b"ENDSEC;END-ISO-10303-21;")?;
    Ok(input)
}

fn bytes(alloc: Global, text: &[u8]) -> Result<Vec<u8>, AllocError> {
    let mut all = Vec::new(alloc);
    all.extend_from_slice(text)?;
    Ok(all)
}

/// An answer as a text: where the frame turns the point (1, 2, 3), and its shift.
pub(crate) fn told(
    alloc: Global,
    answer: Result<Frame, PlaceError>,
) -> Result<Vec<u8>, AllocError> {
    let text = match answer {
        Ok(frame) => return shown(alloc, &frame),
        Err(PlaceError::Fields(n)) => format!(in alloc; "Fields {n}")?,
        Err(PlaceError::Missing(n)) => format!(in alloc; "Missing {n}")?,
        Err(PlaceError::Chain) => format!(in alloc; "Chain")?,
        Err(PlaceError::Turned) => format!(in alloc; "Turned")?,
        Err(PlaceError::Range) => format!(in alloc; "Range")?,
        Err(PlaceError::NoMemory) => return Err(AllocError),
    };
    bytes(alloc, text.as_bytes())
}

fn shown(alloc: Global, frame: &Frame) -> Result<Vec<u8>, AllocError> {
    let turned = Frame {
        turn: frame.turn,
        shift: [0, 0, 0],
    };
    let [a, b, c] = turned.apply([1, 2, 3]);
    let [x, y, z] = frame.shift;
    let text = format!(in alloc; "{a} {b} {c} by {x} {y} {z}")?;
    bytes(alloc, text.as_bytes())
}
