// The text of a file, and answers as texts.
use sb_model::{Frame, Layering, Layers};
use sb_place::PlaceError;
use std::alloc::{AllocError, Global};

/// The exchange text of these instances.
pub(crate) fn text_of(alloc: Global, instances: &[u8]) -> Result<Vec<u8>, AllocError> {
    let mut input = bytes(alloc, b"ISO-10303-21;HEADER;A();ENDSEC;DATA;")?;
    input.extend_from_slice(instances)?;
    input.extend_from_slice(b"ENDSEC;END-ISO-10303-21;")?;
    Ok(input)
}

pub(crate) fn bytes(alloc: Global, text: &[u8]) -> Result<Vec<u8>, AllocError> {
    let mut all = Vec::new(alloc);
    all.extend_from_slice(text)?;
    Ok(all)
}

/// A frame: where it turns the point (1, 2, 3), and its shift; or why there is none.
pub(crate) fn frame_told(
    alloc: Global,
    answer: Result<Frame, PlaceError>,
) -> Result<Vec<u8>, AllocError> {
    let text = match answer {
        Ok(frame) => return frame_shown(alloc, &frame),
        Err(PlaceError::Fields(n)) => format!(in alloc; "Fields {n}")?,
        Err(PlaceError::Missing(n)) => format!(in alloc; "Missing {n}")?,
        Err(PlaceError::Chain) => format!(in alloc; "Chain")?,
        Err(PlaceError::Turned) => format!(in alloc; "Turned")?,
        Err(PlaceError::Range) => format!(in alloc; "Range")?,
        Err(PlaceError::NoMemory) => return Err(AllocError),
    };
    bytes(alloc, text.as_bytes())
}

fn frame_shown(alloc: Global, frame: &Frame) -> Result<Vec<u8>, AllocError> {
    let turned = Frame {
        turn: frame.turn,
        shift: [0, 0, 0],
    };
    let [a, b, c] = turned.apply([1, 2, 3]);
    let [x, y, z] = frame.shift;
    let text = format!(in alloc; "{a} {b} {c} by {x} {y} {z}")?;
    bytes(alloc, text.as_bytes())
}

/// A layering: the index, the name and the thickness of each layer, and the axis.
pub(crate) fn layering_told(
    alloc: Global,
    answer: Option<Layering>,
) -> Result<Vec<u8>, AllocError> {
    match answer {
        None => bytes(alloc, b"not read"),
        Some(Layering::Plain) => bytes(alloc, b"plain"),
        Some(Layering::Single(name)) => {
            let mut text = bytes(alloc, b"all ")?;
            text.extend_from_slice(name.bytes())?;
            Ok(text)
        }
        Some(Layering::Layered(layers, axis)) => {
            let mut text = layers_told(alloc, &layers)?;
            let along = format!(in alloc; "along {} {} {}", axis.x, axis.y, axis.z)?;
            text.extend_from_slice(along.as_bytes())?;
            Ok(text)
        }
    }
}

fn layers_told(alloc: Global, layers: &Layers) -> Result<Vec<u8>, AllocError> {
    let mut text = Vec::new(alloc);
    for layer in layers.as_slice() {
        let index = format!(in alloc; "{} ", layer.index)?;
        text.extend_from_slice(index.as_bytes())?;
        text.extend_from_slice(layer.material.bytes())?;
        let micro = format!(in alloc; " {}, ", layer.micro)?;
        text.extend_from_slice(micro.as_bytes())?;
    }
    Ok(text)
}
