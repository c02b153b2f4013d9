//! A cube and a wedge, whose patches are tried.

use crate::spaces;
use sb_fraction::{Point, Unit};
use sb_model::{
    Axis, Elements, Fillings, Frame, LoopError, Loops, Model, Openings, PointLists, Points, Prism,
    Space, Spaces, Text, Turn,
};
use std::alloc::{AllocError, Global};

/// Space #20 from 0 to 10 mm along each axis.
pub fn cube(alloc: Global) -> Result<Option<Model>, AllocError> {
    let made = Model::new(
        alloc,
        Unit::Millimetre,
        0,
        1000,
        spaces(alloc, &[20])?,
        Elements::new(alloc),
        Openings::new(alloc),
        Fillings::new(alloc),
    );
    Ok(made.ok())
}

/// Over (0, 0), (1000, 0) and (0, 1000), 2500 mm high.
fn wedge_prism(alloc: Global) -> Result<Prism, AllocError> {
    let mut points = Points::new(alloc);
    points.push(Point { x: 0, y: 0 })?;
    points.push(Point { x: 1000, y: 0 })?;
    points.push(Point { x: 0, y: 1000 })?;
    let mut loops = PointLists::new(alloc);
    loops.push(points)?;
    match Loops::new(alloc, loops) {
        Ok(loops) => Ok(Prism::new(loops, 0, 2500)),
        Err(LoopError::Flat) => Err(AllocError),
        Err(LoopError::Knot) => Err(AllocError),
        Err(LoopError::NoMemory) => Err(AllocError),
    }
}

/// Space #20 over a triangle.
pub fn wedge(alloc: Global) -> Result<Option<Model>, AllocError> {
    let Some(turn) = Turn::new(Axis { x: 1, y: 0, z: 0 }, Axis { x: 0, y: 0, z: 1 }) else {
        return Ok(None);
    };
    let mut spaces = Spaces::new(alloc);
    spaces.push(Space {
        number: 20,
        global_id: Text::new(alloc),
        prism: wedge_prism(alloc)?,
        frame: Frame {
            turn,
            shift: [0, 0, 0],
        },
    })?;
    let made = Model::new(
        alloc,
        Unit::Millimetre,
        0,
        1000,
        spaces,
        Elements::new(alloc),
        Openings::new(alloc),
        Fillings::new(alloc),
    );
    Ok(made.ok())
}
