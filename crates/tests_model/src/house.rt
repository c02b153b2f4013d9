//! A storey with a room, a layered wall and two plain ones, by which labels are tried.

ghost use Rattle.std.specs.Prelude.{◌≡◌, IfOk, IsTrue};
ghost use Rattle.sb_fraction.specs.Bounds.{is_abscissa_size};
ghost use Rattle.sb_fraction.specs.Plane.{is_coordinate};
ghost use Rattle.sb_model.specs.Building.{is_layering};

use sb_fraction::{Fraction, Point, Unit};
use sb_model::{
    Axis, Element, Elements, Fillings, Frame, Layer, Layering, Layers, LoopError, Loops, Model,
    Openings, PointLists, Points, Prism, Space, Spaces, Text, Turn,
};
use std::alloc::{AllocError, Global};

/// From `x0` to `x1` along x, and from 0 to 10 mm along y and z.
fn block(alloc: Global, x0: i32, x1: i32) -> Result<Prism, AllocError>
    requires low_in { IsTrue (is_coordinate x0) }
    requires high_in { IsTrue (is_coordinate x1) }
{
    let mut corners = Points::new(alloc);
    corners.push(Point { x: x0, y: 0 })?;
    corners.push(Point { x: x1, y: 0 })?;
    corners.push(Point { x: x1, y: 10 })?;
    corners.push(Point { x: x0, y: 10 })?;
    let mut loops = PointLists::new(alloc);
    loops.push(corners)?;
    match Loops::new(alloc, loops) {
        Ok(loops) => Ok(Prism::new(loops, 0, 10)),
        Err(LoopError::Flat) => Err(AllocError),
        Err(LoopError::Knot) => Err(AllocError),
        Err(LoopError::NoMemory) => Err(AllocError),
    }
}

/// A layer with this index and thickness in micrometres (µm).
fn layer(alloc: Global, index: u32, micro: u64) -> Layer
    ensures index { result.index ≡ index }
    ensures micro { result.micro ≡ micro }
{
    Layer {
        index,
        material: Text::new(alloc),
        micro,
    }
}

/// Plaster 12.5 mm, brick 75 mm and plaster 12.5 mm along x.
fn three_layers(alloc: Global) -> Result<Layering, AllocError>
    ensures { IfOk result (λ l. IsTrue (is_layering l)) }
{
    let mut layers = Layers::new(alloc);
    layers.push(layer(alloc, 1, 12_500))?;
    layers.push(layer(alloc, 2, 75_000))?;
    layers.push(layer(alloc, 3, 12_500))?;
    Ok(Layering::Layered(layers, Axis { x: 1, y: 0, z: 0 }))
}

/// Space #20 from 0 to 5, element #30 from 10 to 20 in three layers, #31 from 15 to 25 and #32 from 4
/// to 6 without; the ground is at 3.
pub fn storey(alloc: Global) -> Result<Option<Model>, AllocError> {
    let Some(turn) = Turn::new(Axis { x: 1, y: 0, z: 0 }, Axis { x: 0, y: 0, z: 1 }) else {
        return Ok(None);
    };
    let mut spaces = Spaces::new(alloc);
    spaces.push(Space {
        number: 20,
        global_id: Text::new(alloc),
        prism: block(alloc, 0, 5)?,
        frame: Frame {
            turn,
            shift: [0, 0, 0],
        },
    })?;
    let mut elements = Elements::new(alloc);
    elements.push(Element {
        number: 30,
        prism: block(alloc, 10, 20)?,
        layering: three_layers(alloc)?,
    })?;
    elements.push(Element {
        number: 31,
        prism: block(alloc, 15, 25)?,
        layering: Layering::Plain,
    })?;
    elements.push(Element {
        number: 32,
        prism: block(alloc, 4, 6)?,
        layering: Layering::Plain,
    })?;
    let made = Model::new(
        alloc,
        Unit::Millimetre,
        3,
        1000,
        spaces,
        elements,
        Openings::new(alloc),
        Fillings::new(alloc),
    );
    Ok(made.ok())
}

/// A height in whole millimetres (mm).
pub fn height(z: i32) -> Fraction
    ensures { IsTrue (is_abscissa_size result) }
{
    Fraction::new(z as i128, 1)
}
