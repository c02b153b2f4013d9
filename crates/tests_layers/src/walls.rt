//! Walls of one box each: 100 mm thick, from x = 4000 to 4100.

ghost use Rattle.std.specs.Prelude.{◌≡◌, ◌∷◌, [], IfOk, IsTrue, pos, negsuc};
ghost use Rattle.sb_fraction.specs.Spots.{vector};
ghost use Rattle.sb_model.specs.declared.layers.Layering.TheVariants.{Plain, Layered};
ghost use Rattle.sb_model.specs.Building.{is_layering};
ghost use Rattle.sb_model.specs.Walks.{lies_along};

use sb_fraction::Point;
use sb_model::{
    Axis, Element, Layer, Layering, Layers, LoopError, Loops, PointLists, Points, Prism, Text,
};
use std::alloc::{AllocError, Global};

/// The box of the wall.
fn wall_box(alloc: Global) -> Result<Prism, AllocError> {
    let mut corners = Points::new(alloc);
    corners.push(Point { x: 4000, y: 0 })?;
    corners.push(Point { x: 4100, y: 0 })?;
    corners.push(Point { x: 4100, y: 3000 })?;
    corners.push(Point { x: 4000, y: 3000 })?;
    let mut loops = PointLists::new(alloc);
    loops.push(corners)?;
    match Loops::new(alloc, loops) {
        Ok(loops) => Ok(Prism::new(loops, 0, 2500)),
        Err(LoopError::Flat) => Err(AllocError),
        Err(LoopError::Knot) => Err(AllocError),
        Err(LoopError::NoMemory) => Err(AllocError),
    }
}

/// Plaster of 12.5 mm, brick of 75 mm and gypsum of 12.5 mm.
fn three_layers(alloc: Global) -> Result<Layers, AllocError>
    ensures { IfOk result (λ layers. IsTrue (is_layering (Layered layers (record { x = pos 1; y = pos 0; z = pos 0 })))) }
{
    listed(
        alloc,
        layer(alloc, 1, 12500),
        layer(alloc, 2, 75000),
        layer(alloc, 3, 12500),
    )
}

/// Three layers as a list.
fn listed(alloc: Global, first: Layer, second: Layer, third: Layer) -> Result<Layers, AllocError>
    ensures { IfOk result (λ layers. layers ≡ first ∷ second ∷ third ∷ []) }
{
    let mut layers = Layers::new(alloc);
    layers.push(first)?;
    layers.push(second)?;
    layers.push(third)?;
    Ok(layers)
}

/// A layer without a material.
fn layer(alloc: Global, index: u32, micro: u64) -> Layer
    ensures index_is { result.index ≡ index }
    ensures micro_is { result.micro ≡ micro }
{
    Layer {
        index,
        material: Text::new(alloc),
        micro,
    }
}

/// Wall #30 of three layers along x.
pub fn layered_wall(alloc: Global) -> Result<Element, AllocError>
    ensures layering { IfOk result (λ e. IsTrue (is_layering e.layering)) }
    ensures east { IfOk result (λ e. IsTrue (lies_along e.layering (vector (pos 1) (pos 0) (pos 0)))) }
    ensures west { IfOk result (λ e. IsTrue (lies_along e.layering (vector (negsuc 0) (pos 0) (pos 0)))) }
{
    let layers = three_layers(alloc)?;
    Ok(Element {
        number: 30,
        prism: wall_box(alloc)?,
        layering: Layering::Layered(layers, Axis { x: 1, y: 0, z: 0 }),
    })
}

/// Wall #31 without layers.
pub fn plain_wall(alloc: Global) -> Result<Element, AllocError>
    ensures { IfOk result (λ e. e.layering ≡ Plain) }
{
    Ok(Element {
        number: 31,
        prism: wall_box(alloc)?,
        layering: Layering::Plain,
    })
}
