//! The models of the rows. Lengths are in millimetres (mm), thicknesses in micrometres (µm).

ghost use Rattle.std.specs.Prelude.{◌≡◌, ◌≤ℤ◌, ◌∷◌, [], IfOk, IsTrue, pos};
ghost use Rattle.std.specs.List.{list_all};
ghost use Rattle.sb_model.specs.declared.layers.Layering.TheVariants.{Layered};
ghost use Rattle.sb_model.specs.Building.{is_layering, is_shift};

use sb_fraction::{Point, Unit};
use sb_model::{
    Axis, Element, Elements, FillKind, Filling, Fillings, Layer, Layering, Layers, Model, Openings,
    Prism, Space, Spaces, Text,
};
use std::alloc::{AllocError, Global};
use tests_lists::{prism, space, turn};
use tests_model::openings;

/// A space over [x, x + 4000], [0, 3000], from 0 to 2500, not turned.
fn room_at(alloc: Global, number: u32, x: i32) -> Result<Space, AllocError>
    requires low { pos 0 ≤ℤ x }
    requires high { x ≤ℤ pos 5000 }
    ensures { IfOk result (λ s. IsTrue (is_shift s.frame.shift)) }
{
    let prism = prism(
        alloc,
        &[
            Point { x, y: 0 },
            Point { x: x + 4000, y: 0 },
            Point {
                x: x + 4000,
                y: 3000,
            },
            Point { x, y: 3000 },
        ],
        0,
        2500,
    )?;
    let east = Axis { x: 1, y: 0, z: 0 };
    let up = Axis { x: 0, y: 0, z: 1 };
    let turn = turn(east, up)?;
    Ok(space(number, Text::new(alloc), prism, turn, [0, 0, 0]))
}

/// A layer of this material.
fn layer(index: u32, material: Text, micro: u64) -> Layer
    ensures index_is { result.index ≡ index }
    ensures micro_is { result.micro ≡ micro }
{
    Layer {
        index,
        material,
        micro,
    }
}

/// Three layers as a list.
fn listed(alloc: Global, first: Layer, second: Layer, third: Layer) -> Result<Layers, AllocError>
    ensures { IfOk result (λ layers. layers ≡ first ∷ second ∷ third ∷ []) }
{
    let mut layers = Layers::new(alloc);
    layers.push(first)?;
    layers.push(second)?;
    layers.push(third)?;
    Ok(layers)
}

/// Plaster of 12.5 mm, brick of 75 mm and gypsum of 12.5 mm.
fn three_layers(alloc: Global) -> Result<Layers, AllocError>
    ensures { IfOk result (λ layers. IsTrue (is_layering (Layered layers (record { x = pos 1; y = pos 0; z = pos 0 })))) }
{
    let plaster = Text::of(alloc, b"Plaster")?;
    let brick = Text::of(alloc, b"Brick")?;
    let gypsum = Text::of(alloc, b"Gypsum")?;
    of_materials(alloc, plaster, brick, gypsum)
}

/// 12.5 mm, 75 mm and 12.5 mm of these materials.
fn of_materials(alloc: Global, first: Text, second: Text, third: Text) -> Result<Layers, AllocError>
    ensures { IfOk result (λ layers. IsTrue (is_layering (Layered layers (record { x = pos 1; y = pos 0; z = pos 0 })))) }
{
    listed(
        alloc,
        layer(1, first, 12_500),
        layer(2, second, 75_000),
        layer(3, third, 12_500),
    )
}

/// The box of the walls.
fn between_rooms(alloc: Global) -> Result<Prism, AllocError> {
    prism(
        alloc,
        &[
            Point { x: 4000, y: 0 },
            Point { x: 4100, y: 0 },
            Point { x: 4100, y: 3000 },
            Point { x: 4000, y: 3000 },
        ],
        0,
        2500,
    )
}

/// Wall #30 of these layers along x.
fn wall(alloc: Global) -> Result<Element, AllocError>
    ensures { IfOk result (λ e. IsTrue (is_layering e.layering)) }
{
    let prism = between_rooms(alloc)?;
    let layers = three_layers(alloc)?;
    Ok(Element {
        number: 30,
        prism,
        layering: Layering::Layered(layers, Axis { x: 1, y: 0, z: 0 }),
    })
}

/// Wall #31, which has no material.
fn plain_wall(alloc: Global) -> Result<Element, AllocError>
    ensures { IfOk result (λ e. IsTrue (is_layering e.layering)) }
{
    Ok(Element {
        number: 31,
        prism: between_rooms(alloc)?,
        layering: Layering::Plain,
    })
}

/// A window #50 in opening #41, and a door #51 in opening #42.
fn window_and_door(alloc: Global) -> Result<Fillings, AllocError> {
    let mut list = Fillings::new(alloc);
    list.push(Filling {
        number: 50,
        opening: 41,
        kind: FillKind::Window,
    })?;
    list.push(Filling {
        number: 51,
        opening: 42,
        kind: FillKind::Door,
    })?;
    Ok(list)
}

/// The spaces #20 and #21, [0,4000] and [4100,8100] by [0,3000], with a wall of three layers between them
/// and a plain one, an opening #40 of the first that nothing fills, a window and a door.
pub fn two_rooms(alloc: Global) -> Result<Model, AllocError> {
    let mut spaces = Spaces::new(alloc);
    spaces.push(room_at(alloc, 20, 0)?)?;
    spaces.push(room_at(alloc, 21, 4100)?)?;
    let mut elements = Elements::new(alloc);
    elements.push(wall(alloc)?)?;
    elements.push(plain_wall(alloc)?)?;
    let openings = openings(alloc, &[(40, 30), (41, 30), (42, 30)])?;
    let fillings = window_and_door(alloc)?;
    with(alloc, spaces, elements, openings, fillings)
}

/// The model of these products, with the ground at 0.
fn with(
    alloc: Global,
    spaces: Spaces,
    elements: Elements,
    openings: Openings,
    fillings: Fillings,
) -> Result<Model, AllocError>
    requires spaces_in { IsTrue (list_all (λ s. is_shift s.frame.shift) spaces) }
    requires elements_in { IsTrue (list_all (λ e. is_layering e.layering) elements) }
{
    let made = Model::new(
        alloc,
        Unit::Millimetre,
        0,
        1000,
        spaces,
        elements,
        openings,
        fillings,
    );
    match made {
        Ok(model) => Ok(model),
        Err(_) => Err(AllocError),
    }
}

/// The model without products.
pub fn no_space(alloc: Global) -> Result<Model, AllocError> {
    with(
        alloc,
        Spaces::new(alloc),
        Elements::new(alloc),
        Openings::new(alloc),
        Fillings::new(alloc),
    )
}
