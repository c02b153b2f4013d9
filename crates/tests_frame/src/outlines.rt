//! Products by their outlines in plan, 10 mm high.

ghost use Rattle.std.specs.Prelude.{IfOk, IsTrue};
ghost use Rattle.std.specs.List.{list_all};
ghost use Rattle.sb_fraction.specs.Plane.{is_plan_point};
ghost use Rattle.sb_model.specs.Building.{is_shift, is_layering};

use sb_fraction::{Point, Unit};
use sb_model::{
    Axis, Element, Elements, Fillings, Frame, Layering, LoopError, Loops, Model, Openings,
    PointLists, Points, Prism, Space, Spaces, Text, Turn,
};
use std::alloc::{AllocError, Global};

/// A product by its number and its four corners in plan, in millimetres (mm).
#[derive(Clone, Copy)]
pub struct Outline {
    pub number: u32,
    pub first: (u16, u16),
    pub second: (u16, u16),
    pub third: (u16, u16),
    pub fourth: (u16, u16),
}

/// From the first to the second of `x`, and so along y.
pub fn rectangle(number: u32, x: (u16, u16), y: (u16, u16)) -> Outline {
    Outline {
        number,
        first: (x.0, y.0),
        second: (x.1, y.0),
        third: (x.1, y.1),
        fourth: (x.0, y.1),
    }
}

/// Over three corners.
pub fn triangle(number: u32, a: (u16, u16), b: (u16, u16), c: (u16, u16)) -> Outline {
    Outline {
        number,
        first: a,
        second: b,
        third: c,
        fourth: c,
    }
}

fn corner(p: (u16, u16)) -> Point
    ensures { IsTrue (is_plan_point result) }
{
    Point {
        x: i32::from(p.0),
        y: i32::from(p.1),
    }
}

fn prism(alloc: Global, outline: &Outline) -> Result<Prism, AllocError> {
    let mut corners = Points::new(alloc);
    corners.push(corner(outline.first))?;
    corners.push(corner(outline.second))?;
    corners.push(corner(outline.third))?;
    corners.push(corner(outline.fourth))?;
    let mut loops = PointLists::new(alloc);
    loops.push(corners)?;
    match Loops::new(alloc, loops) {
        Ok(loops) => Ok(Prism::new(loops, 0, 10)),
        Err(LoopError::Flat) => Err(AllocError),
        Err(LoopError::Knot) => Err(AllocError),
        Err(LoopError::NoMemory) => Err(AllocError),
    }
}

fn space(alloc: Global, outline: &Outline) -> Result<Space, AllocError>
    ensures { IfOk result (λ s. IsTrue (is_shift s.frame.shift)) }
{
    let Some(turn) = Turn::new(Axis { x: 1, y: 0, z: 0 }, Axis { x: 0, y: 0, z: 1 }) else {
        return Err(AllocError);
    };
    Ok(Space {
        number: outline.number,
        global_id: Text::new(alloc),
        prism: prism(alloc, outline)?,
        frame: Frame {
            turn,
            shift: [0, 0, 0],
        },
    })
}

fn spaces(alloc: Global, outlines: &[Outline]) -> Result<Spaces, AllocError>
    ensures { IfOk result (λ list. IsTrue (list_all (λ s. is_shift s.frame.shift) list)) }
{
    let mut list = Spaces::new(alloc);
    'outlines: for outline in outlines {
        list.push(space(alloc, outline)?)?;
    }
    Ok(list)
}

fn elements(alloc: Global, outlines: &[Outline]) -> Result<Elements, AllocError>
    ensures { IfOk result (λ list. IsTrue (list_all (λ e. is_layering e.layering) list)) }
{
    let mut list = Elements::new(alloc);
    'outlines: for outline in outlines {
        list.push(Element {
            number: outline.number,
            prism: prism(alloc, outline)?,
            layering: Layering::Plain,
        })?;
    }
    Ok(list)
}

/// The model of spaces and elements with these outlines; `None` where their numbers are bad.
pub fn model_of(
    alloc: Global,
    of_spaces: &[Outline],
    of_elements: &[Outline],
) -> Result<Option<Model>, AllocError> {
    let made = Model::new(
        alloc,
        Unit::Millimetre,
        0,
        1000,
        spaces(alloc, of_spaces)?,
        elements(alloc, of_elements)?,
        Openings::new(alloc),
        Fillings::new(alloc),
    );
    Ok(made.ok())
}
