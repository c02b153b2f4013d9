//! Products of one plain box each, by their numbers.

ghost use Rattle.std.specs.Prelude.{IfOk, IsTrue};
ghost use Rattle.std.specs.List.{list_all};
ghost use Rattle.sb_model.specs.Building.{is_shift, is_layering};

use sb_fraction::Point;
use sb_model::{
    Axis, Element, Elements, FillKind, Filling, Fillings, Frame, Layering, LoopError, Loops,
    Opening, Openings, PointLists, Points, Prism, Space, Spaces, Text, Turn,
};
use std::alloc::{AllocError, Global};

/// The box from 0 to 10 mm along each axis.
pub(crate) fn unit_box(alloc: Global) -> Result<Prism, AllocError> {
    let mut corners = Points::new(alloc);
    corners.push(Point { x: 0, y: 0 })?;
    corners.push(Point { x: 10, y: 0 })?;
    corners.push(Point { x: 10, y: 10 })?;
    corners.push(Point { x: 0, y: 10 })?;
    let mut loops = PointLists::new(alloc);
    loops.push(corners)?;
    match Loops::new(alloc, loops) {
        Ok(loops) => Ok(Prism::new(loops, 0, 10)),
        Err(LoopError::Flat) => Err(AllocError),
        Err(LoopError::Knot) => Err(AllocError),
        Err(LoopError::NoMemory) => Err(AllocError),
    }
}

/// Spaces with these numbers, not turned.
pub fn spaces(alloc: Global, numbers: &[u32]) -> Result<Spaces, AllocError>
    ensures { IfOk result (λ list. IsTrue (list_all (λ s. is_shift s.frame.shift) list)) }
{
    let mut list = Spaces::new(alloc);
    'numbers: for number in numbers {
        list.push(space(alloc, *number)?)?;
    }
    Ok(list)
}

fn space(alloc: Global, number: u32) -> Result<Space, AllocError>
    ensures { IfOk result (λ s. IsTrue (is_shift s.frame.shift)) }
{
    let Some(turn) = Turn::new(Axis { x: 1, y: 0, z: 0 }, Axis { x: 0, y: 0, z: 1 }) else {
        return Err(AllocError);
    };
    Ok(Space {
        number,
        global_id: Text::new(alloc),
        prism: unit_box(alloc)?,
        frame: Frame {
            turn,
            shift: [0, 0, 0],
        },
    })
}

/// Elements with these numbers, without layers.
pub fn elements(alloc: Global, numbers: &[u32]) -> Result<Elements, AllocError>
    ensures { IfOk result (λ list. IsTrue (list_all (λ e. is_layering e.layering) list)) }
{
    let mut list = Elements::new(alloc);
    'numbers: for number in numbers {
        list.push(Element {
            number: *number,
            prism: unit_box(alloc)?,
            layering: Layering::Plain,
        })?;
    }
    Ok(list)
}

/// Openings, each with its number and that of its element.
pub fn openings(alloc: Global, numbers: &[(u32, u32)]) -> Result<Openings, AllocError> {
    let mut list = Openings::new(alloc);
    for pair in numbers {
        list.push(Opening {
            number: pair.0,
            element: pair.1,
            prism: unit_box(alloc)?,
        })?;
    }
    Ok(list)
}

/// Windows, each with its number and that of its opening.
pub fn fillings(alloc: Global, numbers: &[(u32, u32)]) -> Result<Fillings, AllocError> {
    let mut list = Fillings::new(alloc);
    for pair in numbers {
        list.push(Filling {
            number: pair.0,
            opening: pair.1,
            kind: FillKind::Window,
        })?;
    }
    Ok(list)
}
