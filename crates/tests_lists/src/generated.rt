//! Spaces of one shape in any number, and a patch of each, to time what is written of many.

ghost use Rattle.std.specs.Prelude.{◌≤◌, IfOk, IsTrue};
ghost use Rattle.std.specs.List.{list_all};
ghost use Rattle.sb_model.specs.Building.{is_shift};

use crate::models::{prism, room, space, turn};
use crate::patches::{on_side, steep};
use sb_fraction::Point;
use sb_model::{Axis, Patch, Prism, Space, Spaces, Text};
use sb_texts::append_repeated;
use std::alloc::{AllocError, Global};

/// What shape the spaces have.
#[derive(Clone, Copy)]
pub enum Shape {
    /// A box, whose corners are in whole millimetres.
    Box,
    /// A wedge with a side whose corners have denominators near 4·10^24.
    Wedge,
}

/// Spaces #1, #2 and so on, each with a GlobalId of so many zeros, in one frame that is turned and shifted.
pub fn spaces_of(
    alloc: Global,
    shape: Shape,
    count: u16,
    length: usize,
) -> Result<Spaces, AllocError>
    ensures { IfOk result (λ list. IsTrue (list_all (λ s. is_shift s.frame.shift) list)) }
{
    let mut list = Spaces::new(alloc);
    'indices: for index in 0..count {
        list.push(one(alloc, shape, u32::from(index) + 1, length)?)?;
    }
    Ok(list)
}

fn one(alloc: Global, shape: Shape, number: u32, length: usize) -> Result<Space, AllocError>
    ensures { IfOk result (λ s. IsTrue (is_shift s.frame.shift)) }
{
    let turn = turn(Axis { x: 0, y: 1, z: 0 }, Axis { x: 0, y: 0, z: 1 })?;
    let mut name = Text::new(alloc);
    append_repeated(&mut name, b'0', length)?;
    let prism = prism_of(alloc, shape)?;
    Ok(space(number, name, prism, turn, [4_000_000_000, 0, 0]))
}

fn prism_of(alloc: Global, shape: Shape) -> Result<Prism, AllocError> {
    match shape {
        Shape::Box => room(alloc),
        Shape::Wedge => wedge(alloc),
    }
}

fn wedge(alloc: Global) -> Result<Prism, AllocError> {
    prism(
        alloc,
        &[
            Point {
                x: -500_000,
                y: -500_000,
            },
            Point {
                x: 500_000,
                y: 499_999,
            },
            Point {
                x: -500_000,
                y: 499_999,
            },
        ],
        0,
        2500,
    )
}

/// A patch of a space of this shape.
pub fn patch_of(shape: Shape, space: u32) -> Patch {
    match shape {
        Shape::Box => on_side(space, 1, 0, 3000, 0, 2500),
        Shape::Wedge => steep(space),
    }
}

/// The space of the boundary at this place, counted from 0: each in turn has 128.
pub fn space_at(index: u32, spaces: u32) -> u32
    requires { 1 ≤ spaces }
{
    (index / 128 % spaces).saturating_add(1)
}
