//! Rooms by their outlines in plan and their heights.

ghost use Rattle.std.specs.Prelude.{IfOk, IsTrue};
ghost use Rattle.std.specs.List.{list_all};
ghost use Rattle.sb_fraction.specs.Plane.{is_plan_point};
ghost use Rattle.sb_model.specs.Building.{is_shift, is_layering};

use sb_fraction::{Point, Unit};
use sb_model::{
    Axis, Element, Elements, Fillings, Frame, Layering, LoopError, Loops, Model, Openings,
    PointLists, Points, Prism, Space, Spaces, Text, Turn,
};
use std::alloc::{AllocError, Global};
use tests_frame::Outline;

/// From where to where a room or an element reaches.
#[derive(Clone, Copy)]
pub enum Height {
    /// From 0 to 10 mm.
    Lower,
    /// From 10 to 20 mm.
    Upper,
    /// From 0 to 20 mm.
    Both,
    /// From 10 to 12 mm.
    Thin,
    /// From 12 to 22 mm.
    Above,
}

/// A room, or an element: its number and corners, another outline that is left out where it lies within, and its
/// heights.
#[derive(Clone, Copy)]
pub struct Room {
    pub outline: Outline,
    pub hole: Option<Outline>,
    pub height: Height,
}

/// A room without a hole.
pub fn plain_room(outline: Outline, height: Height) -> Room {
    Room {
        outline,
        hole: None,
        height,
    }
}

/// A room from 0 to 10 mm with a hole.
pub fn with_hole(outline: Outline, hole: Outline) -> Room {
    Room {
        outline,
        hole: Some(hole),
        height: Height::Lower,
    }
}

fn corner(p: (u16, u16)) -> Point
    ensures { IsTrue (is_plan_point result) }
{
    Point {
        x: i32::from(p.0),
        y: i32::from(p.1),
    }
}

fn corners(alloc: Global, outline: &Outline) -> Result<Points, AllocError>
    ensures { IfOk result (λ points. IsTrue (list_all is_plan_point points)) }
{
    let mut corners = Points::new(alloc);
    corners.push(corner(outline.first))?;
    corners.push(corner(outline.second))?;
    corners.push(corner(outline.third))?;
    corners.push(corner(outline.fourth))?;
    Ok(corners)
}

fn one_loop(alloc: Global, outline: &Outline) -> Result<PointLists, AllocError>
    ensures { IfOk result (λ lists. IsTrue (list_all (list_all is_plan_point) lists)) }
{
    let mut lists = PointLists::new(alloc);
    lists.push(corners(alloc, outline)?)?;
    Ok(lists)
}

fn two_loops(alloc: Global, outline: &Outline, hole: &Outline) -> Result<PointLists, AllocError>
    ensures { IfOk result (λ lists. IsTrue (list_all (list_all is_plan_point) lists)) }
{
    let mut lists = PointLists::new(alloc);
    lists.push(corners(alloc, outline)?)?;
    lists.push(corners(alloc, hole)?)?;
    Ok(lists)
}

fn all_loops(alloc: Global, room: &Room) -> Result<PointLists, AllocError>
    ensures { IfOk result (λ lists. IsTrue (list_all (list_all is_plan_point) lists)) }
{
    match room.hole {
        None => one_loop(alloc, &room.outline),
        Some(hole) => two_loops(alloc, &room.outline, &hole),
    }
}

fn loops(alloc: Global, room: &Room) -> Result<Loops, AllocError> {
    match Loops::new(alloc, all_loops(alloc, room)?) {
        Ok(loops) => Ok(loops),
        Err(LoopError::Flat) => Err(AllocError),
        Err(LoopError::Knot) => Err(AllocError),
        Err(LoopError::NoMemory) => Err(AllocError),
    }
}

fn prism(alloc: Global, room: &Room) -> Result<Prism, AllocError> {
    let loops = loops(alloc, room)?;
    Ok(match room.height {
        Height::Lower => Prism::new(loops, 0, 10),
        Height::Upper => Prism::new(loops, 10, 20),
        Height::Both => Prism::new(loops, 0, 20),
        Height::Thin => Prism::new(loops, 10, 12),
        Height::Above => Prism::new(loops, 12, 22),
    })
}

fn space(alloc: Global, room: &Room) -> Result<Space, AllocError>
    ensures { IfOk result (λ s. IsTrue (is_shift s.frame.shift)) }
{
    let Some(turn) = Turn::new(Axis { x: 1, y: 0, z: 0 }, Axis { x: 0, y: 0, z: 1 }) else {
        return Err(AllocError);
    };
    Ok(Space {
        number: room.outline.number,
        global_id: Text::new(alloc),
        prism: prism(alloc, room)?,
        frame: Frame {
            turn,
            shift: [0, 0, 0],
        },
    })
}

fn spaces(alloc: Global, rooms: &[Room]) -> Result<Spaces, AllocError>
    ensures { IfOk result (λ list. IsTrue (list_all (λ s. is_shift s.frame.shift) list)) }
{
    let mut list = Spaces::new(alloc);
    'rooms: for room in rooms {
        list.push(space(alloc, room)?)?;
    }
    Ok(list)
}

fn element(alloc: Global, solid: &Room) -> Result<Element, AllocError>
    ensures { IfOk result (λ e. IsTrue (is_layering e.layering)) }
{
    Ok(Element {
        number: solid.outline.number,
        prism: prism(alloc, solid)?,
        layering: Layering::Plain,
    })
}

fn elements(alloc: Global, solids: &[Room]) -> Result<Elements, AllocError>
    ensures { IfOk result (λ list. IsTrue (list_all (λ e. is_layering e.layering) list)) }
{
    let mut list = Elements::new(alloc);
    'solids: for solid in solids {
        list.push(element(alloc, solid)?)?;
    }
    Ok(list)
}

/// The model of these rooms and these elements without layers, with the ground at 0 and a reach of 5 mm;
/// `None` where their numbers are bad.
pub(crate) fn model_of(
    alloc: Global,
    rooms: &[Room],
    solids: &[Room],
) -> Result<Option<Model>, AllocError> {
    let made = Model::new(
        alloc,
        Unit::Millimetre,
        0,
        5,
        spaces(alloc, rooms)?,
        elements(alloc, solids)?,
        Openings::new(alloc),
        Fillings::new(alloc),
    );
    Ok(made.ok())
}
