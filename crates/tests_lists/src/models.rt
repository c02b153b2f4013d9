//! The models of the rows. Lengths are in millimetres (mm), shifts in nanometres (nm).

ghost use Rattle.std.specs.Prelude.{◌<ℤ◌, IsTrue};
ghost use Rattle.std.specs.List.{list_all};
ghost use Rattle.sb_fraction.specs.Plane.{is_plan_point};
ghost use Rattle.sb_model.specs.Building.{is_shift};
ghost use Rattle.sb_model.specs.Solids.{is_height};

use sb_fraction::{Point, Unit};
use sb_model::{
    Axis, Frame, LoopError, Loops, Model, PointLists, Points, Prism, Space, Spaces, Text, Turn,
};
use std::alloc::{AllocError, Global};
use tests_model::{elements, fillings, openings};

/// A prism over one loop of points.
pub fn prism(alloc: Global, points: &[Point], z0: i32, z1: i32) -> Result<Prism, AllocError>
    requires points_in { IsTrue (list_all is_plan_point points.now) }
    requires order { z0 <ℤ z1 }
    requires low_in { IsTrue (is_height z0) }
    requires high_in { IsTrue (is_height z1) }
{
    let mut loops = PointLists::new(alloc);
    loops.push(Points::from_slice(alloc, points)?)?;
    match Loops::new(alloc, loops) {
        Ok(loops) => Ok(Prism::new(loops, z0, z1)),
        Err(LoopError::Flat) => Err(AllocError),
        Err(LoopError::Knot) => Err(AllocError),
        Err(LoopError::NoMemory) => Err(AllocError),
    }
}

/// The turn that takes the local x and z to these; none where they are not at right angles.
pub fn turn(x: Axis, z: Axis) -> Result<Turn, AllocError> {
    match Turn::new(x, z) {
        Some(turn) => Ok(turn),
        None => Err(AllocError),
    }
}

/// A space.
pub fn space(number: u32, global_id: Text, prism: Prism, turn: Turn, shift: [i128; 3]) -> Space
    requires { IsTrue (is_shift shift) }
    ensures { IsTrue (is_shift result.frame.shift) }
{
    Space {
        number,
        global_id,
        prism,
        frame: Frame { turn, shift },
    }
}

/// The box [0,4000], [0,3000], [0,2500].
pub fn room(alloc: Global) -> Result<Prism, AllocError> {
    prism(
        alloc,
        &[
            Point { x: 0, y: 0 },
            Point { x: 4000, y: 0 },
            Point { x: 4000, y: 3000 },
            Point { x: 0, y: 3000 },
        ],
        0,
        2500,
    )
}

/// The model of one space.
pub fn one_space(alloc: Global, unit: Unit, space: Space) -> Result<Model, AllocError>
    requires { IsTrue (is_shift space.frame.shift) }
{
    let mut spaces = Spaces::new(alloc);
    spaces.push(space)?;
    of_spaces(alloc, unit, spaces)
}

/// The model of two spaces.
pub fn two_spaces(alloc: Global, unit: Unit, one: Space, other: Space) -> Result<Model, AllocError>
    requires first { IsTrue (is_shift one.frame.shift) }
    requires second { IsTrue (is_shift other.frame.shift) }
{
    let mut spaces = Spaces::new(alloc);
    spaces.push(one)?;
    spaces.push(other)?;
    of_spaces(alloc, unit, spaces)
}

/// The model of these spaces, the elements #25, #30 and #31, two openings of #30 and a window in the
/// second of them.
fn of_spaces(alloc: Global, unit: Unit, spaces: Spaces) -> Result<Model, AllocError>
    requires { IsTrue (list_all (λ s. is_shift s.frame.shift) spaces) }
{
    let made = Model::new(
        alloc,
        unit,
        0,
        1000,
        spaces,
        elements(alloc, &[25, 30, 31])?,
        openings(alloc, &[(40, 30), (41, 30)])?,
        fillings(alloc, &[(50, 41)])?,
    );
    match made {
        Ok(model) => Ok(model),
        Err(_) => Err(AllocError),
    }
}
