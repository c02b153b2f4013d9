//! The models of the rows. Lengths are in millimetres (mm), shifts in nanometres (nm).

ghost use Rattle.std.specs.Prelude.{◌<ℤ◌, IsTrue, IfOk};
ghost use Rattle.std.specs.List.{list_all};
ghost use Rattle.sb_fraction.specs.Plane.{is_plan_point};
ghost use Rattle.sb_model.specs.Building.{is_shift};
ghost use Rattle.sb_model.specs.Solids.{is_height};

use sb_fraction::{Point, Unit};
use sb_model::{Axis, Model, Prism, Space, Text, Turn};
use std::alloc::{AllocError, Global};
use tests_lists::{one_space, prism, room, space, turn, two_spaces};

/// Which model.
#[derive(Clone, Copy)]
pub enum Which {
    /// Space #32 in metres.
    House,
    /// Space #20, turned and shifted, in millimetres.
    Turned,
    /// The same in metres.
    TurnedInMetres,
    /// The same with its z turned down.
    Down,
    /// Space #20, which is not turned.
    Room,
    /// The same, shifted by a nanometre.
    Shifted,
    /// Two spaces.
    Two,
    /// A space round a corner.
    Corner,
    /// A space that the ground cuts.
    Cellar,
    /// A cube of 10 mm.
    Cube,
    /// A wedge whose slanted side runs against its direction.
    Falling,
    /// A wedge whose slanted side runs along its direction.
    Rising,
    /// A space with a side of a small slope.
    Shallow,
}

/// The model of a row.
pub fn model_of(alloc: Global, which: Which) -> Result<Model, AllocError> {
    match which {
        Which::House => named_room(alloc, 32, b"0000000000000000000032", Unit::Metre),
        Which::Turned => turned_room(alloc, Unit::Millimetre, true),
        Which::TurnedInMetres => turned_room(alloc, Unit::Metre, true),
        Which::Down => turned_room(alloc, Unit::Millimetre, false),
        Which::Room => named_room(alloc, 20, b"A", Unit::Millimetre),
        Which::Shifted => shifted_room(alloc),
        Which::Two => two_rooms(alloc),
        Which::Corner => corner_room(alloc),
        Which::Cellar => cellar(alloc),
        Which::Cube => cube(alloc),
        Which::Falling => falling_wedge(alloc),
        Which::Rising => rising_wedge(alloc),
        Which::Shallow => shallow_room(alloc),
    }
}

const EAST: Axis = Axis { x: 1, y: 0, z: 0 };

const NORTH: Axis = Axis { x: 0, y: 1, z: 0 };

const UP: Axis = Axis { x: 0, y: 0, z: 1 };

const DOWN: Axis = Axis { x: 0, y: 0, z: -1 };

/// A space over [0,4000], [0,3000], from 0 to 2500, that is not turned.
fn named_room(alloc: Global, number: u32, name: &[u8], unit: Unit) -> Result<Model, AllocError> {
    let room = space(
        number,
        Text::of(alloc, name)?,
        room(alloc)?,
        turn(EAST, UP)?,
        [0, 0, 0],
    );
    one_space(alloc, unit, room)
}

/// Space #20, the same room, whose frame is shifted by 4000 mm along x and takes its x to the building's y
/// and its z up or down. Its name has an apostrophe.
fn turned_room(alloc: Global, unit: Unit, is_up: bool) -> Result<Model, AllocError> {
    let turn = turn(NORTH, if is_up { UP } else { DOWN })?;
    let name = Text::of(alloc, b"it's")?;
    let shift = [4_000_000_000, 0, 0];
    one_space(alloc, unit, space(20, name, room(alloc)?, turn, shift))
}

/// Space #20, the same room, in a frame that is shifted by a nanometre along x.
fn shifted_room(alloc: Global) -> Result<Model, AllocError> {
    let name = Text::of(alloc, b"A")?;
    let turn = turn(EAST, UP)?;
    let room = space(20, name, room(alloc)?, turn, [1, 0, 0]);
    one_space(alloc, Unit::Millimetre, room)
}

/// The spaces #20 and #21, [0,4000] and [4100,8100] by [0,3000].
fn two_rooms(alloc: Global) -> Result<Model, AllocError> {
    let near = plain(alloc, 20, b"A", room(alloc)?)?;
    let far = plain(alloc, 21, b"B", second_room(alloc)?)?;
    two_spaces(alloc, Unit::Millimetre, near, far)
}

fn second_room(alloc: Global) -> Result<Prism, AllocError> {
    prism(
        alloc,
        &[
            Point { x: 4100, y: 0 },
            Point { x: 8100, y: 0 },
            Point { x: 8100, y: 3000 },
            Point { x: 4100, y: 3000 },
        ],
        0,
        2500,
    )
}

/// A space that is neither turned nor shifted.
fn plain(alloc: Global, number: u32, name: &[u8], prism: Prism) -> Result<Space, AllocError>
    ensures { IfOk result (λ s. IsTrue (is_shift s.frame.shift)) }
{
    let name = Text::of(alloc, name)?;
    let turn = turn(EAST, UP)?;
    Ok(space(number, name, prism, turn, [0, 0, 0]))
}

/// Space #20 over these points, between two heights.
fn over(alloc: Global, points: &[Point], z0: i32, z1: i32) -> Result<Model, AllocError>
    requires points_in { IsTrue (list_all is_plan_point points.now) }
    requires order { z0 <ℤ z1 }
    requires low_in { IsTrue (is_height z0) }
    requires high_in { IsTrue (is_height z1) }
{
    let prism = prism(alloc, points, z0, z1)?;
    let space = plain(alloc, 20, b"A", prism)?;
    one_space(alloc, Unit::Millimetre, space)
}

/// A room round a corner.
fn corner_room(alloc: Global) -> Result<Model, AllocError> {
    over(
        alloc,
        &[
            Point { x: -3000, y: -3000 },
            Point { x: 5000, y: -3000 },
            Point { x: 5000, y: 0 },
            Point { x: 0, y: 0 },
            Point { x: 0, y: 5000 },
            Point { x: -3000, y: 5000 },
        ],
        0,
        2500,
    )
}

/// The room from 1000 mm below the ground to 1500 mm above it.
fn cellar(alloc: Global) -> Result<Model, AllocError> {
    over(
        alloc,
        &[
            Point { x: 0, y: 0 },
            Point { x: 4000, y: 0 },
            Point { x: 4000, y: 3000 },
            Point { x: 0, y: 3000 },
        ],
        -1000,
        1500,
    )
}

/// A cube of 10 mm.
fn cube(alloc: Global) -> Result<Model, AllocError> {
    over(
        alloc,
        &[
            Point { x: 0, y: 0 },
            Point { x: 10, y: 0 },
            Point { x: 10, y: 10 },
            Point { x: 0, y: 10 },
        ],
        0,
        10,
    )
}

/// A wedge whose slanted side runs back, against its direction.
fn falling_wedge(alloc: Global) -> Result<Model, AllocError> {
    over(
        alloc,
        &[
            Point { x: 0, y: 0 },
            Point { x: 1000, y: 0 },
            Point { x: 0, y: 1000 },
        ],
        0,
        2500,
    )
}

/// A wedge whose slanted side runs along its direction.
fn rising_wedge(alloc: Global) -> Result<Model, AllocError> {
    over(
        alloc,
        &[
            Point { x: 0, y: 0 },
            Point { x: 1000, y: 1000 },
            Point { x: 0, y: 1000 },
        ],
        0,
        2500,
    )
}

/// A room with a side that rises by 1 mm on 3000 mm.
fn shallow_room(alloc: Global) -> Result<Model, AllocError> {
    over(
        alloc,
        &[
            Point { x: 0, y: -1000 },
            Point { x: 3000, y: -1000 },
            Point { x: 3000, y: 1 },
            Point { x: 0, y: 0 },
        ],
        0,
        2500,
    )
}
