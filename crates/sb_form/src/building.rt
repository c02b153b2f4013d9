// The model that an input of the first form means.
ghost use Rattle.std.specs.Prelude.{◌≡◌, ◌≤◌, ◌<◌, ◌*ℤ◌, [], ◌∷◌, pos, IfOk, IsTrue, unsigned_abs};
ghost use Rattle.sb_form.specs.FirstForm.{AreShort};
ghost use Rattle.sb_form.specs.Meaning.{IsExtentOf, model_of, space_of, frame_of, nanometres, unturned};
ghost use Rattle.theory_plans.specs.Rectangles.{rectangle};
ghost use Rattle.theory_plans.specs.Loops.{is_rectangle};
ghost use Rattle.theory_turns.specs.Turns.{Quarter};

use crate::matcher::FirstForm;
use sb_box::Extent;
use sb_fraction::{Point, Unit};
use sb_model::{
    Axis, Elements, Fillings, Frame, LoopError, Loops, Model, ModelError, Openings, PointLists,
    Points, Prism, Space, Spaces, Text, Turn,
};
use std::alloc::{AllocError, Global};

/// The number of the form's one space. The contract of [`model`] fixes it.
pub const SPACE: u32 = 20;

/// The reach of walks, in millimetres (mm). The contract of [`model`] fixes it.
const REACH: u32 = 1_000;

/// The model that a form with this box means: its one space, and nothing else, over a ground at
/// height 0.
pub fn model(alloc: Global, form: &FirstForm, extent: &Extent) -> Result<Model, AllocError>
    requires short { AreShort form.now }
    requires extent { IsExtentOf form.now extent.now }
    ensures { IfOk result (λ model. model ≡ model_of form.now extent.now) }
{
    let mut spaces = Spaces::new(alloc);
    spaces.push(space(alloc, form, extent)?)?;
    let elements = Elements::new(alloc);
    let openings = Openings::new(alloc);
    let fillings = Fillings::new(alloc);
    match Model::new(
        alloc,
        Unit::Millimetre,
        0,
        REACH,
        spaces,
        elements,
        openings,
        fillings,
    ) {
        Ok(model) => Ok(model),
        Err(ModelError::NoMemory) => Err(AllocError),
        // The one number is 20.
        Err(ModelError::BadNumber(_)) => unreachable!(),
    }
}

fn space(alloc: Global, form: &FirstForm, extent: &Extent) -> Result<Space, AllocError>
    requires short { AreShort form.now }
    requires extent { IsExtentOf form.now extent.now }
    ensures { IfOk result (λ space. space ≡ space_of form.now extent.now) }
{
    let global_id = Text::of(alloc, b"0000000000000000000020")?;
    let loops = plan(alloc, extent)?;
    Ok(Space {
        number: SPACE,
        global_id,
        prism: Prism::new(loops, extent.z0, extent.z1),
        frame: frame(form),
    })
}

/// The rectangle of a box, counterclockwise from its least corner.
fn plan(alloc: Global, extent: &Extent) -> Result<Loops, AllocError>
    ensures { IfOk result (λ loops. loops ≡ rectangle extent.now.x0 extent.now.x1 extent.now.y0 extent.now.y1 ∷ []) }
{
    let mut corners = Points::new(alloc);
    corners.push(Point {
        x: extent.x0,
        y: extent.y0,
    })?;
    corners.push(Point {
        x: extent.x1,
        y: extent.y0,
    })?;
    corners.push(Point {
        x: extent.x1,
        y: extent.y1,
    })?;
    corners.push(Point {
        x: extent.x0,
        y: extent.y1,
    })?;
    let mut lists = PointLists::new(alloc);
    lists.push(corners)?;
    rectangle_plan(alloc, lists)
}

/// The plan with this one rectangle, which is left as it is.
fn rectangle_plan(alloc: Global, lists: PointLists) -> Result<Loops, AllocError>
    requires rectangle { IsTrue (is_rectangle lists) }
    ensures { IfOk result (λ loops. loops ≡ lists) }
{
    match Loops::new(alloc, lists) {
        Ok(loops) => Ok(loops),
        Err(LoopError::NoMemory) => Err(AllocError),
        // A rectangle is a plan.
        Err(LoopError::Flat) => unreachable!(),
        Err(LoopError::Knot) => unreachable!(),
    }
}

/// The frame of the space: it is not turned, and its origin is the form's place.
fn frame(form: &FirstForm) -> Frame
    requires { AreShort form.now }
    ensures { result ≡ frame_of form.now }
{
    Frame {
        turn: no_turn(),
        shift: [nanometres(form.x), nanometres(form.y), nanometres(form.z)],
    }
}

fn no_turn() -> Turn
    ensures { result ≡ unturned }
{
    let east = Axis { x: 1, y: 0, z: 0 };
    let up = Axis { x: 0, y: 0, z: 1 };
    Turn::new(east, up).unwrap()
}

/// A length in nanometres (nm) from one in millimetres (mm).
fn nanometres(millimetres: i32) -> i128
    ensures { result ≡ nanometres millimetres }
{
    i128::from(millimetres) * 1_000_000
}
