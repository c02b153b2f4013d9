// A solid in its own frame, turned as a product is.
ghost use Rattle.std.specs.Prelude.{◌≡◌, true, IfOk, pos, ◌∷◌, [], IsTrue};
ghost use Rattle.sb_fraction.specs.Spots.{vector};
ghost use Rattle.sb_model.specs.Frames.{placed_by, vector_of, numbers_of, are_framed};
ghost use Rattle.sb_solid.specs.Turned as turned;
ghost use Rattle.sb_solid.specs.Steps as spec;

use crate::points::lying::small_point;
use crate::points::sizes::{Lying, Lyings};
use crate::spot::{Spot, Spots};
use sb_list::Listed;
use sb_model::{Frame, Turn};
use std::alloc::{AllocError, Global};

/// Where the points of loops lie, in a frame and turned; `None` exactly where a number on the way is more
/// than 10^18 in size.
pub(crate) fn turned_loops(
    alloc: Global,
    loops: &[Spots],
    frame: &Frame,
    turn: Turn,
) -> Result<Option<Listed<Lyings>>, AllocError>
    ensures { IfOk result (λ all. turned.AreTurned turn frame.now loops.now all) }
{
    let mut all = Listed::new(alloc);
    'loops: for points in loops {
        let Some(next) = turned_points(alloc, points.as_slice(), frame, turn)? else {
            return Ok(None);
        };
        all.push(next)?;
    }
    Ok(Some(all))
}

fn turned_points(
    alloc: Global,
    points: &[Spot],
    frame: &Frame,
    turn: Turn,
) -> Result<Option<Lyings>, AllocError>
    ensures { IfOk result (λ all. turned.IsTurnedLoop turn frame.now points.now all) }
{
    let mut all = Listed::new(alloc);
    'points: for point in points {
        let Some(next) = turned_point(*point, frame, turn) else {
            return Ok(None);
        };
        all.push(next)?;
    }
    Ok(Some(all))
}

/// Where a point lies, in a frame and turned.
fn turned_point(point: Spot, frame: &Frame, turn: Turn) -> Option<Lying>
    ensures { turned.IsTurned turn frame.now (turned.spot_vector point) result }
{
    let own = placed(&[point.x, point.y, point.z], frame)?;
    placed(
        &[own.x, own.y, own.z],
        &Frame {
            turn,
            shift: [0, 0, 0],
        },
    )
}

/// Where a frame takes a point.
fn placed(point: &[i128; 3], frame: &Frame) -> Option<Lying>
    ensures { turned.IsPlaced frame.now point.now result }
{
    small_point(*point)?;
    small_point(frame.shift)?;
    small_point(frame.apply(*point))
}

/// Where a vector is turned by a frame and then turned.
pub(crate) fn turned_vector(vector: &[i128; 3], frame: &Frame, turn: Turn) -> Option<Lying>
    ensures { turned.IsTurned turn (turned.turn_alone frame.now.turn) (vector_of vector.now) result }
{
    let own = placed(
        vector,
        &Frame {
            turn: frame.turn,
            shift: [0, 0, 0],
        },
    )?;
    placed(
        &[own.x, own.y, own.z],
        &Frame {
            turn,
            shift: [0, 0, 0],
        },
    )
}
