// A solid is judged.
ghost use Rattle.std.specs.Prelude.{◌≡◌, IfOk, true, length};
ghost use Rattle.sb_fraction.specs.Spots.{Vector};
ghost use Rattle.theory_plans.specs.Plans.{corners_in};
ghost use Rattle.sb_solid.specs.Steps.{vector_at, wide_at};
ghost use Rattle.sb_solid.specs.Judged as spec;
ghost use Rattle.sb_solid.specs.Turned as turned;

use crate::base::{ends, seen_loops};
use crate::boxes::prism_seen;
use crate::judged::Judged;
use crate::placing::{Placing, anchors_of};
use crate::points::axes::{Coordinate, View};
use crate::points::sizes::{Lying, Lyings, Wide};
use crate::spans::span_of;
use crate::spot::Spots;
use crate::turning::{turned_loops, turned_vector};
use sb_list::Listed;
use sb_loops::PointLists;
use sb_model::{Frame, Prism, Turn};
use std::alloc::{AllocError, Global};

/// What is kept of a solid with these loops in its own frame and this way along its local z, in nanometres
/// (nm), where it is turned as a product is.
pub fn judge(
    alloc: Global,
    loops: &Listed<Spots>,
    frame: &Frame,
    way: i128,
    turn: Turn,
) -> Result<Judged, AllocError>
    ensures { IfOk result (λ kept. turned.is_fit turn frame.now way loops.now ≡ true
        → spec.IsJudgedOf (turned.extruded_of turn frame.now way loops.now) kept) }
{
    let Some(loops) = turned_loops(alloc, loops.as_slice(), frame, turn)? else {
        return Ok(unfit());
    };
    let Some(way) = turned_vector(&[0, 0, way], frame, turn) else {
        return Ok(unfit());
    };
    let Some(along) = turned_vector(&[0, 0, 1], frame, turn) else {
        return Ok(unfit());
    };
    let placing = placing_of(alloc, loops.as_slice(), way, along)?;
    Ok(Judged { way, placing })
}

/// What is kept where a number is too great.
fn unfit() -> Judged {
    Judged {
        way: Lying { x: 0, y: 0, z: 0 },
        placing: None,
    }
}

/// Where the coordinates lie, and the prism; `None` exactly where there is no point.
fn placing_of(
    alloc: Global,
    loops: &[Lyings],
    way: Lying,
    along: Lying,
) -> Result<Option<Placing>, AllocError>
    ensures { IfOk result (λ placing. spec.IsPlacingWhere (spec.lying_solid loops.now way (vector_at along)) placing) }
{
    let Some(x) = span_of(loops, Coordinate::X) else {
        return Ok(None);
    };
    let Some(y) = span_of(loops, Coordinate::Y) else {
        return Ok(None);
    };
    let Some(z) = span_of(loops, Coordinate::Z) else {
        return Ok(None);
    };
    let anchors = anchors_of(x, y, z, way);
    let prism = based(alloc, loops, anchors, way, view_along(along))?;
    let points = points_where(&prism);
    Ok(Some(Placing {
        x,
        y,
        z,
        prism,
        points,
    }))
}

/// From where the loops of a solid are seen as a plane figure, whose local z goes so.
fn view_along(along: Lying) -> View
    ensures { result ≡ spec.view_along (vector_at along) }
{
    if along.z != 0 {
        View::Above
    } else if along.x != 0 {
        View::AlongX
    } else {
        View::AlongY
    }
}

/// The prism counted from the anchors.
fn based(
    alloc: Global,
    loops: &[Lyings],
    anchors: Wide,
    way: Lying,
    view: View,
) -> Result<Option<Prism>, AllocError>
    ensures { IfOk result (λ prism. (along : Vector) → view ≡ spec.view_along along
        → spec.are_close (spec.lying_solid loops.now way along) (wide_at anchors) ≡ true
        → prism ≡ spec.base_prism (spec.lying_solid loops.now way along) (wide_at anchors)) }
{
    let Some((a, b)) = ends(loops, anchors, way, view) else {
        return Ok(None);
    };
    match seen_loops(alloc, loops, anchors, view)? {
        Some(points) => prism_seen(alloc, points, a, b, view),
        None => Ok(None),
    }
}

/// How many points the loops of a prism have, and none where there is none.
fn points_where(prism: &Option<Prism>) -> usize
    ensures { result ≡ spec.points_where prism.now }
{
    match prism {
        Some(prism) => points_in(prism.loops().points()),
        None => 0,
    }
}

fn points_in(loops: &PointLists) -> usize
    ensures { result ≡ spec.counted (length (corners_in loops.now)) }
{
    let mut count: usize = 0;
    'loops: for points in loops.as_slice() {
        count = count.saturating_add(points.len());
    }
    count
}
