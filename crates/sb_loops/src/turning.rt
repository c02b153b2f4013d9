//! Loops turned round where their sense asks for it.

ghost use Rattle.std.specs.Prelude.{◌≡◌, ◌++◌, length, reverse, if◌then◌else◌, IfOk, OnOk};
ghost use Rattle.theory_parity.specs.Sides as sides;
ghost use Rattle.sb_loops.specs.Answers.{turned_by};

use sb_fraction::Point;
use sb_knots::{PointLists, Points, Senses};
use sb_list::Listed;
use std::alloc::{AllocError, Global};

/// The loops in their order, each with a sense that is false turned round.
pub(crate) fn turned_by(
    alloc: Global,
    loops: &PointLists,
    senses: &Senses,
) -> Result<PointLists, AllocError>
    requires { length senses.now ≡ length loops.now }
    ensures { IfOk result (λ turned. turned ≡ turned_by senses.now loops.now) }
{
    let loops = loops.as_slice();
    let senses = senses.as_slice();
    let mut turned = Listed::new(alloc);
    for k in 0..loops.len() {
        turned.push(put(alloc, loops[k].as_slice(), senses[k])?)?;
    }
    Ok(turned)
}

// The loop, or turned round.
fn put(alloc: Global, points: &[Point], left: bool) -> Result<Points, AllocError>
    ensures { IfOk result
        (λ put. put ≡ (if left then points.now else sides.turned_loop points.now)) }
{
    if left {
        Listed::from_slice(alloc, points)
    } else {
        turned_loop(alloc, points)
    }
}

// The loop run through the other way, from the same point on.
fn turned_loop(alloc: Global, points: &[Point]) -> Result<Points, AllocError>
    ensures { IfOk result (λ turned. turned ≡ sides.turned_loop points.now) }
{
    let mut turned = Listed::new(alloc);
    let Some((first, rest)) = points.split_first() else {
        return Ok(turned);
    };
    turned.push(*first)?;
    append_back(&mut turned, rest)?;
    Ok(turned)
}

// Appends the points from the last one back.
fn append_back(turned: &mut Points, points: &[Point]) -> Result<(), AllocError>
    ensures { OnOk result (turned.new ≡ turned.old ++ reverse points.now) }
{
    let len = points.len();
    for k in 0..len {
        turned.push(points[len - 1 - k])?;
    }
    Ok(())
}
