//! The edges that begin at a corner.

ghost use Rattle.std.specs.Prelude.{◌≡◌, ◌<◌, ◌+◌, ◌*◌, true};
ghost use Rattle.sb_fraction.specs.Edges as edges;
ghost use Rattle.theory_plans.specs.Loops as loops;
ghost use Rattle.theory_sweep.specs.Open as sweep;
ghost use Rattle.sb_knots.specs.Steps.{begun_at, begun_by, is_even_below};

use crate::corners::Corner;
use crate::edges::LoopEdge;
use crate::meeting::is_under;
use sb_fraction::Point;

/// The numbers of the edges that begin at a corner, from below.
#[derive(Clone, Copy)]
pub(crate) enum Begun {
    Neither,
    One(u32),
    Two(u32, u32),
}

/// Those of corner `k`.
pub(crate) fn edges_begun(c: Corner, k: u32) -> Begun
    requires { k < 2147483648 }
    ensures { result ≡ begun_at c k }
{
    let to_before = comes_before(c.at, c.before);
    let to_after = comes_before(c.at, c.after);
    begun_by(to_before, to_after, is_before_lower(c), k)
}

// The edge to the point before lies below the point after.
fn is_before_lower(c: Corner) -> bool
    ensures { result ≡ sweep.is_under c.after (edges.edge c.at c.before) }
{
    let edge = LoopEdge {
        a: c.at,
        b: c.before,
    };
    is_under(c.after, edge)
}

fn begun_by(to_before: bool, to_after: bool, lower: bool, k: u32) -> Begun
    requires { k < 2147483648 }
    ensures { result ≡ begun_by to_before to_after lower k }
{
    if to_before && to_after {
        two(lower, k)
    } else if to_before {
        Begun::One(2 * k)
    } else if to_after {
        Begun::One(2 * k + 1)
    } else {
        Begun::Neither
    }
}

fn two(lower: bool, k: u32) -> Begun
    requires { k < 2147483648 }
    ensures { result ≡ begun_by true true lower k }
{
    if lower {
        Begun::Two(2 * k, 2 * k + 1)
    } else {
        Begun::Two(2 * k + 1, 2 * k)
    }
}

fn comes_before(a: Point, b: Point) -> bool
    ensures { result ≡ loops.comes_before a b }
{
    a.x < b.x || (a.x == b.x && a.y < b.y)
}

/// Of two edges that begin with so many below them, whether an even number lies below that to the
/// point after the corner.
pub(crate) fn is_even_below(rank: usize, begun: Begun) -> bool
    ensures { result ≡ is_even_below rank begun }
{
    match begun {
        Begun::Two(x, y) => { if x < y { rank % 2 > 0 } else { !(rank % 2 > 0) } }
        Begun::One(_) => false,
        Begun::Neither => false,
    }
}
