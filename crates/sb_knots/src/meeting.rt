//! Which edges may be neighbours, and which lie below a point.

ghost use Rattle.std.specs.Prelude.{◌≡◌, ◌≤◌, ◌*ℤ◌, unsigned_abs, IsTrue, int_lt, pos};
ghost use Rattle.sb_fraction.specs.Plane.{is_plan_point};
ghost use Rattle.sb_fraction.specs.Spots.{spot_at};
ghost use Rattle.sb_fraction.specs.Edges.{turn_at, reach_at, is_on};
ghost use Rattle.theory_plans.specs.Plans as plans;
ghost use Rattle.theory_sweep.specs.Open as sweep;

use crate::edges::LoopEdge;
use crate::sizes::{Way, wide_product};
use sb_fraction::Point;

/// Two edges may be neighbours: both begin at one point, or both end there, or they do not touch.
pub(crate) fn may_be_neighbours(e: LoopEdge, f: LoopEdge) -> bool
    ensures { result ≡ sweep.may_be_neighbours e f }
{
    is_same_point(e.a, f.a) || is_same_point(e.b, f.b) || !do_touch(e, f)
}

/// The edge lies below the point.
pub(crate) fn is_under(v: Point, e: LoopEdge) -> bool
    requires { IsTrue (is_plan_point v) }
    ensures { result ≡ sweep.is_under v e }
{
    turn(e, v) > 0
}

pub(crate) fn is_same_point(a: Point, b: Point) -> bool
    ensures { result ≡ plans.is_same_point a b }
{
    a.x == b.x && a.y == b.y
}

fn do_touch(e: LoopEdge, f: LoopEdge) -> bool
    ensures { result ≡ plans.do_touch e f }
{
    is_on(e.a, f)
        || is_on(e.b, f)
        || is_on(f.a, e)
        || is_on(f.b, e)
        || (is_parted(e, f) && is_parted(f, e))
}

fn is_on(p: Point, e: LoopEdge) -> bool
    requires { IsTrue (is_plan_point p) }
    ensures { result ≡ is_on (spot_at p) e }
{
    let level = turn(e, p) == 0;
    let between = reach(e, p) <= 0;
    level && between
}

fn is_parted(e: LoopEdge, f: LoopEdge) -> bool
    ensures { result ≡ plans.is_parted e f }
{
    wide_product(turn(e, f.a), turn(e, f.b)) < 0
}

fn turn(e: LoopEdge, p: Point) -> i64
    requires { IsTrue (is_plan_point p) }
    ensures value { result ≡ turn_at e (spot_at p) }
    ensures size { unsigned_abs result ≤ 2000000000000 }
{
    Way::seen(p, e.a).cross(Way::seen(p, e.b))
}

fn reach(e: LoopEdge, p: Point) -> i64
    requires { IsTrue (is_plan_point p) }
    ensures { result ≡ reach_at e (spot_at p) }
{
    Way::seen(p, e.a).dot(Way::seen(p, e.b))
}
