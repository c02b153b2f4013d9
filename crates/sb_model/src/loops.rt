//! The plans of solids: closed loops of plan points.

ghost use Rattle.std.specs.Prelude.{◌≡◌, ◌↔◌, ◌<◌, ◌&&◌, length, slice_get, IfOk, IfSome, IsTrue, Err, Some, true};
ghost use Rattle.std.specs.List.{list_all};
ghost use Rattle.std.specs.Option.{option_map};
ghost use Rattle.theory_loops.specs.Answers.{plan_of as plan_of_loops, are_flat, are_knotted};
ghost use Rattle.sb_loops.specs.Answers.{IsInTime};
ghost use Rattle.theory_plans.specs.Plans.{is_plan};
ghost use Rattle.sb_fraction.specs.Plane.{is_plan_point};
ghost use Rattle.theory_plans.specs.LoopEdges.{edges_of, edges_of_loop, next_in_loop};
ghost use Rattle.sb_fraction.specs.Edges.{edge};

use sb_fraction::Point;
use sb_loops::{LoopError, PointLists, plan_of};
use std::alloc::Global;
use std::marker::Model;

/// The plan of a solid: normalised loops, of which two edges meet only where they are consecutive,
/// with the solid on the left of every edge.
///
/// There is at least one loop; each has three points or more and begins at the least of them, by x
/// and then by y; no three neighbours lie on one line; all coordinates are within 500,000 mm.
#[derive(Drop)]
pub struct Loops {
    points: PointLists,
}

impl Model for Loops {
    ghost use Rattle.std.specs.Prelude.{List, IsTrue};
    ghost use Rattle.sb_fraction.specs.declared.point.Point.{Point};
    ghost use Rattle.theory_plans.specs.Plans.{is_plan};

    ghost Value = { List (List Point) };

    ghost view = { λ l. l.points };

    ghost invariant = { λ l. IsTrue (is_plan l.points) };
}

impl Loops {
    /// The plan of these loops of plan points, in whole millimetres (mm), in any sense, with doubled
    /// points and with points that are not needed.
    ///
    /// - `Ok(loops)`: each loop without its points that lie on one line with their neighbours,
    ///   from its least point on, and turned so that the solid lies on its left, by parity over all
    ///   loops; in the order handed in.
    /// - `Err(Flat)`: exactly where there is no loop, or one keeps fewer than three points.
    /// - `Err(Knot)`: exactly where none is flat and two edges meet otherwise than as consecutive
    ///   ends.
    /// - `Err(NoMemory)`: at any time. The two others yield to it.
    pub fn new(alloc: Global, points: PointLists) -> Result<Loops, LoopError>
        requires in_range { IsTrue (list_all (list_all is_plan_point) points) }
        ensures plan { IfOk result (λ loops. loops ≡ plan_of_loops points) }
        ensures flat { IsInTime result → (result ≡ Err LoopError.Flat) ↔ (are_flat points ≡ true) }
        ensures knot { IsInTime result → (result ≡ Err LoopError.Knot) ↔ (are_knotted points ≡ true) }
    {
        match plan_of(alloc, points) {
            Ok(points) => Ok(Loops { points }),
            Err(error) => Err(error),
        }
    }

    /// The normalised loops.
    pub fn points(&self) -> &PointLists
        ensures value { result.now ≡ self.now }
        ensures is_plan { IsTrue (is_plan self.now) }
    {
        &self.points
    }

    /// The ends of edge `k`, counted through all loops from 0: the coordinates are in millimetres
    /// (mm). `None` where there is no such edge.
    pub fn edge(&self, k: usize) -> Option<(Point, Point)>
        ensures value { option_map (λ e. edge e.0 e.1) result ≡ slice_get (edges_of self.now) k }
        ensures in_range { IfSome result (λ e. IsTrue (is_plan_point e.0 && is_plan_point e.1)) }
    {
        let mut left = k;
        for points in self.points().as_slice() {
            let points = points.as_slice();
            if left < points.len() {
                return Some(edge_in(points, left));
            }
            left -= points.len();
        }
        None
    }
}

/// The ends of edge `k` of a loop.
fn edge_in(points: &[Point], k: usize) -> (Point, Point)
    requires within { k < length points.now }
    requires in_range { IsTrue (list_all is_plan_point points.now) }
    ensures value { slice_get (edges_of_loop points.now) k ≡ Some (edge result.0 result.1) }
    ensures in_range { IsTrue (is_plan_point result.0 && is_plan_point result.1) }
{
    (points[k], points[next_place(k, points.len())])
}

/// The place after `k` in a closed loop of `len` points.
fn next_place(k: usize, len: usize) -> usize
    requires { k < len }
    ensures value { result ≡ next_in_loop k len }
    ensures within { result < len }
{
    if k + 1 < len { k + 1 } else { 0 }
}
