ghost use Rattle.std.specs.Prelude.{IfOk, IfSome, IsTrue};
ghost use Rattle.std.specs.List.{list_all};
ghost use Rattle.sb_fraction.specs.Plane.{is_plan_point};

use sb_fraction::Point;
use sb_list::Listed;
use sb_loops::{LoopError, PointLists, Points, plan_of};
use std::alloc::{AllocError, Global};
use std::test::Fail;

/// What is handed in, and the answer: the plan's loops, or why there is none.
struct Row {
    says: &'static str,
    loops: &'static [&'static [(i32, i32)]],
    answer: &'static str,
}

const NORMALISED: [Row; 9] = [
    Row {
        says: "a point on an edge and a doubled point at the joint are dropped",
        loops: &[&[(0, 0), (5, 0), (10, 0), (10, 10), (0, 10), (0, 10)]],
        answer: "0,0 10,0 10,10 0,10",
    },
    Row {
        says: "the first point given again at the end is dropped",
        loops: &[&[(0, 0), (10, 0), (10, 10), (0, 10), (0, 0)]],
        answer: "0,0 10,0 10,10 0,10",
    },
    Row {
        says: "the first point lies on an edge, and so does the last",
        loops: &[&[(5, 0), (10, 0), (10, 10), (0, 10), (0, 0), (2, 0)]],
        answer: "0,0 10,0 10,10 0,10",
    },
    Row {
        says: "a loop handed in clockwise is turned round",
        loops: &[&[(0, 0), (0, 10), (10, 10), (10, 0)]],
        answer: "0,0 10,0 10,10 0,10",
    },
    Row {
        says: "it begins at its least point, by x and then by y",
        loops: &[&[(10, 10), (0, 10), (0, 0), (10, 0)]],
        answer: "0,0 10,0 10,10 0,10",
    },
    Row {
        says: "a spike goes with its tip and its foot",
        loops: &[&[(0, 0), (10, 0), (10, 10), (15, 15), (10, 10), (0, 10)]],
        answer: "0,0 10,0 10,10 0,10",
    },
    Row {
        says: "a spike at the joint",
        loops: &[&[(0, -7), (0, 0), (10, 0), (10, 10), (0, 10), (0, 0)]],
        answer: "0,0 10,0 10,10 0,10",
    },
    Row {
        says: "a hole is clockwise, and an island in it counterclockwise, in the order handed in",
        loops: &[
            &[(40, 40), (40, 50), (50, 50), (50, 40)],
            &[(0, 0), (90, 0), (90, 90), (0, 90)],
            &[(20, 20), (70, 20), (70, 70), (20, 70)],
        ],
        answer: "40,40 50,40 50,50 40,50 | 0,0 90,0 90,90 0,90 | 20,20 20,70 70,70 70,20",
    },
    Row {
        says: "two rooms side by side",
        loops: &[&[(0, 0), (4, 0), (4, 4)], &[(5, 0), (9, 4), (9, 0)]],
        answer: "0,0 4,0 4,4 | 5,0 9,0 9,4",
    },
];

const REFUSED: [Row; 11] = [
    Row {
        says: "a bow tie",
        loops: &[&[(0, 0), (10, 10), (10, 0), (0, 10)]],
        answer: "knot",
    },
    Row {
        says: "two loops with a corner in common",
        loops: &[
            &[(0, 0), (9, 0), (9, 9), (0, 9)],
            &[(9, 9), (12, 9), (12, 12)],
        ],
        answer: "knot",
    },
    Row {
        says: "a corner on an edge of another loop",
        loops: &[
            &[(0, 0), (9, 0), (9, 9), (0, 9)],
            &[(9, 5), (12, 4), (12, 6)],
        ],
        answer: "knot",
    },
    Row {
        says: "two loops along an edge",
        loops: &[
            &[(0, 0), (9, 0), (9, 9), (0, 9)],
            &[(9, 2), (12, 2), (12, 7), (9, 7)],
        ],
        answer: "knot",
    },
    Row {
        says: "two loops that cross",
        loops: &[
            &[(0, 0), (9, 0), (9, 9), (0, 9)],
            &[(5, 5), (12, 5), (12, 6), (5, 6)],
        ],
        answer: "knot",
    },
    Row {
        says: "a loop that comes back to its least point",
        loops: &[&[(0, 0), (9, 0), (9, 3), (0, 0), (3, 9), (0, 9)]],
        answer: "knot",
    },
    Row {
        says: "a loop that is all one line",
        loops: &[&[(0, 0), (2, 2), (5, 5), (3, 3)]],
        answer: "flat",
    },
    Row {
        says: "no loop at all",
        loops: &[],
        answer: "flat",
    },
    Row {
        says: "an empty loop beside a square",
        loops: &[&[(0, 0), (9, 0), (9, 9), (0, 9)], &[]],
        answer: "flat",
    },
    Row {
        says: "two points",
        loops: &[&[(0, 0), (9, 0)]],
        answer: "flat",
    },
    Row {
        says: "a flat loop beside a knot: flat is answered",
        loops: &[
            &[(0, 0), (10, 10), (10, 0), (0, 10)],
            &[(1, 1), (1, 1), (1, 1)],
        ],
        answer: "flat",
    },
];

// A point in range.
fn point(x: i32, y: i32) -> Option<Point>
    ensures { IfSome result (λ p. IsTrue (is_plan_point p)) }
{
    if x.unsigned_abs() <= 500_000 && y.unsigned_abs() <= 500_000 {
        Some(Point { x, y })
    } else {
        None
    }
}

fn loop_of(alloc: Global, row: &[(i32, i32)]) -> Result<Points, Fail>
    ensures { IfOk result (λ points. IsTrue (list_all is_plan_point points)) }
{
    let mut points = Listed::new(alloc);
    for (x, y) in row {
        let p = point(*x, *y).ok_or("out of range")?;
        points.push(p)?;
    }
    Ok(points)
}

fn loops_of(alloc: Global, rows: &[&[(i32, i32)]]) -> Result<PointLists, Fail>
    ensures { IfOk result (λ loops. IsTrue (list_all (list_all is_plan_point) loops)) }
{
    let mut loops = Listed::new(alloc);
    for row in rows {
        let points = loop_of(alloc, row)?;
        loops.push(points)?;
    }
    Ok(loops)
}

// The loops as they are written in the tables.
fn shown(alloc: Global, loops: &PointLists) -> Result<String, Fail> {
    let mut text = String::new(alloc);
    for points in loops.as_slice() {
        if text.len() > 0 {
            text.push_str(" |")?;
        }
        for p in points.as_slice() {
            let space = if text.len() > 0 { " " } else { "" };
            let one = format!(in alloc; "{space}{},{}", p.x, p.y)?;
            text.push_str(one.as_str())?;
        }
    }
    Ok(text)
}

fn answer(alloc: Global, rows: &[&[(i32, i32)]]) -> Result<String, Fail> {
    let loops = loops_of(alloc, rows)?;
    match plan_of(alloc, loops) {
        Ok(plan) => shown(alloc, &plan),
        Err(LoopError::Flat) => Ok(String::from_str(alloc, "flat")?),
        Err(LoopError::Knot) => Ok(String::from_str(alloc, "knot")?),
        Err(LoopError::NoMemory) => Ok(String::from_str(alloc, "no memory")?),
    }
}

#[test]
fn loops_are_made_a_plan(rt: HostRuntime) -> Result<(), Fail> {
    for row in NORMALISED.as_slice() {
        let text = answer(rt.alloc(), row.loops)?;
        assert_eq!(rt; text.as_str(), row.answer, "{}", row.says);
    }
    Ok(())
}

#[test]
fn loops_that_are_none_are_refused(rt: HostRuntime) -> Result<(), Fail> {
    for row in REFUSED.as_slice() {
        let text = answer(rt.alloc(), row.loops)?;
        assert_eq!(rt; text.as_str(), row.answer, "{}", row.says);
    }
    Ok(())
}
