// A block with a shaft, judged once and moved.
use sb_list::Listed;
use sb_model::{Axis, Frame, Turn};
use sb_solid::{Judged, SolidError, Spot, Spots, judge};
use std::alloc::{AllocError, Global};
use std::test::Fail;

/// What is answered of a solid: how many points its prism has, or why it has none.
#[derive(Clone, Copy, PartialEq)]
enum Answer {
    Points(usize),
    Range,
    OffGrid,
    Loops,
    NoMemory,
}

/// A shift in nanometres (nm), and what is answered.
struct Row {
    shift: [i128; 3],
    answer: Answer,
}

const ROWS: [Row; 8] = [
    Row {
        shift: [0, 0, 0],
        answer: Answer::Points(7),
    },
    // 10 µm and 1 nm more, on both sides of 0
    Row {
        shift: [10_000, -10_000, 0],
        answer: Answer::Points(7),
    },
    Row {
        shift: [10_001, 0, 0],
        answer: Answer::OffGrid,
    },
    Row {
        shift: [0, 0, -10_001],
        answer: Answer::OffGrid,
    },
    // 500 m and 10 µm and 1 nm more, at the far end alone
    Row {
        shift: [0, 0, 497_500_010_000],
        answer: Answer::Points(7),
    },
    Row {
        shift: [0, 0, 497_500_010_001],
        answer: Answer::Range,
    },
    // out of range before off the grid
    Row {
        shift: [500_000, 600_000_000_000, 0],
        answer: Answer::Range,
    },
    Row {
        shift: [0, -170_141_183_460_469_231_731_687_303_715_884_105_728, 0],
        answer: Answer::Range,
    },
];

#[test]
fn a_block_is_placed(rt: HostRuntime) -> Result<(), Fail> {
    let alloc = rt.alloc();
    let block = block(alloc, &[BLOCK, SHAFT])?;
    for (i, row) in ROWS.iter().enumerate() {
        assert!(rt; answer_of(block.placed(row.shift)) == row.answer, "row {i}");
    }
    Ok(())
}

#[test]
fn its_prism_is_moved(rt: HostRuntime) -> Result<(), Fail> {
    let alloc = rt.alloc();
    let block = block(alloc, &[BLOCK, SHAFT])?;
    let Ok(prism) = block.prism(alloc, [7_000_010_000, -2_000_000, 1_000_000]) else {
        assert!(rt; false, "no prism");
        return Ok(());
    };
    assert!(rt; prism.z0() == 1 && prism.z1() == 2501, "heights");
    let Some(outer) = prism.loops().points().get(0) else {
        assert!(rt; false, "no loop");
        return Ok(());
    };
    let corners = [(7000, -2), (11000, -2), (11000, 2998), (7000, 2998)];
    assert!(rt; outer.len() == corners.len(), "four corners");
    for (point, corner) in outer.as_slice().iter().zip(&corners) {
        assert!(rt; (point.x, point.y) == *corner, "corner");
    }
    Ok(())
}

#[test]
fn two_points_are_no_plan(rt: HostRuntime) -> Result<(), Fail> {
    let alloc = rt.alloc();
    let line = block(alloc, &[LINE])?;
    assert!(rt;
        answer_of(line.placed([0, 0, 0])) == Answer::Loops,
        "on the grid"
    );
    assert!(rt;
        answer_of(line.placed([0, 500_000, 0])) == Answer::OffGrid,
        "off it"
    );
    Ok(())
}

/// Corners in millimetres (mm).
const BLOCK: &[(i128, i128)] = &[(0, 0), (4000, 0), (4000, 3000), (0, 3000)];

const SHAFT: &[(i128, i128)] = &[(1000, 1000), (2000, 1000), (1000, 2000)];

const LINE: &[(i128, i128)] = &[(0, 0), (4000, 0)];

/// The loops extruded by 2.5 m, judged as they lie.
fn block(alloc: Global, loops: &[&[(i128, i128)]]) -> Result<Judged, AllocError> {
    let mut spots = Listed::new(alloc);
    for corners in loops {
        spots.push(loop_of(alloc, corners)?)?;
    }
    let up = Axis { x: 0, y: 0, z: 1 };
    let Some(turn) = Turn::new(Axis { x: 1, y: 0, z: 0 }, up) else {
        return Err(AllocError);
    };
    let frame = Frame {
        turn,
        shift: [0, 0, 0],
    };
    judge(alloc, &spots, &frame, 2_500_000_000, turn)
}

fn loop_of(alloc: Global, corners: &[(i128, i128)]) -> Result<Spots, AllocError> {
    let mut spots = Listed::new(alloc);
    for (x, y) in corners {
        spots.push(Spot {
            x: x.saturating_mul(1_000_000),
            y: y.saturating_mul(1_000_000),
            z: 0,
        })?;
    }
    Ok(spots)
}

fn answer_of(told: Result<usize, SolidError>) -> Answer {
    match told {
        Ok(points) => Answer::Points(points),
        Err(SolidError::Range) => Answer::Range,
        Err(SolidError::OffGrid) => Answer::OffGrid,
        Err(SolidError::Loops) => Answer::Loops,
        Err(SolidError::NoMemory) => Answer::NoMemory,
    }
}
