use sb_fraction::{Point, Segment, meet, orient};
use std::cmp::Ordering;
use std::test::Fail;

#[test]
fn the_largest_meeting_point(rt: HostRuntime) -> Result<(), Fail> {
    let first = Segment {
        a: Point {
            x: -500000,
            y: -500000,
        },
        b: Point {
            x: 500000,
            y: 499999,
        },
    };
    let second = Segment {
        a: Point {
            x: -500000,
            y: 500000,
        },
        b: Point {
            x: 499999,
            y: -500000,
        },
    };
    let Some(p) = meet(&first, &second) else {
        panic!(rt; "the two have a common point");
    };
    assert_eq!(rt; p.x, -500000, "x is not divided");
    assert_eq!(rt; p.y, -999999500000, "nor is y");
    assert_eq!(rt; p.w, 1999998000001, "the cross product of the two vectors");
    Ok(())
}

#[test]
fn segments_that_do_not_meet_in_one_point(rt: HostRuntime) -> Result<(), Fail> {
    let upright = Segment {
        a: Point { x: 0, y: 0 },
        b: Point { x: 0, y: 10 },
    };
    let on_the_same_line = Segment {
        a: Point { x: 0, y: 5 },
        b: Point { x: 0, y: 20 },
    };
    let beyond = Segment {
        a: Point { x: -5, y: 11 },
        b: Point { x: 5, y: 11 },
    };
    let foot = Segment {
        a: Point { x: 0, y: 10 },
        b: Point { x: 5, y: 12 },
    };
    assert_eq!(rt;
        meet(&upright, &on_the_same_line).is_none(),
        true,
        "they overlap"
    );
    assert_eq!(rt;
        meet(&upright, &beyond).is_none(),
        true,
        "one ends before the other"
    );
    assert_eq!(rt; meet(&upright, &foot).is_some(), true, "they share an end");
    assert_eq!(rt;
        orient(&upright, Point { x: 1, y: 3 }),
        Ordering::Less,
        "right of it"
    );
    assert_eq!(rt;
        orient(&upright, Point { x: 0, y: 99 }),
        Ordering::Equal,
        "on its line"
    );
    assert_eq!(rt;
        orient(&upright, Point { x: -1, y: 3 }),
        Ordering::Greater,
        "left of it"
    );
    Ok(())
}
