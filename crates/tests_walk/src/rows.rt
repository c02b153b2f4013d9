use crate::{Height, NONE, Room, Wanted, are_overlaps, is_told, plain_room, with_hole};
use sb_model::End;
use sb_walk::Way;
use std::test::Fail;
use tests_frame::{rectangle, triangle};

fn lower(number: u32, x: (u16, u16), y: (u16, u16)) -> Room {
    plain_room(rectangle(number, x, y), Height::Lower)
}

fn upper(number: u32, x: (u16, u16), y: (u16, u16)) -> Room {
    plain_room(rectangle(number, x, y), Height::Upper)
}

#[test]
fn rooms_that_overlap(rt: HostRuntime) -> Result<(), Fail> {
    let alloc = rt.alloc();
    let sliver = [lower(20, (0, 10), (0, 10)), lower(21, (9, 19), (0, 10))];
    assert!(rt;
        are_overlaps(alloc, &sliver, &[NONE, (20, 21), NONE])?,
        "from 9 to 10 alone"
    );
    let wedges = [
        plain_room(triangle(20, (0, 0), (20, 0), (20, 20)), Height::Lower),
        plain_room(triangle(21, (0, 0), (20, 19), (0, 20)), Height::Lower),
    ];
    assert!(rt;
        are_overlaps(alloc, &wedges, &[(20, 21), (20, 21)])?,
        "between two slanted edges from one point on, and behind the crossing at 400/21"
    );
    let three = [
        lower(20, (0, 10), (0, 10)),
        lower(21, (0, 10), (20, 30)),
        lower(22, (0, 10), (25, 35)),
    ];
    assert!(rt;
        are_overlaps(alloc, &three, &[(21, 22)])?,
        "the second and third"
    );
    let all = [
        lower(20, (0, 10), (10, 30)),
        lower(21, (0, 10), (0, 40)),
        lower(22, (0, 10), (20, 50)),
    ];
    assert!(rt;
        are_overlaps(alloc, &all, &[(20, 21)])?,
        "of three pairs the least"
    );
    Ok(())
}

#[test]
fn rooms_that_touch(rt: HostRuntime) -> Result<(), Fail> {
    let alloc = rt.alloc();
    let corner = [lower(20, (0, 10), (0, 10)), lower(21, (10, 20), (10, 20))];
    assert!(rt; are_overlaps(alloc, &corner, &[NONE, NONE])?, "at a corner");
    let edge = [lower(20, (0, 10), (0, 10)), lower(21, (0, 10), (10, 20))];
    assert!(rt; are_overlaps(alloc, &edge, &[NONE])?, "along an edge");
    let ceiling = [lower(20, (0, 10), (0, 10)), upper(21, (0, 10), (0, 10))];
    assert!(rt;
        are_overlaps(alloc, &ceiling, &[NONE])?,
        "one above the other"
    );
    let tall = [
        upper(20, (0, 10), (0, 10)),
        plain_room(rectangle(21, (0, 10), (0, 10)), Height::Both),
    ];
    assert!(rt;
        are_overlaps(alloc, &tall, &[(20, 21)])?,
        "up into the other"
    );
    Ok(())
}

#[test]
fn a_room_in_the_hole_of_another(rt: HostRuntime) -> Result<(), Fail> {
    let alloc = rt.alloc();
    let outer = rectangle(20, (0, 30), (0, 30));
    let inner = rectangle(21, (10, 20), (10, 20));
    let within = [with_hole(outer, inner), plain_room(inner, Height::Lower)];
    assert!(rt;
        are_overlaps(alloc, &within, &[NONE, NONE, NONE])?,
        "in the hole"
    );
    let over = [
        plain_room(outer, Height::Lower),
        plain_room(inner, Height::Lower),
    ];
    assert!(rt;
        are_overlaps(alloc, &over, &[NONE, (20, 21), NONE])?,
        "without the hole"
    );
    Ok(())
}

fn square(number: u32, height: Height) -> Room {
    plain_room(rectangle(number, (0, 10), (0, 10)), height)
}

fn bare(end: End) -> Wanted {
    Wanted {
        items: 0,
        element: 0,
        thickness: 0,
        depth: 0,
        end,
    }
}

#[test]
fn walks_up_and_down(rt: HostRuntime) -> Result<(), Fail> {
    let alloc = rt.alloc();
    let through = Wanted {
        items: 1,
        element: 30,
        thickness: 2000,
        depth: 2,
        end: End::Space(21),
    };
    let back = Wanted {
        end: End::Space(20),
        ..through
    };
    let rooms = [square(20, Height::Lower), square(21, Height::Above)];
    let slab = [square(30, Height::Thin)];
    assert!(rt;
        is_told(alloc, &rooms, &slab, 3, 0, Way::Up, through)?,
        "through a slab of 2 mm into the room above"
    );
    assert!(rt;
        is_told(alloc, &rooms, &slab, 3, 1, Way::Down, back)?,
        "and back"
    );
    assert!(rt;
        is_told(alloc, &rooms, &[], 2, 0, Way::Up, bare(End::Outside))?,
        "without the slab there is air between"
    );
    let touching = [square(20, Height::Lower), square(21, Height::Upper)];
    assert!(rt;
        is_told(alloc, &touching, &[], 2, 0, Way::Up, bare(End::Space(21)))?,
        "touching rooms"
    );
    let alone = [square(20, Height::Lower)];
    assert!(rt;
        is_told(alloc, &alone, &[], 1, 0, Way::Down, bare(End::Earth))?,
        "on the ground"
    );
    assert!(rt;
        is_told(
            alloc,
            &alone,
            &[square(30, Height::Above)],
            2,
            0,
            Way::Up,
            bare(End::Outside)
        )?,
        "air under what stands further up"
    );
    assert!(rt;
        is_told(
            alloc,
            &alone,
            &[square(30, Height::Upper)],
            2,
            0,
            Way::Up,
            bare(End::Solid(30))
        )?,
        "10 mm are beyond a reach of 5 mm"
    );
    assert!(rt;
        is_told(
            alloc,
            &touching,
            &[square(30, Height::Both)],
            3,
            1,
            Way::Down,
            bare(End::Space(20))
        )?,
        "a column that stands in both rooms: the rooms come first"
    );
    Ok(())
}
