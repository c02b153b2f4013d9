use crate::{END, NONE, are_orders};
use std::test::Fail;
use tests_frame::{along_x, along_y, crossing_slabs, falling, fan, rooms};

#[test]
fn the_slabs_of_crossing_slabs(rt: HostRuntime) -> Result<(), Fail> {
    let alloc = rt.alloc();
    let wanted = [
        0, 4, 7, 2, 5, 9, END, 0, 7, 4, 2, 5, 9, END, 0, 7, 2, 9, END, NONE, NONE,
    ];
    assert!(rt;
        are_orders(alloc, crossing_slabs(alloc)?, along_x(), 5, &wanted)?,
        "edges 4 and 7 cross at 10/3, edge 4 ends at 5"
    );
    Ok(())
}

#[test]
fn slabs_of_other_directions(rt: HostRuntime) -> Result<(), Fail> {
    let alloc = rt.alloc();
    let upright = [1, 8, 7, 4, 3, 6, END, 1, 8, 4, 7, 3, 6, END, NONE];
    assert!(rt;
        are_orders(alloc, crossing_slabs(alloc)?, along_y(), 3, &upright)?,
        "from the greatest x on"
    );
    let slanted = [
        3, 6, 7, 2, 5, 9, END, 3, 6, 7, 4, 2, 9, END, 3, 6, 4, 7, 2, 9, END, 0, 7, 1, 8, END, NONE,
    ];
    assert!(rt;
        are_orders(alloc, crossing_slabs(alloc)?, falling(), 5, &slanted)?,
        "edges on one line by their places"
    );
    Ok(())
}

#[test]
fn a_slab_that_no_edge_spans(rt: HostRuntime) -> Result<(), Fail> {
    let alloc = rt.alloc();
    assert!(rt;
        are_orders(
            alloc,
            rooms(alloc, 2)?,
            along_x(),
            4,
            &[0, 2, END, END, 4, 6, END, NONE]
        )?,
        "nothing stands between the rooms"
    );
    assert!(rt;
        are_orders(
            alloc,
            rooms(alloc, 2)?,
            along_y(),
            2,
            &[5, 7, 1, 3, END, NONE]
        )?,
        "edges across it alone"
    );
    assert!(rt;
        are_orders(alloc, rooms(alloc, 0)?, along_x(), 1, &[NONE])?,
        "no edge, no slab"
    );
    Ok(())
}

#[test]
fn three_edges_through_one_point(rt: HostRuntime) -> Result<(), Fail> {
    let alloc = rt.alloc();
    let wanted = [
        6, 8, 0, 1, END, 6, 8, 0, 1, 3, 5, END, 6, 8, 0, 3, 1, 5, END, 6, 8, 3, 0, 1, 5, END, 6, 3,
        8, 0, 1, 5, END, 3, 6, 0, 8, 1, 5, END, 0, 6, 1, 8, END, 0, 1, 6, 8, END, NONE,
    ];
    assert!(rt;
        are_orders(alloc, fan(alloc)?, along_x(), 9, &wanted)?,
        "the order changes at each crossing"
    );
    Ok(())
}
