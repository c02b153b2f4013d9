use crate::{along_x, along_y, crossing_slabs, fan, rising, rooms, walls};
use sb_fraction::{Direction, Fraction, Point};
use sb_frame::{EdgesError, PlanEdges, directions};
use sb_model::Model;
use std::alloc::{AllocError, Global};
use std::test::Fail;

/// How many edges and crossings there are, or why they are too many.
#[derive(Clone, Copy, PartialEq)]
enum Plan {
    Has(usize, usize),
    TooManyEdges(u32),
    TooManyCrossings,
    NoModel,
}

fn plan_of(alloc: Global, model: Option<Model>) -> Result<Plan, AllocError> {
    let Some(model) = model else {
        return Ok(Plan::NoModel);
    };
    match PlanEdges::new(alloc, &model) {
        Ok(edges) => Ok(Plan::Has(edges.len(), edges.crossings().len())),
        Err(EdgesError::Edges(n)) => Ok(Plan::TooManyEdges(n)),
        Err(EdgesError::Crossings) => Ok(Plan::TooManyCrossings),
        Err(EdgesError::NoMemory) => Err(AllocError),
    }
}

#[test]
fn how_many_edges_and_crossings(rt: HostRuntime) -> Result<(), Fail> {
    let alloc = rt.alloc();
    assert!(rt;
        plan_of(alloc, crossing_slabs(alloc)?)? == Plan::Has(10, 1),
        "(5, 10) is the end of an edge, so it is none"
    );
    assert!(rt;
        plan_of(alloc, fan(alloc)?)? == Plan::Has(9, 8),
        "(20, 20) is one point of three pairs"
    );
    assert!(rt;
        plan_of(alloc, rooms(alloc, 2)?)? == Plan::Has(8, 0),
        "rooms apart do not cross"
    );
    assert!(rt;
        plan_of(alloc, rooms(alloc, 0)?)? == Plan::Has(0, 0),
        "no product has no edge"
    );
    Ok(())
}

#[test]
fn as_many_crossings_as_may_be(rt: HostRuntime) -> Result<(), Fail> {
    let alloc = rt.alloc();
    assert!(rt;
        plan_of(alloc, walls(alloc, 16, 16)?)? == Plan::Has(128, 1024),
        "four of each wall with each other"
    );
    assert!(rt;
        plan_of(alloc, walls(alloc, 16, 17)?)? == Plan::TooManyCrossings,
        "there would be 1,088"
    );
    Ok(())
}

#[test]
fn as_many_edges_as_may_be(rt: HostRuntime) -> Result<(), Fail> {
    let alloc = rt.alloc();
    assert!(rt;
        plan_of(alloc, rooms(alloc, 512)?)? == Plan::Has(2048, 0),
        "four of each room"
    );
    assert!(rt;
        plan_of(alloc, rooms(alloc, 513)?)? == Plan::TooManyEdges(1513),
        "the last room passes the limit"
    );
    Ok(())
}

fn is_edge(edges: &PlanEdges, i: usize, product: u32, a: Point, b: Point) -> bool {
    if i >= edges.len() {
        return false;
    }
    let edge = edges.edge(i);
    edge.product == product
        && (edge.segment.a.x == a.x && edge.segment.a.y == a.y)
        && (edge.segment.b.x == b.x && edge.segment.b.y == b.y)
}

#[test]
fn edges_stand_by_product_and_then_by_place(rt: HostRuntime) -> Result<(), Fail> {
    let alloc = rt.alloc();
    let Some(model) = crossing_slabs(alloc)? else {
        panic!(rt; "the numbers are sound");
    };
    let Ok(edges) = PlanEdges::new(alloc, &model) else {
        panic!(rt; "there are few edges");
    };
    let least = Point { x: 0, y: 0 };
    let right = Point { x: 10, y: 0 };
    let corner = Point { x: 10, y: 10 };
    let left = Point { x: 0, y: 10 };
    assert!(rt;
        is_edge(&edges, 1, 20, right, corner),
        "the second of the space"
    );
    assert!(rt;
        is_edge(&edges, 4, 30, least, Point { x: 5, y: 10 }),
        "the first of the slab after it"
    );
    assert!(rt; is_edge(&edges, 9, 31, corner, left), "the last of all");
    Ok(())
}

fn are(list: &[Fraction], wanted: &[(i128, i128)]) -> bool {
    list.len() == wanted.len()
        && list
            .iter()
            .zip(wanted)
            .all(|(a, b)| a.num() == b.0 && a.den() == b.1)
}

fn has_abscissae(
    alloc: Global,
    model: Option<Model>,
    d: Direction,
    wanted: &[(i128, i128)],
) -> Result<bool, AllocError> {
    let Some(model) = model else {
        return Ok(false);
    };
    match PlanEdges::new(alloc, &model) {
        Ok(edges) => Ok(are(edges.abscissae(d)?.as_slice(), wanted)),
        Err(_) => Ok(false),
    }
}

#[test]
fn abscissae_of_directions(rt: HostRuntime) -> Result<(), Fail> {
    let alloc = rt.alloc();
    assert!(rt;
        has_abscissae(
            alloc,
            crossing_slabs(alloc)?,
            along_x(),
            &[(0, 1), (10, 3), (5, 1), (10, 1)]
        )?,
        "the slabs cross at 10/3"
    );
    assert!(rt;
        has_abscissae(
            alloc,
            crossing_slabs(alloc)?,
            along_y(),
            &[(0, 1), (20, 3), (10, 1)]
        )?,
        "and at 20/3"
    );
    assert!(rt;
        has_abscissae(
            alloc,
            crossing_slabs(alloc)?,
            rising(),
            &[(0, 1), (10, 1), (15, 1), (20, 1)]
        )?,
        "the crossing is abreast of two corners"
    );
    assert!(rt;
        has_abscissae(
            alloc,
            fan(alloc)?,
            along_x(),
            &[
                (0, 1),
                (10, 1),
                (40, 3),
                (15, 1),
                (320, 21),
                (16, 1),
                (20, 1),
                (24, 1),
                (40, 1),
            ]
        )?,
        "two crossings at 16, three at 20"
    );
    assert!(rt;
        has_abscissae(alloc, rooms(alloc, 0)?, along_x(), &[])?,
        "none of nothing"
    );
    Ok(())
}

fn has_directions(
    alloc: Global,
    model: Option<Model>,
    wanted: &[(i32, i32)],
) -> Result<bool, AllocError> {
    let Some(model) = model else {
        return Ok(false);
    };
    let list = directions(alloc, &model)?;
    Ok(
        list.len() == wanted.len()
            && list
                .as_slice()
                .iter()
                .zip(wanted)
                .all(|(a, b)| a.x == b.0 && a.y == b.1),
    )
}

#[test]
fn directions_of_models(rt: HostRuntime) -> Result<(), Fail> {
    let alloc = rt.alloc();
    assert!(rt;
        has_directions(alloc, crossing_slabs(alloc)?, &[(0, 1), (1, 0)])?,
        "those of the space, and not those of slabs"
    );
    assert!(rt;
        has_directions(alloc, fan(alloc)?, &[(0, 1), (1, -4), (1, 0), (4, -1)])?,
        "by x and then by y"
    );
    assert!(rt;
        has_directions(alloc, walls(alloc, 1, 1)?, &[(1, 0)])?,
        "no space"
    );
    Ok(())
}
