use sb_box::{Extent, box_boundaries};
use sb_model::{Boundary, End, FaceKind, Side};
use std::test::Fail;

/// Where a side of a patch lies: the offset of its line, or its height.
fn place(side: &Side) -> i64 {
    match side {
        Side::OnLine(line) => line.off,
        Side::Height(z) => i64::from(*z),
    }
}

/// The numbers of a patch: from where to where in u, and from where to where in v.
fn span(b: &Boundary) -> [i128; 4] {
    [
        b.patch.low.num(),
        b.patch.high.num(),
        i128::from(place(&b.patch.lower)),
        i128::from(place(&b.patch.upper)),
    ]
}

#[test]
fn the_box_in_the_ground_has_ten(rt: HostRuntime) -> Result<(), Fail> {
    let extent = Extent {
        x0: 0,
        x1: 4000,
        y0: 0,
        y1: 3000,
        z0: -1000,
        z1: 1500,
    };
    let list = box_boundaries(rt.alloc(), 20, &extent)?;
    let rows = [
        (FaceKind::Bottom, [0, 4000, 0, 3000], End::Earth),
        (FaceKind::Top, [0, 4000, 0, 3000], End::Outside),
        (FaceKind::Side(0), [0, 4000, -1000, 0], End::Earth),
        (FaceKind::Side(0), [0, 4000, 0, 1500], End::Outside),
        (FaceKind::Side(1), [0, 3000, -1000, 0], End::Earth),
        (FaceKind::Side(1), [0, 3000, 0, 1500], End::Outside),
        (FaceKind::Side(2), [0, 4000, -1000, 0], End::Earth),
        (FaceKind::Side(2), [0, 4000, 0, 1500], End::Outside),
        (FaceKind::Side(3), [0, 3000, -1000, 0], End::Earth),
        (FaceKind::Side(3), [0, 3000, 0, 1500], End::Outside),
    ];
    assert_eq!(rt; list.len(), rows.len(), "one boundary a row");
    for (i, (kind, numbers, end)) in rows.iter().enumerate() {
        let id = i as u64 + 1;
        let Some(b) = list.get(id) else {
            panic!(rt; "boundary {id} is there");
        };
        assert!(rt; b.patch.face.kind == *kind, "face of boundary {id}");
        assert_eq!(rt; span(b), *numbers, "patch of boundary {id}");
        assert!(rt; b.walk.end == *end, "end of boundary {id}");
    }
    Ok(())
}
