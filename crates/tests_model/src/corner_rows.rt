ghost use Rattle.std.specs.Prelude.{◌<ℤ◌, pos, IsTrue};
ghost use Rattle.sb_fraction.specs.Bounds.{is_crossing_size};
ghost use Rattle.sb_fraction.specs.Spots.{spot_of};
ghost use Rattle.sb_model.specs.Surfaces.Faces.{is_face_of};

use crate::{cube, height, left_of_crossing, names_face, right_of_crossing, slanted_side, wedge};
use sb_fraction::{Fraction, HPoint};
use sb_model::{Corner, Corners, Model, Patch, corners, inside};
use std::test::Fail;

/// A corner with x and y in thirds of a millimetre (mm), and z in millimetres (mm).
fn corner(x: i16, y: i16, z: i16) -> Corner {
    Corner {
        x: Fraction::new(x as i128, 3),
        y: Fraction::new(y as i128, 3),
        z: Fraction::new(z as i128, 1),
    }
}

/// The plan point (x/w, y/w).
#[tactic(auto, using(crate::proofs::TriedPatches::points))]
fn point(x: i32, y: i32, w: i32) -> HPoint
    requires positive { pos 0 <ℤ w }
    ensures { IsTrue (is_crossing_size (spot_of result)) }
{
    HPoint {
        x: x as i128,
        y: y as i128,
        w: w as i128,
    }
}

/// Whether the point (x/w, y/w) at the height z, in millimetres (mm), lies inside the patch.
fn lies(model: &Model, patch: &Patch, x: i32, y: i32, w: i32, z: i32) -> bool
    requires face { IsTrue (is_face_of model.now patch.now.face) }
    requires positive { pos 0 <ℤ w }
{
    inside(model, patch, &point(x, y, w), &height(z))
}

#[test]
fn lines_that_cross_have_three_corners(rt: HostRuntime) -> Result<(), Fail> {
    let Some(model) = cube(rt.alloc())? else {
        panic!(rt; "a cube is a model");
    };
    let left = left_of_crossing();
    let right = right_of_crossing();
    if !names_face(&model, left.face) || !names_face(&model, right.face) {
        panic!(rt; "the cube has a top");
    }
    assert!(rt;
        corners(&model, &left)
            == Corners::Three(corner(0, 0, 10), corner(10, 0, 10), corner(10, 20, 10)),
        "the crossing is at (10/3, 20/3)"
    );
    assert!(rt;
        corners(&model, &right)
            == Corners::Three(corner(10, 20, 10), corner(15, 15, 10), corner(15, 30, 10)),
        "a steep line and a falling one"
    );
    Ok(())
}

#[test]
fn a_slanted_side_has_its_plan_points(rt: HostRuntime) -> Result<(), Fail> {
    let Some(model) = wedge(rt.alloc())? else {
        panic!(rt; "a wedge is a model");
    };
    let side = slanted_side();
    if !names_face(&model, side.face) {
        panic!(rt; "the wedge has three sides");
    }
    let four = Corners::Four(
        corner(3000, 0, 2500),
        corner(3000, 0, 0),
        corner(0, 3000, 0),
        corner(0, 3000, 2500),
    );
    assert!(rt;
        corners(&model, &side) == four,
        "against its direction, from (1000, 0) on"
    );
    Ok(())
}

#[test]
fn points_of_a_slanted_side(rt: HostRuntime) -> Result<(), Fail> {
    let Some(model) = wedge(rt.alloc())? else {
        panic!(rt; "a wedge is a model");
    };
    let side = slanted_side();
    if !names_face(&model, side.face) {
        panic!(rt; "the wedge has three sides");
    }
    assert!(rt; lies(&model, &side, 500, 500, 1, 1000), "in the middle");
    assert!(rt;
        lies(&model, &side, 1001, 999, 2, 2499),
        "at half a millimetre"
    );
    assert!(rt; !lies(&model, &side, 500, 500, 1, 0), "on the lower side");
    assert!(rt;
        !lies(&model, &side, 500, 500, 1, 2500),
        "on the upper side"
    );
    assert!(rt; !lies(&model, &side, 1000, 0, 1, 1000), "on an end");
    assert!(rt; !lies(&model, &side, 1001, -1, 1, 1000), "beyond it");
    Ok(())
}

#[test]
fn points_between_slanted_lines(rt: HostRuntime) -> Result<(), Fail> {
    let Some(model) = cube(rt.alloc())? else {
        panic!(rt; "a cube is a model");
    };
    let patch = right_of_crossing();
    if !names_face(&model, patch.face) {
        panic!(rt; "the cube has a top");
    }
    assert!(rt; lies(&model, &patch, 4, 7, 1, 10), "between the lines");
    assert!(rt; lies(&model, &patch, 13, 21, 3, 10), "in thirds");
    assert!(rt; !lies(&model, &patch, 4, 6, 1, 10), "on the lower line");
    assert!(rt; !lies(&model, &patch, 4, 8, 1, 10), "on the upper line");
    assert!(rt; !lies(&model, &patch, 4, 9, 1, 10), "above it");
    assert!(rt; !lies(&model, &patch, 10, 20, 3, 10), "where they cross");
    assert!(rt; !lies(&model, &patch, 5, 7, 1, 10), "on an end");
    Ok(())
}
