ghost use Rattle.std.specs.Prelude.{◌<ℤ◌, pos};

use crate::{elements, fillings, height, openings, spaces, storey};
use sb_fraction::{HPoint, Unit};
use sb_model::{Axis, Frame, Label, Model, ModelError, Turn, label_at};
use std::alloc::{AllocError, Global};
use std::test::Fail;

/// The bad number of a model of these products, 0 where there is none.
fn bad_number(
    alloc: Global,
    of_spaces: &[u32],
    of_elements: &[u32],
    of_openings: &[(u32, u32)],
    of_fillings: &[(u32, u32)],
) -> Result<Option<u32>, AllocError> {
    let made = Model::new(
        alloc,
        Unit::Millimetre,
        0,
        1000,
        spaces(alloc, of_spaces)?,
        elements(alloc, of_elements)?,
        openings(alloc, of_openings)?,
        fillings(alloc, of_fillings)?,
    );
    match made {
        Ok(_) => Ok(None),
        Err(ModelError::BadNumber(n)) => Ok(Some(n)),
        Err(ModelError::NoMemory) => Err(AllocError),
    }
}

#[test]
fn sound_numbers_are_a_model(rt: HostRuntime) -> Result<(), Fail> {
    let alloc = rt.alloc();
    let sound = bad_number(alloc, &[20, 21], &[30, 31], &[(40, 31)], &[(50, 40)])?;
    assert!(rt; sound.is_none(), "all numbers are sound");
    assert!(rt;
        bad_number(alloc, &[], &[], &[], &[])?.is_none(),
        "no product is none bad"
    );
    Ok(())
}

#[test]
fn numbers_out_of_order_are_bad(rt: HostRuntime) -> Result<(), Fail> {
    let alloc = rt.alloc();
    assert!(rt;
        bad_number(alloc, &[0], &[], &[], &[])? == Some(0),
        "0 is no number"
    );
    assert!(rt;
        bad_number(alloc, &[20, 20], &[], &[], &[])? == Some(20),
        "a space twice"
    );
    assert!(rt;
        bad_number(alloc, &[20], &[31, 30], &[], &[])? == Some(30),
        "an element out of order"
    );
    assert!(rt;
        bad_number(alloc, &[20], &[20], &[], &[])? == Some(20),
        "a number in two lists"
    );
    Ok(())
}

#[test]
fn what_names_nothing_is_bad(rt: HostRuntime) -> Result<(), Fail> {
    let alloc = rt.alloc();
    assert!(rt;
        bad_number(alloc, &[20], &[30], &[(40, 31)], &[])? == Some(40),
        "an opening of an absent element"
    );
    assert!(rt;
        bad_number(alloc, &[], &[30], &[(40, 30)], &[(50, 41)])? == Some(50),
        "a filling of an absent opening"
    );
    assert!(rt;
        bad_number(alloc, &[], &[30], &[(40, 31)], &[(50, 41)])? == Some(40),
        "the first of two"
    );
    Ok(())
}

/// The six signed axes.
fn axes() -> [Axis; 6] {
    [
        Axis { x: 1, y: 0, z: 0 },
        Axis { x: -1, y: 0, z: 0 },
        Axis { x: 0, y: 1, z: 0 },
        Axis { x: 0, y: -1, z: 0 },
        Axis { x: 0, y: 0, z: 1 },
        Axis { x: 0, y: 0, z: -1 },
    ]
}

#[test]
fn there_are_24_turns(rt: HostRuntime) -> Result<(), Fail> {
    let none = Turn::new(Axis { x: 1, y: 0, z: 0 }, Axis { x: 0, y: 0, z: 1 });
    let mut turns: u32 = 0;
    for x in axes() {
        for z in axes() {
            if let Some(turn) = Turn::new(x, z) {
                turns = turns.saturating_add(1);
                assert!(rt;
                    Some(turn.then(turn.back())) == none,
                    "there and back is no turn"
                );
            }
        }
    }
    assert!(rt; turns == 24, "two signed axes at right angles");
    Ok(())
}

#[test]
fn directions_that_are_no_turn(rt: HostRuntime) -> Result<(), Fail> {
    let up = Axis { x: 0, y: 0, z: 1 };
    assert!(rt; Turn::new(up, up).is_none(), "one axis twice");
    assert!(rt;
        Turn::new(Axis { x: 1, y: 1, z: 0 }, up).is_none(),
        "a slanted direction"
    );
    assert!(rt;
        Turn::new(Axis { x: 0, y: 0, z: 0 }, up).is_none(),
        "no direction"
    );
    assert!(rt;
        Turn::new(Axis { x: 2, y: 0, z: 0 }, up).is_none(),
        "a longer one"
    );
    Ok(())
}

#[test]
fn a_frame_turns_and_then_shifts(rt: HostRuntime) -> Result<(), Fail> {
    // local x goes to y, local y to -x
    let Some(turn) = Turn::new(Axis { x: 0, y: 1, z: 0 }, Axis { x: 0, y: 0, z: 1 }) else {
        panic!(rt; "y and z stand at right angles");
    };
    let frame = Frame {
        turn,
        shift: [4_100_000_000, 0, 0],
    };
    let [x, y, z] = frame.apply([1_000_000, 2_000_000, 3_000_000]);
    assert!(rt;
        x == 4_098_000_000 && y == 1_000_000 && z == 3_000_000,
        "turned, then shifted"
    );
    let [x, y, z] = frame.apply([1_000_000_000_000_000_000, 0, -1_000_000_000_000_000_000]);
    assert!(rt; x == 4_100_000_000, "the greatest number goes along y");
    assert!(rt;
        y == 1_000_000_000_000_000_000 && z == -1_000_000_000_000_000_000,
        "and stays exact"
    );
    Ok(())
}

/// What is at the point with x over w, y at 5 and z in millimetres (mm).
fn label(model: &Model, x: i32, w: i32, z: i32) -> Label
    requires { pos 0 <ℤ w }
{
    let y = w as i128 * 5;
    let p = HPoint {
        x: x as i128,
        y,
        w: w as i128,
    };
    label_at(model, &p, &height(z))
}

#[test]
fn layers_have_their_lower_ends(rt: HostRuntime) -> Result<(), Fail> {
    let Some(model) = storey(rt.alloc())? else {
        panic!(rt; "this is a model");
    };
    assert!(rt;
        label(&model, 11, 1, 5) == Label::Element(30, 1),
        "in the first band"
    );
    assert!(rt;
        label(&model, 45, 4, 5) == Label::Element(30, 2),
        "its upper end is the next band's"
    );
    assert!(rt;
        label(&model, 75, 4, 5) == Label::Element(30, 3),
        "so at the third"
    );
    assert!(rt;
        label(&model, 17, 1, 5) == Label::Element(30, 2),
        "of two elements the lower number"
    );
    assert!(rt;
        label(&model, 20, 1, 5) == Label::Element(31, 0),
        "the end of one is in the other"
    );
    Ok(())
}

#[test]
fn spaces_come_before_elements(rt: HostRuntime) -> Result<(), Fail> {
    let Some(model) = storey(rt.alloc())? else {
        panic!(rt; "this is a model");
    };
    assert!(rt;
        label(&model, 9, 2, 5) == Label::Space(20),
        "a space and an element"
    );
    assert!(rt;
        label(&model, 5, 1, 5) == Label::Element(32, 0),
        "a side is not in the space"
    );
    assert!(rt; label(&model, 50, 1, 2) == Label::Earth, "below the ground");
    assert!(rt;
        label(&model, 50, 1, 3) == Label::Void,
        "at the ground and above"
    );
    Ok(())
}
