use crate::item::items_value;
use crate::strings::written_material;
use sb_fraction::{Fraction, Point, Unit};
use sb_list::{Listed, Text};
use sb_model::{Axis, Frame, Item, Items, Loops, Model, Prism, Space, Turn};
use std::alloc::{AllocError, Global};
use std::test::Fail;

fn floor(alloc: Global) -> Result<Option<Loops>, AllocError> {
    let mut corners = Listed::new(alloc);
    corners.push(Point { x: 0, y: 0 })?;
    corners.push(Point { x: 4000, y: 0 })?;
    corners.push(Point { x: 4000, y: 3000 })?;
    corners.push(Point { x: 0, y: 3000 })?;
    let mut points = Listed::new(alloc);
    points.push(corners)?;
    Ok(Loops::new(alloc, points).ok())
}

fn one_room(alloc: Global, floor: Loops, turn: Turn) -> Result<Option<Model>, AllocError> {
    let mut spaces = Listed::new(alloc);
    spaces.push(Space {
        number: 20,
        global_id: Text::new(alloc),
        prism: Prism::new(floor, 0, 2500),
        frame: Frame {
            turn,
            shift: [0, 0, 0],
        },
    })?;
    let model = Model::new(
        alloc,
        Unit::Millimetre,
        -500,
        1000,
        spaces,
        Listed::new(alloc),
        Listed::new(alloc),
        Listed::new(alloc),
    );
    Ok(model.ok())
}

fn model(alloc: Global) -> Result<Option<Model>, AllocError> {
    let turn = Turn::new(Axis { x: 1, y: 0, z: 0 }, Axis { x: 0, y: 0, z: 1 });
    match (floor(alloc)?, turn) {
        (Some(floor), Some(turn)) => one_room(alloc, floor, turn),
        _ => Ok(None),
    }
}

#[test]
fn a_crossed_layer_is_written(rt: HostRuntime) -> Result<(), Fail> {
    let Some(model) = model(rt.alloc())? else {
        panic!(rt; "this is a model");
    };
    let mut items = Items::new(rt.alloc());
    items.push(Item {
        element: 30,
        layer: 1,
        thickness: Fraction::new(20, 6),
    })?;
    let text = items_value(rt.alloc(), &model, &items)?.to_string(rt.alloc())?;
    let want = "[{\"element\":30,\"layer\":1,\"material\":\"\",\"thickness\":\"10/3\"}]";
    assert_eq!(rt; text.as_str(), want, "a layer without a name");
    Ok(())
}

#[test]
fn a_byte_is_a_character(rt: HostRuntime) -> Result<(), Fail> {
    let name = written_material(rt.alloc(), b"Caf\xE9")?;
    assert_eq!(rt; name.as_str(), "Café", "the byte 233 is the character é");
    Ok(())
}
