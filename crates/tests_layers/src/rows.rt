ghost use Rattle.std.specs.Prelude.{◌<ℤ◌, pos, IsTrue};
ghost use Rattle.sb_fraction.specs.Spots.{inner};
ghost use Rattle.sb_model.specs.Building.{is_layering};
ghost use Rattle.sb_model.specs.Labels.{axis_vector, IsShortAxis};
ghost use Rattle.sb_model.specs.Walks.{lies_along};

use crate::{layered_wall, plain_wall};
use sb_layers::crossed;
use sb_model::{Axis, Element, Item, Items, extent_of};
use std::alloc::{AllocError, Global};
use std::test::Fail;

const EAST: Axis = Axis { x: 1, y: 0, z: 0 };

const WEST: Axis = Axis { x: -1, y: 0, z: 0 };

/// The items between two positions; none where these do not lie in the wall's extent.
fn items(alloc: Global, wall: &Element, n: Axis, from: i64, to: i64) -> Result<Items, AllocError>
    requires layering_in { IsTrue (is_layering wall.now.layering) }
    requires along { IsTrue (lies_along wall.now.layering (axis_vector n)) }
    requires short { IsShortAxis n }
    requires some { pos 0 <ℤ inner (axis_vector n) (axis_vector n) }
{
    let extent = extent_of(&wall.prism, n);
    if extent.low <= from && from < to && to <= extent.high {
        crossed(alloc, wall, n, from, to)
    } else {
        Ok(Items::new(alloc))
    }
}

/// The element, the layer and the thickness of an item.
fn row(item: &Item) -> [i128; 4] {
    [
        i128::from(item.element),
        i128::from(item.layer),
        item.thickness.num(),
        item.thickness.den(),
    ]
}

#[test]
fn three_layers_from_inside(rt: HostRuntime) -> Result<(), Fail> {
    let wall = layered_wall(rt.alloc())?;
    let found = items(rt.alloc(), &wall, EAST, 4000, 4100)?;
    let rows = [[30, 1, 12500, 1], [30, 2, 75000, 1], [30, 3, 12500, 1]];
    assert_eq!(rt; found.len(), rows.len(), "one item a layer");
    for (i, item) in found.as_slice().iter().enumerate() {
        assert_eq!(rt; row(item), rows[i], "item {i}");
    }
    Ok(())
}

#[test]
fn the_middle_from_outside(rt: HostRuntime) -> Result<(), Fail> {
    let wall = layered_wall(rt.alloc())?;
    let found = items(rt.alloc(), &wall, WEST, -4090, -4010)?;
    let rows = [[30, 3, 2500, 1], [30, 2, 75000, 1], [30, 1, 2500, 1]];
    assert_eq!(rt; found.len(), rows.len(), "one item a layer");
    for (i, item) in found.as_slice().iter().enumerate() {
        assert_eq!(rt; row(item), rows[i], "item {i}");
    }
    Ok(())
}

#[test]
fn a_wall_without_layers(rt: HostRuntime) -> Result<(), Fail> {
    let wall = plain_wall(rt.alloc())?;
    let found = items(rt.alloc(), &wall, EAST, 4000, 4100)?;
    assert_eq!(rt; found.len(), 1, "one item");
    for item in found.as_slice() {
        assert_eq!(rt; row(item), [31, 0, 100000, 1], "100 mm");
    }
    Ok(())
}
