//! The cells of a grid.

ghost use Rattle.std.specs.Prelude.{◌≡◌, ◌<◌};
ghost use Rattle.theory_numbers.specs.Fractions.{whole as whole_number};

use sb_fraction::Fraction;
use sb_list::Listed;
use sb_model::{Cell, Cells, End, Face, FaceKind, Item, Items, Patch, Side, Walk};
use std::alloc::{AllocError, Global};

/// Which walks the cells have.
#[derive(Clone, Copy)]
pub(crate) enum Walks {
    /// One walk for all.
    Equal,
    /// Each its own.
    Different,
    /// Two walks, in turn from height to height.
    Alternating,
}

/// The cells of a slab, from below.
pub(crate) fn slab(alloc: Global, u: u16, count: u16, walks: Walks) -> Result<Cells, AllocError>
    requires { u < 65535 }
{
    let mut cells = Listed::new(alloc);
    for z in 0..count {
        cells.push(cell(alloc, u, z, walks)?)?;
    }
    Ok(cells)
}

fn cell(alloc: Global, u: u16, z: u16, walks: Walks) -> Result<Cell, AllocError>
    requires over { u < 65535 }
    requires at { z < 65535 }
{
    let met = match walks {
        Walks::Equal => 1,
        Walks::Different => u32::from(u) * 65536 + u32::from(z),
        Walks::Alternating => u32::from(z) % 2,
    };
    let mut items: Items = Listed::new(alloc);
    items.push(Item {
        element: 30,
        layer: 0,
        thickness: whole(200000),
    })?;
    Ok(Cell {
        patch: part(u, u + 1, z, z + 1),
        walk: Walk {
            items,
            depth: 200,
            end: End::Space(met),
        },
        key: None,
    })
}

/// The part of side 1 over u from low to high and between two heights.
fn part(low: u16, high: u16, bottom: u16, top: u16) -> Patch
    requires along { low < high }
    requires up { bottom < top }
{
    Patch {
        face: Face {
            space: 7,
            kind: FaceKind::Side(1),
        },
        low: whole(i32::from(low)),
        high: whole(i32::from(high)),
        lower: Side::Height(i32::from(bottom)),
        upper: Side::Height(i32::from(top)),
    }
}

/// A whole number as a fraction.
#[tactic(auto, using(crate::proofs::Wholes::wholes))]
fn whole(x: i32) -> Fraction
    ensures { result ≡ whole_number x }
{
    Fraction::new(i128::from(x), 1)
}
