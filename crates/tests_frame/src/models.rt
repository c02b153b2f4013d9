//! The models of the rows.

use crate::outlines::{Outline, model_of, rectangle, triangle};
use sb_model::Model;
use std::alloc::{AllocError, Global};

/// Space #20 of 10 by 10 mm under two slabs that cross in plan, #30 and #31.
pub fn crossing_slabs(alloc: Global) -> Result<Option<Model>, AllocError> {
    model_of(
        alloc,
        &[rectangle(20, (0, 10), (0, 10))],
        &[
            triangle(30, (0, 0), (5, 10), (0, 10)),
            triangle(31, (0, 10), (10, 0), (10, 10)),
        ],
    )
}

/// Spaces #20 and #21 and slab #30 over one triangle each; three of their edges pass through (20, 20),
/// one along x, one along y and one between.
pub fn fan(alloc: Global) -> Result<Option<Model>, AllocError> {
    model_of(
        alloc,
        &[
            triangle(20, (0, 20), (40, 20), (0, 30)),
            triangle(21, (20, 0), (20, 40), (10, 40)),
        ],
        &[triangle(30, (0, 0), (40, 40), (40, 50))],
    )
}

/// The place of wall `i`, 10 mm wide, 20 mm after the one before it.
fn of_wall(i: u16) -> (u16, u16) {
    let begin = i.saturating_mul(20).saturating_add(10);
    (begin, begin.saturating_add(10))
}

/// So many walls along x, 1,000 mm long, and so many along y across them.
pub fn walls(alloc: Global, along_x: u16, along_y: u16) -> Result<Option<Model>, AllocError> {
    let mut outlines = Vec::new(alloc);
    let mut number = 100u32;
    for i in 0..along_x {
        outlines.push(rectangle(number, (0, 1000), of_wall(i)))?;
        number = number.saturating_add(1);
    }
    for j in 0..along_y {
        outlines.push(rectangle(number, of_wall(j), (0, 1000)))?;
        number = number.saturating_add(1);
    }
    model_of(alloc, &[], outlines.as_slice())
}

/// Spaces from #1001 on, 10 by 10 mm each, 20 mm after the one before it along x.
pub fn rooms(alloc: Global, count: u16) -> Result<Option<Model>, AllocError> {
    let mut outlines: Vec<Outline> = Vec::new(alloc);
    for i in 0..count {
        let begin = i.saturating_mul(20);
        let number = u32::from(i).saturating_add(1001);
        outlines.push(rectangle(number, (begin, begin.saturating_add(10)), (0, 10)))?;
    }
    model_of(alloc, outlines.as_slice(), &[])
}
