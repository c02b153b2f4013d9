//! Models of 2,048 plan edges.

use sb_model::Model;
use std::alloc::{AllocError, Global};
use tests_frame::{Outline, model_of, rectangle};

/// How the walls lie.
#[derive(Clone, Copy)]
pub(crate) enum Shape {
    /// 512 rooms side by side along x, 10 mm apart.
    Apart,
    /// 16 walls along x across 16 along y, which cross in 1,024 points, and 480 rooms beside them.
    Crossed,
    /// 512 walls along x one above the other, each beginning and ending 1 mm after the one below it.
    Stairs,
}

pub(crate) fn generated(alloc: Global, shape: Shape) -> Result<Option<Model>, AllocError> {
    let mut outlines = Vec::new(alloc);
    for i in 0..512u16 {
        outlines.push(match shape {
            Shape::Apart => room(i),
            Shape::Crossed => crossed(i),
            Shape::Stairs => stair(i),
        })?;
    }
    model_of(alloc, &[], outlines.as_slice())
}

fn number(i: u16) -> u32 {
    u32::from(i).saturating_add(1)
}

/// From `begin` on, this long.
fn span(begin: u16, length: u16) -> (u16, u16) {
    (begin, begin.saturating_add(length))
}

fn room(i: u16) -> Outline {
    rectangle(number(i), span(i.saturating_mul(20), 10), (0, 10))
}

fn crossed(i: u16) -> Outline {
    if i < 16 {
        rectangle(
            number(i),
            (0, 1000),
            span(i.saturating_mul(20).saturating_add(10), 10),
        )
    } else if i < 32 {
        let begin = i.saturating_sub(16).saturating_mul(20).saturating_add(10);
        rectangle(number(i), span(begin, 10), (0, 1000))
    } else {
        rectangle(
            number(i),
            span(i.saturating_mul(20).saturating_add(2000), 10),
            (0, 10),
        )
    }
}

fn stair(i: u16) -> Outline {
    rectangle(number(i), span(i, 1000), span(i.saturating_mul(20), 10))
}
