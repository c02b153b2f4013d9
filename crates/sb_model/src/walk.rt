//! Walks: what the ray from a point of a face crosses, and what it meets.

ghost use Rattle.std.specs.Prelude.{◌≡◌, IfOk};

use sb_fraction::Fraction;
use sb_list::Listed;
use std::alloc::AllocError;

/// A layer of an element that a walk crosses.
#[derive(Clone, Copy, PartialEq)]
pub struct Item {
    /// The element's instance number.
    pub element: u32,
    /// The layer's index in its set, from 1, or 0 where the element has no layers along an axis.
    pub layer: u32,
    /// How thick the crossed part is, in micrometres (µm).
    pub thickness: Fraction,
}

/// The items of a walk, in the ray's order.
pub type Items = Listed<Item>;

/// What ends a walk.
#[derive(Clone, Copy, PartialEq)]
pub enum End {
    /// The space with this number.
    Space(u32),
    /// The open air.
    Outside,
    /// The earth.
    Earth,
    /// The element with this number, which is not passed through.
    Solid(u32),
}

/// What the ray from a point of a face crosses up to its end.
#[derive(Drop)]
pub struct Walk {
    pub items: Items,
    /// The position of the end, counted from the face. A depth k stands for k/√N millimetres,
    /// where N is the face's unit.
    pub depth: i64,
    pub end: End,
}

impl Walk {
    /// An equal walk.
    pub fn copy(&self) -> Result<Walk, AllocError>
        ensures { IfOk result (λ walk. walk ≡ self.now) }
    {
        let items = self.items.copy()?;
        Ok(Walk {
            items,
            depth: self.depth,
            end: self.end,
        })
    }
}
