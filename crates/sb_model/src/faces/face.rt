//! The faces of a space, and the sides that bound a patch of one.

use sb_fraction::Line;

/// A side of a patch: the lower or the upper one, as v over u.
#[derive(Clone, Copy, PartialEq)]
pub enum Side {
    /// On Bottom and Top: a line in plan.
    OnLine(Line),
    /// On a side face: a height in millimetres (mm).
    Height(i32),
}

/// Which face of a space.
#[derive(Clone, Copy, PartialEq)]
pub enum FaceKind {
    /// The level face at the space's lower height. u is x and v is y.
    Bottom,
    /// The level face at the space's upper height. u is x and v is y.
    Top,
    /// The upright face over edge `k` of the plan, counted from 0 through all loops. u is `p·d`
    /// for the edge's direction d, and v is z.
    Side(u32),
}

/// A face of a space.
#[derive(Clone, Copy, PartialEq)]
pub struct Face {
    pub space: u32,
    pub kind: FaceKind,
}
