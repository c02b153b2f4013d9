//! The products of a model, each under its instance number. The prism of each is a solid.

ghost use Rattle.std.specs.Prelude.{IsTrue};
ghost use Rattle.sb_model.specs.Solids.{is_upright};

use crate::frame::Frame;
use crate::layers::Layering;
use crate::prism::Prism;
use sb_list::{Listed, Text};

/// A room, or another space (IfcSpace).
#[derive(Drop)]
pub struct Space {
    pub number: u32,
    /// The GlobalId as read.
    pub global_id: Text,
    pub prism: Prism,
    /// From the space's own coordinates to the building's.
    pub frame: Frame,
    pub ghost is_solid: { IsTrue (is_upright prism) },
}

/// The spaces of a model, by rising numbers.
pub type Spaces = Listed<Space>;

/// A wall, slab, roof, column, beam or covering.
#[derive(Drop)]
pub struct Element {
    pub number: u32,
    pub prism: Prism,
    pub layering: Layering,
    pub ghost is_solid: { IsTrue (is_upright prism) },
}

/// The elements of a model, by rising numbers.
pub type Elements = Listed<Element>;

/// An opening in an element (IfcOpeningElement).
#[derive(Drop)]
pub struct Opening {
    pub number: u32,
    /// The number of the element that it is an opening of.
    pub element: u32,
    pub prism: Prism,
    pub ghost is_solid: { IsTrue (is_upright prism) },
}

/// The openings of a model, by rising numbers.
pub type Openings = Listed<Opening>;

/// What fills an opening.
#[derive(Clone, Copy, PartialEq)]
pub enum FillKind {
    Window,
    Door,
}

/// A door or window that fills an opening.
#[derive(Clone, Copy)]
pub struct Filling {
    pub number: u32,
    /// The number of the opening that it fills.
    pub opening: u32,
    pub kind: FillKind,
}

/// The fillings of a model, by rising numbers.
pub type Fillings = Listed<Filling>;
