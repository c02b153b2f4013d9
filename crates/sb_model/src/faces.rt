// Faces of prisms, and the ways they look.
pub(crate) mod face;
pub(crate) mod facing;
pub(crate) mod side_line;
