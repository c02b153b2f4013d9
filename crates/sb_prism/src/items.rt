// The items of a shape, down to its solid.
pub(crate) mod bodies;
pub(crate) mod body;
pub(crate) mod heading;
pub(crate) mod shapes;
pub(crate) mod solids;
