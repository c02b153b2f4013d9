// Points of a solid in nanometres, before it is judged.
pub(crate) mod axes;
pub(crate) mod lying;
pub(crate) mod sizes;
