// The lists of products of a model.
pub(crate) mod assembled;
pub(crate) mod filling;
