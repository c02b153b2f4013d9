// What is followed from the products of a file.
pub(crate) mod bodies;
pub(crate) mod chains;
pub(crate) mod found;
pub(crate) mod leading;
pub(crate) mod places;
pub(crate) mod survey;
