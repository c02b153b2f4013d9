// What is read of a file once: its unit, its building, its products and its relations.
pub(crate) mod buildings;
pub(crate) mod kinds;
pub(crate) mod links;
pub(crate) mod lowest;
pub(crate) mod products;
pub(crate) mod units;
