// What stands at a point.
pub(crate) mod band;
pub(crate) mod label;
pub(crate) mod labelling;
