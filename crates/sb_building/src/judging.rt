// The products of a file as they are judged, one after another.
pub(crate) mod layer_faults;
pub(crate) mod least;
pub(crate) mod ordered;
pub(crate) mod shaping;
pub(crate) mod standing;
