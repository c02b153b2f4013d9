// Profiles of extruded solids, and their outlines.
pub(crate) mod areas;
pub(crate) mod contour;
pub(crate) mod curves;
pub(crate) mod indices;
pub(crate) mod outline;
pub(crate) mod profiles;
pub(crate) mod rectangles;
