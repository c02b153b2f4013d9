// Patches of faces, their corners and their points.
pub(crate) mod corner;
pub(crate) mod corner_numbers;
pub(crate) mod outline;
pub(crate) mod patch;
pub(crate) mod patch_points;
