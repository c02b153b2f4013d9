//! What lists of boundaries are made of that are made by hand or generated, for the rows of the texts and for
//! timing: models, patches, boundaries, and whether a list is one of a model.
#![tactic(auto)]

mod generated;
mod made;
mod models;
mod naming;
mod patches;

pub use generated::{Shape, patch_of, space_at, spaces_of};
pub use made::{Crossed, Entry, child, list_of, paired, row};
pub use models::{one_space, prism, room, space, turn, two_spaces};
pub use naming::is_list_of;
pub use patches::{
    below_ground, from_half, from_minus_half, on_ceiling, on_floor, on_side, shallow_part,
    shallow_rest,
};
