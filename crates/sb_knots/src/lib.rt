//! Whether the edges of loops are apart, and on which side of each loop the solid lies.
//!
//! The loops are normalised: bent at each point, each begun at its least. A line passes over their
//! corners, by x and then by y, and the edges over which it stands are kept in order from below.
//! Begin
//! with [`senses`].
#![tactic(auto)]

mod begun;
mod corners;
mod edges;
mod lists;
mod meeting;
mod sides;
mod sizes;
mod standing;
mod sweep;

pub use lists::{PointLists, Points, Senses};
pub use sides::senses;
