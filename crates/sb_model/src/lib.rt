//! Building models, patches of their spaces' surfaces, walks and boundaries.
//!
//! Every solid is a vertical prism with a plan of whole millimetres. `docs/definitions.md` says in
//! words what `specs/` says exactly: where a point lies, what the ray from it meets, and when a
//! list of boundaries is sound. Begin with [`Model::new`].
#![tactic(auto)]

mod boundary;
mod building;
mod extent;
mod faces;
mod frame;
mod labels;
mod layers;
mod loops;
mod numbering;
mod patches;
mod prism;
mod products;
mod walk;

pub use boundary::{Boundaries, Boundary, Cell, Cells};
pub use building::{Model, ModelError};
pub use extent::{Extent, extent_of};
pub use faces::face::{Face, FaceKind, Side};
pub use faces::facing::{Facing, facing_of, facing_over};
pub use frame::{Frame, LocalAxes, Turn};
pub use labels::band::total_thickness;
pub use labels::label::Label;
pub use labels::labelling::label_at;
pub use layers::{Axis, Layer, Layering, Layers};
pub use loops::Loops;
pub use patches::corner::{Corner, Corners};
pub use patches::outline::corners;
pub use patches::patch::Patch;
pub use patches::patch_points::inside;
pub use prism::Prism;
pub use products::{
    Element, Elements, FillKind, Filling, Fillings, Opening, Openings, Space, Spaces,
};
pub use sb_list::Text;
pub use sb_loops::{LoopError, PointLists, Points};
pub use walk::{End, Item, Items, Walk};
