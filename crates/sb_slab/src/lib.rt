//! The slabs of a direction, each with the order of the plan edges that span it.
//!
//! Begin with [`SlabOrders::new`]. Each slab is sorted anew. That this is the order of the slab at
//! every abscissa strictly inside is `theory_lines`.
#![tactic(auto)]

mod item;
mod orders;
mod reaching;
mod sorting;
mod table;

pub use orders::SlabOrders;
