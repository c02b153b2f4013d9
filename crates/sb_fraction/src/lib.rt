//! Points, segments, lines and fractions of whole numbers, all exact.
//!
//! Coordinates are whole millimetres. A number that is not whole is a [`Fraction`] in lowest
//! terms, or a homogeneous point [`HPoint`]. Nothing here takes memory. Begin with
//! [`Fraction::new`].
#![tactic(auto)]

mod direction;
mod fraction;
mod meeting;
mod order;
mod point;
mod products;
mod side;
mod span;
mod steps;
mod unit;

pub use direction::{Direction, Line};
pub use fraction::{Fraction, reduce};
pub use meeting::meet;
pub use order::{compare, order_at};
pub use point::{HPoint, Point, Segment};
pub use side::orient;
pub use steps::Steps;
pub use unit::Unit;
