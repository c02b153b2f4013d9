// What is kept of the representations of a shape.
use crate::faults::Faults;
use sb_schema::References;

/// What is kept of the representations of a shape: their faults, and the items of the first Body.
#[derive(Drop)]
pub(crate) struct Body {
    pub(crate) faults: Faults,
    pub(crate) items: Option<References>,
}
