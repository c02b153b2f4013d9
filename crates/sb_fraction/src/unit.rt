//! The length units that a model may be given in.

/// The unit of the lengths of a file.
#[derive(Clone, Copy, PartialEq)]
pub enum Unit {
    /// 1 m
    Metre,
    /// 1 mm
    Millimetre,
}
