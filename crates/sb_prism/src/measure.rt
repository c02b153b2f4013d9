// Lengths that have to be above 0.
ghost use Rattle.std.specs.Prelude.{◌≡◌};
ghost use Rattle.sb_prism.specs.Kept as spec;

use crate::sections::indices::is_negative;
use sb_fixed::{nanometres, rounding_is_one_number};
use sb_fraction::Unit;

/// A length that has to be above 0.
#[derive(Clone, Copy)]
pub(crate) struct Measure {
    /// In nanometres (nm); `None` exactly where it is out of range.
    pub(crate) length: Option<i128>,
    /// Whether it is above 0, as it is rounded.
    pub(crate) above: bool,
}

/// The length that a text writes.
pub(crate) fn measured_length(text: &[u8], unit: Unit) -> Measure
    ensures value { result ≡ spec.measure_of unit text.now }
    ensures size { spec.IsLengthWhere result.length }
{
    rounding_is_one_number();
    match nanometres(text, unit) {
        Ok(nm) => Measure {
            length: Some(nm),
            above: nm > 0,
        },
        Err(_) => Measure {
            length: None,
            above: !is_negative(text),
        },
    }
}
