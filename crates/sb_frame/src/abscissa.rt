//! One abscissa.

ghost use Rattle.std.specs.Prelude.{IsTrue};
ghost use Rattle.sb_fraction.specs.Bounds.{is_abscissa_size, is_fraction};

use sb_fraction::Fraction;

/// An abscissa of a plan point or of a crossing.
#[derive(Clone, Copy)]
pub(crate) struct Abscissa {
    pub(crate) number: Fraction,
    pub(crate) ghost size: { IsTrue (is_abscissa_size number) },
    pub(crate) ghost lowest: { IsTrue (is_fraction number) },
}
