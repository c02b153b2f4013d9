// Numbers that can be added and compared.
ghost use Rattle.std.specs.Prelude.{IsTrue};
ghost use Rattle.sb_solid.specs.Sizes.{is_small, is_wide};

use sb_list::Listed;

/// A point in nanometres (nm), each coordinate at most 10^18 nm in size.
#[derive(Clone, Copy)]
pub(crate) struct Lying {
    pub(crate) x: i128,
    pub(crate) y: i128,
    pub(crate) z: i128,
    ghost small_x: { IsTrue (is_small x) },
    ghost small_y: { IsTrue (is_small y) },
    ghost small_z: { IsTrue (is_small z) },
}

/// Points in order.
pub(crate) type Lyings = Listed<Lying>;

/// The least and the greatest of some numbers, each at most 10^18 in size.
#[derive(Clone, Copy)]
pub(crate) struct Extent {
    pub(crate) low: i128,
    pub(crate) high: i128,
    ghost small_low: { IsTrue (is_small low) },
    ghost small_high: { IsTrue (is_small high) },
}

/// Three numbers, each at most 2^61 in size.
#[derive(Clone, Copy)]
pub(crate) struct Wide {
    pub(crate) x: i128,
    pub(crate) y: i128,
    pub(crate) z: i128,
    ghost wide_x: { IsTrue (is_wide x) },
    ghost wide_y: { IsTrue (is_wide y) },
    ghost wide_z: { IsTrue (is_wide z) },
}
