// Boxes with sides along the axes.
ghost use Rattle.std.specs.Prelude.{◌≡◌, IsTrue};
ghost use Rattle.sb_box.specs.Extents.{is_interval, is_extent};

/// A box: three intervals of whole millimetres (mm), each from a lower to a greater coordinate of
/// at most 500,000 mm in size.
#[derive(Clone, Copy)]
pub struct Extent {
    pub x0: i32,
    pub x1: i32,
    pub y0: i32,
    pub y1: i32,
    pub z0: i32,
    pub z1: i32,
    ghost is_extent: { IsTrue (is_extent x0 x1 y0 y1 z0 z1) },
}

/// From a lower to a greater coordinate, in whole millimetres (mm) of at most 500,000 mm in size.
#[derive(Clone, Copy)]
pub(crate) struct Interval {
    pub low: i32,
    pub high: i32,
    ghost is_interval: { IsTrue (is_interval low high) },
}

impl Extent {
    /// From where to where the box lies along x.
    pub(crate) fn x(&self) -> Interval
        ensures low { result.low ≡ self.now.x0 }
        ensures high { result.high ≡ self.now.x1 }
    {
        Interval {
            low: self.x0,
            high: self.x1,
        }
    }

    /// From where to where it lies along y.
    pub(crate) fn y(&self) -> Interval
        ensures low { result.low ≡ self.now.y0 }
        ensures high { result.high ≡ self.now.y1 }
    {
        Interval {
            low: self.y0,
            high: self.y1,
        }
    }

    /// From where to where it lies along z.
    pub(crate) fn z(&self) -> Interval
        ensures low { result.low ≡ self.now.z0 }
        ensures high { result.high ≡ self.now.z1 }
    {
        Interval {
            low: self.z0,
            high: self.z1,
        }
    }
}
