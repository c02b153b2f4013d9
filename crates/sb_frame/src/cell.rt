//! In which square millimetre a crossing lies, and which edges can have it inside.

ghost use Rattle.std.specs.Prelude.{◌≡◌, ◌≤◌, pos, int_lt, unsigned_abs, IsTrue};
ghost use Rattle.sb_fraction.specs.Bounds.{greatest_crossing, is_crossing_size};
ghost use Rattle.sb_fraction.specs.Spots.{spot_of};
ghost use Rattle.sb_fraction.specs.Edges.{edge_of};
ghost use Rattle.sb_frame.specs.Through.{IsCellOf, is_beside, is_between as lies_between};
ghost use Rattle.sb_frame.specs.Through.{whole_below as whole_number_below};

use sb_fraction::{HPoint, Segment};

/// A square millimetre, by its lower left corner in millimetres (mm).
#[derive(Clone, Copy)]
pub(crate) struct Cell {
    x: i64,
    y: i64,
}

impl Cell {
    /// The square millimetre in which a crossing lies.
    pub(crate) fn of(p: &HPoint) -> Cell
        requires { IsTrue (is_crossing_size (spot_of p.now)) }
        ensures { IsCellOf (spot_of p.now) result.x result.y }
    {
        Cell {
            x: whole_below(p.x, p.w),
            y: whole_below(p.y, p.w),
        }
    }

    /// Whether the square millimetre lies between the ends of the segment, along x and along y.
    pub(crate) fn is_by(self, s: &Segment) -> bool
        ensures { result ≡ is_beside self.x self.y (edge_of s.now) }
    {
        is_between(s.a.x, s.b.x, self.x) && is_between(s.a.y, s.b.y, self.y)
    }
}

/// The whole number at `a/w` or next below it.
#[tactic(auto, using(crate::proofs::Meetings::WholeNumberBelow::quotients))]
fn whole_below(a: i128, w: i128) -> i64
    requires a_in { unsigned_abs a ≤ greatest_crossing }
    requires positive { IsTrue (int_lt (pos 0) w) }
    ensures { result ≡ whole_number_below a w }
{
    a.div_euclid(w) as i64
}

/// Whether a number lies between two others, or is one of them.
fn is_between(a: i32, b: i32, n: i64) -> bool
    ensures { result ≡ lies_between a b n }
{
    i64::from(a.min(b)) <= n && n <= i64::from(a.max(b))
}
