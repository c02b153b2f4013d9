//! Which way a walk of Bottom or Top goes, and positions along it.

ghost use Rattle.std.specs.Prelude.{◌≡◌, neg_ℤ, IsTrue};
ghost use Rattle.sb_model.specs.Solids.{is_height};
ghost use Rattle.theory_gaps.specs.Borders.{entry_along, exit_along, ground_along, reaches_on as is_reaching_on};
ghost use Rattle.sb_walk.specs.Ways.{normal_of};

use sb_model::Prism;

/// Which way a walk goes. A position along it is a height, counted upwards or downwards, in millimetres
/// (mm).
#[derive(Clone, Copy)]
pub enum Way {
    /// From Bottom.
    Down,
    /// From Top.
    Up,
}

impl Way {
    /// The position at which a prism is entered.
    #[tactic(auto, using(crate::proofs::Ranges::HeightsFit::heights))]
    pub(crate) fn entry(self, prism: &Prism) -> i32
        ensures { result ≡ entry_along (normal_of self) prism.now }
    {
        match self {
            Way::Down => negated(prism.z1()),
            Way::Up => prism.z0(),
        }
    }

    /// The position at which it is left.
    #[tactic(auto, using(crate::proofs::Ranges::HeightsFit::heights))]
    pub(crate) fn exit(self, prism: &Prism) -> i32
        ensures { result ≡ exit_along (normal_of self) prism.now }
    {
        match self {
            Way::Down => negated(prism.z0()),
            Way::Up => prism.z1(),
        }
    }

    /// The position of the ground.
    pub(crate) fn ground(self, height: i32) -> i32
        requires { IsTrue (is_height height) }
        ensures { result ≡ ground_along (normal_of self) height }
    {
        match self {
            Way::Down => negated(height),
            Way::Up => height,
        }
    }

    /// Whether a prism reaches on behind a position.
    pub(crate) fn reaches_on(self, prism: &Prism, z: i32) -> bool
        ensures { result ≡ is_reaching_on (normal_of self) z prism.now }
    {
        self.entry(prism) <= z && z < self.exit(prism)
    }
}

fn negated(z: i32) -> i32
    requires { IsTrue (is_height z) }
    ensures { result ≡ neg_ℤ z }
{
    -z
}
