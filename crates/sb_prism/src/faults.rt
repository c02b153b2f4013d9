// What is at fault in what is seen, as it is kept: of several instances the first.
ghost use Rattle.std.specs.Prelude.{◌≡◌, [], ◌∷◌, false, true};
ghost use Rattle.sb_place.specs.Sight.{absent_at, broken_at, is_other};
ghost use Rattle.sb_prism.specs.Kept as spec;

use sb_place::{Local, Seen};

/// What is at fault.
#[derive(Clone, Copy)]
pub(crate) struct Faults {
    /// An instance that is not of its row.
    pub(crate) broken: Option<u32>,
    /// A number that is named and that no instance has.
    pub(crate) absent: Option<u32>,
    /// Whether a direction of a position does not snap.
    pub(crate) turned: bool,
    /// Whether it is none of the shapes that are read.
    pub(crate) stray: bool,
    /// Whether a length is out of range.
    pub(crate) far: bool,
}

impl Faults {
    /// Nothing is at fault.
    pub(crate) fn none() -> Faults
        ensures { result ≡ spec.faults_of [] [] false false false }
    {
        Faults {
            broken: None,
            absent: None,
            turned: false,
            stray: false,
            far: false,
        }
    }

    /// No instance has the number.
    pub(crate) fn absent(number: u32) -> Faults
        ensures { result ≡ spec.faults_of [] (number ∷ []) false false false }
    {
        Faults {
            broken: None,
            absent: Some(number),
            turned: false,
            stray: false,
            far: false,
        }
    }

    /// The instance of the number is not of its row.
    pub(crate) fn broken(number: u32) -> Faults
        ensures { result ≡ spec.faults_of (number ∷ []) [] false false false }
    {
        Faults {
            broken: Some(number),
            absent: None,
            turned: false,
            stray: false,
            far: false,
        }
    }

    /// An instance is of another entity.
    pub(crate) fn stray() -> Faults
        ensures { result ≡ spec.faults_of [] [] false true false }
    {
        Faults {
            broken: None,
            absent: None,
            turned: false,
            stray: true,
            far: false,
        }
    }

    /// What is at fault with an instance, where a length of it may be out of range.
    pub(crate) fn of_seen<V>(seen: &Seen<V>, far: bool) -> Faults
        ensures { result ≡ spec.faults_of (broken_at seen.now) (absent_at seen.now) false (is_other seen.now) far }
    {
        Faults {
            broken: seen.broken(),
            absent: seen.absent(),
            turned: false,
            stray: seen.is_other(),
            far,
        }
    }

    /// What is at fault with a position.
    pub(crate) fn of_local(local: &Local) -> Faults
        ensures { result ≡ spec.faults_of_local local.now }
    {
        Faults {
            broken: local.broken,
            absent: local.absent,
            turned: local.turned,
            stray: local.stray,
            far: local.far,
        }
    }

    /// Lengths alone may be at fault.
    pub(crate) fn of_lengths(stray: bool, far: bool) -> Faults
        ensures { result ≡ spec.faults_of [] [] false stray far }
    {
        Faults {
            broken: None,
            absent: None,
            turned: false,
            stray,
            far,
        }
    }

    /// These, and those of what comes behind.
    pub(crate) fn and(self, later: Faults) -> Faults
        ensures { result ≡ spec.joined self later }
    {
        Faults {
            broken: first(self.broken, later.broken),
            absent: first(self.absent, later.absent),
            turned: either(self.turned, later.turned),
            stray: either(self.stray, later.stray),
            far: either(self.far, later.far),
        }
    }
}

/// The first of two numbers that is there.
fn first(a: Option<u32>, b: Option<u32>) -> Option<u32>
    ensures { result ≡ spec.first_of a b }
{
    match a {
        Some(n) => Some(n),
        None => b,
    }
}

fn either(a: bool, b: bool) -> bool
    ensures { result ≡ spec.either_of a b }
{
    a || b
}
