//! Cuttings of a line: functions of the rational numbers that have one label on each piece of an
//! interval. Theory alone: the two functions have no body, their contracts are laws.
//!
//! Start with `specs/Cuttings.antt`, which says what a cutting is; `specs/Changes.antt` says what
//! is done with cuttings, and `specs/Laws.antt` what is promised here.
#![tactic(auto)]

ghost use Rattle.theory_cuttings.specs.Laws.{HasOneCutting, IsReducedBySquash};

/// One cutting: two reduced cuttings of one function are equal, as data. The labels are of any
/// type.
pub fn one_cutting<L>()
    ensures { HasOneCutting L }
{}

/// Squash: where no point is odd, dropping each break whose label is the one before it leaves a
/// reduced cutting of the same function. The labels are of any type with a test of equality.
pub fn squash<L>()
    ensures { IsReducedBySquash L }
{}
