//! Joining: how the runs of slabs become a trimmed list of patches, slab after slab. Theory alone:
//! the functions have no body, their contracts are the laws.
//!
//! Start with `specs/Runs.antt`, the runs of a slab, and `specs/Joined.antt`, what holds up to a
//! number; `specs/Put.antt` says how a run carries a list on. The laws are in `specs/Laws.antt`.
#![tactic(auto)]

ghost use Rattle.theory_joining.specs.Laws.{HasStep, HasStepInAnyOrder, HasTrimmedEnd, HasJoin};
ghost use Rattle.theory_joining.specs.Laws.{HasOneJoin, HasRunsOfCells, HasMerge};

/// The step from slab to slab: what is joined up to the beginning of a slab is joined up to its end
/// once the runs of the slab are put to it, in whatever order the patches stand after each put. The
/// marks are of any type.
pub fn joined_on<M>()
    ensures step { HasStep M }
    ensures in_any_order { HasStepInAnyOrder M }
{}

/// The end: what is joined up to an abscissa is a trimmed list of patches, and there is one such
/// list up to order.
pub fn joined_is_trimmed<M>()
    ensures trimmed { HasTrimmedEnd M }
    ensures one_list { HasOneJoin M }
{}

/// The whole: slabs that follow each other, with their runs, are joined to a trimmed list that puts
/// the points off the cuts under the marks of the runs, and under no other.
pub fn join_of_slabs<M>()
    ensures join { HasJoin M }
{}

/// The runs of a slab are those of its cells, where neighbours of one mark become one; and the runs
/// of two stretches of cells are merged where they meet.
pub fn runs_of_cells<M>()
    ensures runs { HasRunsOfCells M }
    ensures merged { HasMerge M }
{}
