//! The law of patches: two trimmed lists of patches that put the same points under the same marks
//! are the same list. Theory alone: the function has no body, its contract is the law.
//!
//! Start with `specs/Sheets.antt` and `specs/Trimmed.antt`, which say what the lists are; the law
//! itself is in `specs/Laws.antt`.
#![tactic(auto)]

ghost use Rattle.theory_patches.specs.Laws.{HasLawOfPatches, HasOneListOfPatches};

/// The law of patches: two trimmed lists of patches of one plane, all of whose points are plain off
/// the cuts, and which put the same plain points under the same marks, hold the same patches with
/// the same marks. The marks are of any type.
pub fn law_of_patches<M>()
    ensures same_patches { HasLawOfPatches M }
    ensures one_list { HasOneListOfPatches M }
{}
