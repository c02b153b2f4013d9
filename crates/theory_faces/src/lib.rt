//! Sheets of faces, and how the cells of slabs become the trimmed patches of faces. Theory alone:
//! the functions have no body, their contracts are the laws.
//!
//! Start with `specs/Joinable.antt`: what a joiner is given, and what it makes of it. The laws are in
//! `specs/Laws.antt`.
#![tactic(auto)]

ghost use Rattle.theory_faces.specs.Laws.{HasJoinedCells, HasOneTrimmed, HasPlainOffCuts};
ghost use Rattle.theory_faces.specs.Laws.{HasLevelRegionInside};

/// Two patches of a face are trimmed, by the definition of models, exactly where they are apart and
/// without a seam on the sheet of its direction's abscissae. Nothing else cites both definitions.
pub fn trimmed_on_sheets()
    ensures { HasOneTrimmed }
{}

/// Over a slab a point of a face is plain exactly where it is off the abscissae of the face's
/// direction and off the lines or heights that cut the face there.
pub fn plain_points()
    ensures { HasPlainOffCuts }
{}

/// A patch of Bottom or Top whose points off finitely many lines are plain lies in its face.
pub fn level_regions()
    ensures { HasLevelRegionInside }
{}

/// Cells joined: whoever puts the runs of fine cells in order of their faces, sides and beginnings,
/// and carries each on with the next where it may, has the trimmed patches of the model.
pub fn joined_cells()
    ensures { HasJoinedCells }
{}
