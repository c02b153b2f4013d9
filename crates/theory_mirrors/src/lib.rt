//! Walks seen from their other ends: the walk back is the walk reversed. Theory alone: the
//! functions have no body, their contracts are the laws.
//!
//! Start with `specs/Laws.antt`.
#![tactic(auto)]

ghost use Rattle.theory_mirrors.specs.Laws.{HasReversedWalks, HaveSamePlaces};

/// In a model in which no two spaces overlap, a walk that ends at a space has its way back: the point at the
/// walk's depth is a plain point of a face of that space with the opposite normal, and its walk is this walk
/// reversed, to the first space.
pub fn walks_back()
    ensures { HasReversedWalks }
{}

/// Faces of spaces with opposite normals read u and v along the same vectors, and a point further along the
/// normal has the u and v of the first: so both ends of such a walk have one place.
pub fn same_places()
    ensures { HaveSamePlaces }
{}
