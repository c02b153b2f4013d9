//! Gaps of a slab's order, and the one walk of each plain point. Theory alone: the functions have no
//! body, their contracts are the laws.
//!
//! Start with `specs/Gaps.antt`, which says what stands in a gap, and `specs/Borders.antt`, what a ray
//! reads through gaps; the laws are in `specs/Laws.antt`.
#![tactic(auto)]

ghost use Rattle.theory_gaps.specs.Laws.{HasGap, HasPresence, HasPresenceFromBehind};
ghost use Rattle.theory_gaps.specs.Laws.{HasOneOwnEdge, HasRealGaps, HasOverlapInGaps};
ghost use Rattle.theory_gaps.specs.Laws.{HasPointsWithinExtents, HaveOnePassages, HasOneWalk};
ghost use Rattle.theory_gaps.specs.Laws.{HasWalkAlongNormal, HasWalkUpAndDown};

/// Each point over a slab lies in a gap of the slab's order. A product contains it exactly where it is
/// present in this gap, which the edges before it tell as well as those behind. Strictly inside the slab
/// at most one edge of a product passes through a point.
pub fn gap_of_a_point()
    ensures gap { HasGap }
    ensures present { HasPresence }
    ensures from_behind { HasPresenceFromBehind }
    ensures one_edge { HasOneOwnEdge }
{}

/// A gap between two lines has points over each number strictly inside the slab, one between edges on
/// one line has none. So two products overlap over the slab exactly where both are present in a gap
/// between two lines, and their heights overlap.
pub fn gaps_between_lines()
    ensures points { HasRealGaps }
    ensures overlap { HasOverlapInGaps }
{}

/// A point inside a prism reads strictly between the ends of the prism's extent, along any vector.
pub fn points_within_extents()
    ensures { HasPointsWithinExtents }
{}

/// Each plain point of each face has passages over its whole ray, and one list of them; so it has
/// exactly one walk, whatever its reach and however deep it looks.
pub fn one_walk_each()
    ensures passages { HaveOnePassages }
    ensures walk { HasOneWalk }
{}

/// The walk along the normal of a side is what is read outward from the side's line through the gaps of
/// a slab's order.
pub fn walk_along_normal()
    ensures { HasWalkAlongNormal }
{}

/// The walk up or down is what is read between the heights of the products present in the point's gap.
pub fn walk_up_and_down()
    ensures { HasWalkUpAndDown }
{}
