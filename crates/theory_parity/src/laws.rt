ghost use Rattle.theory_parity.specs.Laws.{HasInsideAlongEach, HasInsideAlongForward, HasBelowCrossed, HasMoves, HasFlip, HasHalvesInside, HasRegionInside, HasRegionInsideOffSides};

/// A point lies inside a plan exactly where it lies on no edge and an odd number of edges lie below
/// it, along any direction: along any vector that is not 0, so along each with a positive first
/// part and along (0, 1), where an edge lies below as it crosses the ray to the right.
pub fn inside_along_any_direction()
    ensures along_each { HasInsideAlongEach }
    ensures along_forward { HasInsideAlongForward }
    ensures along_y { HasBelowCrossed }
{}

/// Two points with no edge of a plan between them lie both inside it or both outside.
pub fn moves()
    ensures moves { HasMoves }
{}

/// Across the only edge through a point of a line u = constant the parity of the edges below flips.
pub fn across_the_only_edge()
    ensures flip { HasFlip }
{}

/// A convex region whose points off finitely many lines lie inside a plan lies inside it: an
/// intersection of open half-planes, and so the region of a patch.
pub fn inside_throughout()
    ensures halves { HasHalvesInside }
    ensures region { HasRegionInside }
    ensures off_sides { HasRegionInsideOffSides }
{}
