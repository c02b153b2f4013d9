ghost use Rattle.theory_loops.specs.Laws.{HasDropStruck, HasDropCrossed, HasOuterCovered, HasNormalLeft, HasOneLeft, HasLeastLeft, HasFewLeft, HasApartFromAny, HasTouch, HasApartInWords, HasSameParity, HasNoOtherEdge, HasSameInside, HasNormalBent, HasNormalLoop, HasPlan, HasPlanOnce};

/// Of three points on one line, equal ones and spikes among them, a ray strikes the edge between the
/// outer two exactly where it strikes one of the edges between neighbours and not both; and each
/// point of that edge lies on one of these.
pub fn drop_point()
    ensures struck { HasDropStruck }
    ensures crossed { HasDropCrossed }
    ensures covered { HasOuterCovered }
{}

/// In whatever order points that lie on one line with their neighbours are dropped from a closed
/// loop, what is left with none to drop is its normal form, read from some point; begun at its least
/// point it is the normal form itself. Fewer than three points are left in one order where they are in
/// each. Edges are apart from whichever points the loops are read.
pub fn any_order()
    ensures normal { HasNormalLeft }
    ensures one { HasOneLeft }
    ensures least { HasLeastLeft }
    ensures few { HasFewLeft }
    ensures apart { HasApartFromAny }
{}

/// Two edges touch exactly where they have a point in common; so the edges of loops are apart exactly
/// where no point is a corner twice and two edges meet only where one begins as the other ends.
pub fn edges_meet()
    ensures touch { HasTouch }
    ensures apart { HasApartInWords }
{}

/// The plan of loops is what they were when they were handed in: at each point an odd number of its
/// edges cross the ray to the right where an odd number of theirs do, and a point on none of their
/// edges is on none of its edges, and inside it where it is inside them.
pub fn same_plan()
    ensures parity { HasSameParity }
    ensures no_other_edge { HasNoOtherEdge }
    ensures inside { HasSameInside }
{}

/// Loops in range that are neither flat nor knotted give a plan; a plan is neither, and stays as it
/// is.
pub fn plans_come_out()
    ensures bent { HasNormalBent }
    ensures normal { HasNormalLoop }
    ensures plan { HasPlan }
    ensures once { HasPlanOnce }
{}
