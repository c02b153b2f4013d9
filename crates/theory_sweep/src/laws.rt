ghost use Rattle.theory_sweep.specs.Laws.{HasNoneAtFirst, HasStep, HasKnot, HasApart, HasSense, HasPassedInOrder};

/// From corner to corner the edges over which the line stands stay in order from below, where each two
/// that become neighbours pass the test; where two do not, the loops are not apart.
pub fn from_corner_to_corner()
    ensures first { HasNoneAtFirst }
    ensures step { HasStep }
    ensures knot { HasKnot }
{}

/// Once all corners are passed the edges of the loops are apart.
pub fn apart_once_passed()
    ensures apart { HasApart }
{}

/// The number of edges below an edge tells on which of its sides the solid lies.
pub fn sense_by_rank()
    ensures sense { HasSense }
{}

/// Along the way of the sweep points in range are passed by x and then by y.
pub fn passed_in_order()
    ensures passed { HasPassedInOrder }
{}
