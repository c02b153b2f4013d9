ghost use Rattle.theory_parity.specs.SideLaws.{HasOneSideALoop, HasTurnedEdges, HasOthersAsBefore, HasTurnedAnswer, HasOneEdgeALoop, HasPutLeft, HasPutLeftPlan, HasPutLeftOnce, HasInsideOnTheLeft, HasInsideWhereLeft, HasEvenToTheRight, HasSensesAlternating};

/// Of loops that are bent and whose edges are apart, the solid lies on the left of all edges of a
/// loop or of none. A loop turned round has it where it had not, and the others as before. So the
/// loops keep the solid on the left once each is turned whose first edge does not have it there,
/// and normalised loops become a plan.
pub fn one_side_a_loop()
    ensures one_side { HasOneSideALoop }
    ensures turned_edges { HasTurnedEdges }
    ensures others { HasOthersAsBefore }
    ensures turned { HasTurnedAnswer }
    ensures one_edge { HasOneEdgeALoop }
    ensures put_left { HasPutLeft }
    ensures plan { HasPutLeftPlan }
    ensures once { HasPutLeftOnce }
{}

/// Near each point strictly inside an edge of a plan the points left of the edge lie inside the
/// plan, and those right of it outside. A point between which and such a point of an edge no edge
/// passes lies inside exactly where it lies left of this edge. Rays to its right come out of the
/// plan: they strike an even number of edges.
pub fn inside_on_the_left()
    ensures near { HasInsideOnTheLeft }
    ensures where_left { HasInsideWhereLeft }
    ensures rays { HasEvenToTheRight }
{}

/// Of the edges of a plan over one abscissa of a direction, counted from below, those of odd rank
/// run along the direction and those of even rank against it.
pub fn senses_alternate()
    ensures senses { HasSensesAlternating }
{}
