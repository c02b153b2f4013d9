ghost use Rattle.theory_shifts.specs.Laws.{HasNormalMoved, HasFlatMoved, HasKnottedMoved, HasPlanMoved, HasStillPlan};

/// What comes of loops moves with them: their normal forms, whether they are flat or knotted, and their
/// plan. A plan that is moved and is still in range is a plan.
pub fn moved_loops()
    ensures normal { HasNormalMoved }
    ensures flat { HasFlatMoved }
    ensures knotted { HasKnottedMoved }
    ensures plan { HasPlanMoved }
    ensures still { HasStillPlan }
{}
