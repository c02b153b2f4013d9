//! A law of fine cells. It is theory alone: its function has no body, its contract is the law.

ghost use Rattle.sb_walk.specs.PointsOfCells.{HasPlainPoints};

/// Each fine cell of Bottom and Top has a plain point.
pub fn cells_have_points()
    ensures { HasPlainPoints }
{}
