// Laws of the definitions of prisms.
ghost use Rattle.sb_prism.specs.Moved.{PointsLieAcross, SolidsMove};

/// Law of profiles: all points of a profile lie equally far along the way of its extrusion, at the near end
/// and at the far end. So any of them tells the heights of a prism.
#[inline(always)]
pub fn points_lie_across()
    ensures { PointsLieAcross }
{}

/// Law of frames: what is answered of a solid in a frame is what is answered of it turned by the turn of the
/// frame, and then moved by its shift.
#[inline(always)]
pub fn solids_move()
    ensures { SolidsMove }
{}
