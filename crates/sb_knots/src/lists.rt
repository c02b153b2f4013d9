use sb_fraction::Point;
use sb_list::Listed;

/// Plan points, as the corners of a closed loop.
pub type Points = Listed<Point>;

/// Lists of plan points: the loops of a plan.
pub type PointLists = Listed<Points>;

/// For each loop whether the solid lies on its left.
pub type Senses = Listed<bool>;
