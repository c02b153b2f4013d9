ghost use Rattle.sb_place.specs.Laws.{SpacePositionsAreUnique, PlanPositionsAreUnique, ChainsAreUnique};

use sb_step::one_list_of_parameters;

/// Laws of positions and chains: a file has one of each number and from each placement upwards. So what is
/// said of one chain of a product is said of all.
#[inline(always)]
pub fn one_chain()
    ensures space_positions { SpacePositionsAreUnique }
    ensures plan_positions { PlanPositionsAreUnique }
    ensures chains { ChainsAreUnique }
{
    one_list_of_parameters();
}
