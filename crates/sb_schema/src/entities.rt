// The entities that are viewed, each with the attributes that are read.
#![tactic(auto, using(crate::proofs::BegunIsTold::telling))]

pub(crate) mod curves;
pub(crate) mod materials;
pub(crate) mod placements;
pub(crate) mod products;
pub(crate) mod profiles;
pub(crate) mod relations;
pub(crate) mod shapes;
