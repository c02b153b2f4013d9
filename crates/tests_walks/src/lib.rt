//! Worked rows of the definitions: models written out with the walk, the layers and what the ray
//! meets, shown to be what the definitions say. Theory alone, no code. They show that the definitions
//! accept what they should and refuse what they should not.
#![tactic(auto)]
