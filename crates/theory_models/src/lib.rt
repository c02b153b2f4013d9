//! What follows from the definitions of models, walks and lists for every model: theory alone, no
//! code. What a ray with one or two labels meets, and what it takes for a list that is written out
//! to cover, to be trimmed and to be in order.
//!
//! Start with `proofs/PassagesOfRays.antt`: a ray has one list of passages.
#![tactic(auto)]
