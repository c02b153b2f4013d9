//! Laws of whole numbers, of plane vectors and of rational numbers: theory alone, no code.
//!
//! Start with `specs/Arrows.antt` and `specs/Rationals.antt`, which say what a plane vector and a
//! rational number are; `proofs/Lib.antt` lists the laws by topic, and `docs/proving.md` shows how
//! to use them.
#![tactic(auto)]
