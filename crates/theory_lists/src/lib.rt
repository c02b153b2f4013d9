//! Laws of lists and of answers true and false: theory alone, no code.
//!
//! Start with `specs/Members.antt` (what stands in a list, each two of its items) and
//! `specs/OneOf.antt` (exactly one passes a test); `specs/Parity.antt` says what an odd number of
//! them is. `proofs/Lib.antt` lists the laws by topic. What std says of lists is cited from std.
#![tactic(auto)]
