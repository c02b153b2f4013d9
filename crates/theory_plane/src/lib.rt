//! Sides of patches as lines of one kind, and the one way in which two sides are compared: theory
//! alone, no code.
//!
//! Start with `specs/Sides.antt`: a side is a line with a positive first part, a height is the line
//! of direction (1, 0), and the clearance of one side over another is a linear form.
#![tactic(auto)]
