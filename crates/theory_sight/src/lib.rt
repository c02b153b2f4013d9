//! What a ray sees: labels along a line through spaces, elements and ground, and the walk that is
//! read from them, stretch by stretch. Theory alone, no code.
//!
//! Start with `specs/Reading.antt`, the walk as a function of what a ray meets.
#![tactic(auto)]
