//! Worked rows of frames: where products stand by their chains of placements.
//!
//! They stand above `sb_place`, so that it is not proved again for them.
#![tactic(auto)]

#[cfg(test)]
mod asked;
#[cfg(test)]
mod chains;
#[cfg(test)]
mod kept;
#[cfg(test)]
mod positions;
