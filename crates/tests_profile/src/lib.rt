//! Worked rows of what is read of a file, and of its first defects.
//!
//! They stand above `sb_profile`, so that it is not proved again for them.
#![tactic(auto)]

#[cfg(test)]
mod asked;
#[cfg(test)]
mod chains;
#[cfg(test)]
mod heads;
#[cfg(test)]
mod products;
#[cfg(test)]
mod relations;
#[cfg(test)]
mod shapes;
