//! Worked rows of shapes: what is at fault with them, whatever product has them, and their prisms in frames.
//!
//! They stand above `sb_prism`, so that it is not proved again for them.
#![tactic(auto)]

#[cfg(test)]
mod asked;
#[cfg(test)]
mod prisms;
#[cfg(test)]
mod shapes;
#[cfg(test)]
mod turns;
