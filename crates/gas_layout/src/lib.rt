//! Lattices laid out from numbers: rectangles drawn into a channel, filling, and placements.
#![tactic(auto)]

pub mod area;
pub mod drawing;
pub mod filling;
