//! The line, defined only by the histories of its belts: the laws of a pass of a plan over a
//! lattice, for every list of turns, and of all its passes.
#![tactic(auto)]

pub mod pass;
