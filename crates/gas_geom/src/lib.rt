//! Lattice gases on a channel: directions, neighbours, collisions and the number law.
#![tactic(auto)]

pub mod examples;
pub mod fhp1;
pub mod fhp_rest;
pub mod gas;
pub mod hpp;
pub mod laws;
pub mod moves;
pub mod size;
pub mod word;
