//! Streaming, and a stage that computes the next lattice row by row.
#![tactic(auto)]

pub mod evolution;
pub mod reversal;
pub mod stage;
pub mod stages;
pub mod stream;
