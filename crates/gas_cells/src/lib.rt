//! The text of cells, two characters each: writing and reading them.
#![tactic(auto)]

pub mod cells;
pub mod reading;
