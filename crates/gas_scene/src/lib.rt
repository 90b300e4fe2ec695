//! Scenes: a TOML text read as a lattice, the chirality of its collisions, and its generation.
#![tactic(auto)]

mod area_form;
pub mod catalog;
pub mod checkpoint;
pub mod error;
mod map_form;
pub mod scene;
mod scene_table;
mod toml_values;

pub use crate::catalog::AnyLattice;
