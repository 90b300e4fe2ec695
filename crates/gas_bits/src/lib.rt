//! Words of 64 cells, a bit for each cell: single words, a plane of them for a row, and the planes
//! of all directions of a gas. Nothing here knows rows or masks as values.
#![tactic(auto)]

pub mod plane;
pub mod planes;
pub mod states;
pub mod stream;
pub mod word;
