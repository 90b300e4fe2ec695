//! Rows, masks, channels and lattices, the random bits of a row, its collision and its streaming.
#![tactic(auto)]

pub mod channel;
pub mod chirality;
pub mod collision;
pub mod key;
pub mod lattice;
pub mod mask;
pub mod row;
pub mod stream;
