//! Sums over blocks of cells: one count of bits for the lattices of `gas_rows`, and for any others whose
//! rows are words.
#![tactic(auto)]

pub mod blocks;
pub mod rows;
