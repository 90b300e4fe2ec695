//! Tests of the gases' tables, of rows, random bits, and cells as text on worked examples.
#![tactic(auto)]

#[cfg(test)]
mod cells;
#[cfg(test)]
mod collisions;
#[cfg(test)]
mod directions;
#[cfg(test)]
mod random_bits;
#[cfg(test)]
mod rows;
