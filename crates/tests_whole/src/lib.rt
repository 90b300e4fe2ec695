//! Tests that cross crates.
#![tactic(auto)]

#[cfg(test)]
mod helpers;
#[cfg(test)]
mod lines;
#[cfg(test)]
mod reference;
#[cfg(test)]
mod threads;
