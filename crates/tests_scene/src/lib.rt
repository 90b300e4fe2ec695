//! Tests of texts that are scenes, and of lattices written as scenes.
#![tactic(auto)]

#[cfg(test)]
mod checkpoints;
#[cfg(test)]
mod helpers;
#[cfg(test)]
mod scenes;
