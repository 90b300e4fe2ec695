//! The command line: its words, and the request that they make.
#![tactic(auto)]

mod command;
pub mod examples;
mod help;
pub mod laws;
mod matches;
pub mod words;
