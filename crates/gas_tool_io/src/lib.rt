//! The bytes that come in and the texts that go out.
#![tactic(auto)]

pub mod input;
mod output;
pub mod replay;
pub mod text;
