//! The engine over memory that the caller gives, for C and for all that can call C: a static library.
//! `include/fhpgas.h` says what each call means. Nothing here takes memory.
#![tactic(auto)]

mod bytes;
pub mod calls;
mod draw;
mod rows;
mod step;
mod sums;
