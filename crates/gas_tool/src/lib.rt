//! The tool, for other programs: the command line, the input, requests and their answers, blocks of
//! a lattice, and the printed texts.
//!
//! `answer` does all that the program `fhpgas` does, from its words and its input to its output.
//! `perform` writes the answer to a request on the text of a scene. `parse_words` returns the
//! `Request` of a command line's words, and `slurp` reads an input. `coarse` returns the particles and
//! the momentum of a lattice by blocks of cells.
//!
//! The calls of the command line, of input and of printed texts are defined in `gas_tool_cli` and
//! `gas_tool_io`, and named here. `docs/PROVED.md` lists the promises in words, and
//! `example_columns` is a program that calls `slurp`.
#![tactic(auto)]

pub mod examples;
pub mod faults;
pub mod laws;
pub mod program;
mod requests;

pub use faults::{InputFault, ToolError, UsageFault, WriteFault};
pub use gas_blocks::blocks::{Block, coarse};
pub use gas_tool_cli::words::{Request, Turns, parse_words};
pub use gas_tool_io::input::{LONGEST_INPUT, slurp};
pub use gas_tool_io::replay::write_replay;
pub use gas_tool_io::text::{write_cells, write_summary, write_table};
pub use program::{Fault, Watch, answer};
pub use requests::{perform, resumed_runs};
