//! The whole program as one call: from its words and its input to its output and its exit status.

ghost use Rattle.std.specs.Prelude.{◌≡◌};
ghost use Rattle.gas_tool.specs.Program.{Ends, exit_status};

use crate::faults::{InputFault, ToolError, UsageFault};
use crate::requests::perform;
use gas_pipe::{Gate, NoGate};
use gas_tool_cli::words::{Request, read_request};
use gas_tool_io::input::slurp;
use std::alloc::Global;
use std::env::Args;
use std::io;
use std::io::{Read, Write};
use std::sync::Wait;
use std::thread::Threads;
use thiserror::Error;

/// Why there is no whole answer. Its `Display` text is the line that the program prints, or the
/// text of help or usage.
#[derive(Debug, Drop, Error)]
pub enum Fault {
    #[error(transparent)]
    Usage(UsageFault),
    #[error(transparent)]
    Input(InputFault),
    #[error(transparent)]
    Tool(ToolError),
}

impl Fault {
    /// The exit status of the program: 0 for help, 1 if scene, plan or input were refused, 2 for
    /// wrong usage, 3 for memory, 4 for a writer that failed.
    pub fn status(&self) -> u8
        ensures status { result ≡ exit_status self.now }
    {
        match self {
            Fault::Usage(fault) => fault.status(),
            Fault::Input(fault) => fault.status(),
            Fault::Tool(fault) => fault.status(),
        }
    }
}

/// Watches the program: what it asks for, and as a gate its stages.
pub trait Watch: Gate {
    /// The words are read, and the input comes next.
    fn before_input(&mut self);

    /// The input is read, and the request is performed next.
    fn before_request(&mut self, request: &Request);
}

impl Watch for NoGate {
    fn before_input(&mut self) {}

    fn before_request(&mut self, _request: &Request) {}
}

/// All that the program does: reads the words that `env::args` returned, then the whole input, and
/// writes the answer to the words' request on the input's scene. Nothing is read if the words are no
/// request, and nothing is written before the answer is whole.
pub fn answer<I: Read, W: Write, S: Watch + Sync, R: Threads + Wait + Sync>(
    rt: &R,
    alloc: Global,
    words: io::Result<Args>,
    input: &mut I,
    watch: &mut S,
    out: &mut W,
) -> Result<(), Fault>
    ensures ends { Ends words (I.remaining input.old) (I.remaining input.new)
        (W.contents out.old) (W.contents out.new) result }
{
    let request = read_request(alloc, words).map_err(Fault::Usage)?;
    watch.before_input();
    let text = slurp(alloc, input).map_err(Fault::Input)?;
    watch.before_request(&request);
    perform(rt, alloc, text.as_slice(), &request, watch, out).map_err(Fault::Tool)
}
