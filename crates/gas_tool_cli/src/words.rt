//! The words of the command line: what they ask for, or why they are no request.

ghost use Rattle.std.specs.Prelude.{◌≡◌, [], ◌∷◌, IfOk, IfErr, String, map};
ghost use Rattle.std.specs.Global.{Global};
ghost use Rattle.std.specs.String.{string_bytes};
ghost use Rattle.std.specs.Vec.Iter.{into_iter_items};
ghost use Rattle.clap.specs.declared.error.kind.ErrorKind.TheVariants.{InvalidValue};
ghost use Rattle.clap.specs.Words.{fault_of, kind_of, subcommand_of};
ghost use Rattle.gas_tool_cli.specs.Words.{program_app};
ghost use Rattle.gas_tool_cli.specs.Requests.{AskFor, HaveFault, IsAllowed, IsFaultOf, IsRequestOf};
ghost use Rattle.gas_tool_cli.specs.Inner.{TellsKind};
ghost use Rattle.gas_tool_cli.specs.declared.words.UsageFault.TheVariants as fault;

use crate::command::program_command;
use crate::matches::request_of;
use clap::error::ErrorKind;
use std::alloc::{AllocError, Global};
use std::env::Args;
use std::io;
use std::marker::Model;
use thiserror::Error;

/// A schedule of a line: the members that take a step, one after another. 0 is the feeder, and k is
/// worker k.
#[derive(Debug, Drop)]
pub struct Turns {
    list: Vec<u32>,
}

impl Model for Turns {
    ghost use Rattle.std.specs.Prelude.{ℕ, List};

    ghost Value = { List ℕ };

    ghost view = { λ t. t.list.items };
}

impl Turns {
    /// The schedule of these turns.
    pub fn new(list: Vec<u32>) -> Turns
        ensures value { result ≡ list.items }
    {
        Turns { list }
    }

    /// The turns in order.
    pub fn as_slice(&self) -> &[u32]
        ensures value { result.now ≡ self.now }
    {
        self.list.as_slice()
    }
}

/// What the words of the command line ask for. Only the plan checks the limits of stages, capacity,
/// generations and threads. Without `threads` each stage has a thread of its own.
#[derive(Debug, Drop)]
pub enum Request {
    /// Read the scene and print a summary of one line.
    Check,
    /// Compute generations and print the cells.
    Run {
        stages: u32,
        capacity: u32,
        generations: u64,
        threads: Option<u32>,
    },
    /// Compute generations and print a table of the lattice's blocks, `block_width` columns wide
    /// and `block_height` rows high.
    Coarse {
        stages: u32,
        capacity: u32,
        generations: u64,
        threads: Option<u32>,
        block_width: u32,
        block_height: u32,
    },
    /// Let the members of a line make these turns, in one pass on one thread, and print the state of
    /// the pass.
    Replay {
        stages: u32,
        capacity: u32,
        generations: u64,
        turns: Turns,
    },
}

/// Why the words are no request. `Usage` and `Help` contain the text to print. The version is a `Help`
/// too.
#[derive(Debug, Drop, Error)]
pub enum UsageFault {
    #[error("memory refused")]
    Memory,
    #[error("{0}")]
    Usage(String),
    #[error("{0}")]
    Help(String),
}

impl UsageFault {
    /// The exit status of the program: 2 for usage, 3 for memory, 0 for help.
    pub fn status(&self) -> u8
        ensures memory { self.now ≡ fault.Memory → result ≡ 3 }
        ensures usage { (text : String Global) → self.now ≡ fault.Usage text → result ≡ 2 }
        ensures help { (text : String Global) → self.now ≡ fault.Help text → result ≡ 0 }
    {
        match self {
            UsageFault::Memory => 3,
            UsageFault::Usage(_) => 2,
            UsageFault::Help(_) => 0,
        }
    }
}

// The fault of a failed parse.
fn usage_of(alloc: Global, error: clap::Error) -> UsageFault
    ensures { TellsKind (kind_of error) result }
{
    match (error.kind(), error.to_string(alloc)) {
        (ErrorKind::OutOfMemory, _) | (_, Err(_)) => UsageFault::Memory,
        (ErrorKind::DisplayHelp | ErrorKind::DisplayVersion, Ok(text)) => UsageFault::Help(text),
        (_, Ok(text)) => UsageFault::Usage(text),
    }
}

/// The request of the words, the program's name first. The fault is `Help` only if the words ask
/// for help or the version, `Usage` only if they are wrong, and `Memory` for any words.
pub fn parse_words<'a>(alloc: Global, words: &'a [&'a str]) -> Result<Request, UsageFault>
    ensures fault { IfErr result (IsFaultOf
        (fault_of program_app (map (λ s. s.now) words.entry.now))) }
    ensures allowed { IfOk result IsAllowed }
    ensures request { IfOk result (IsRequestOf
        (subcommand_of program_app (map (λ s. s.now) words.entry.now))) }
{
    let Ok(command) = program_command(alloc) else {
        return Err(UsageFault::Memory);
    };
    match command.try_get_matches_from(words) {
        Ok(matches) => match request_of(alloc, &matches) {
            Ok(Some(request)) => Ok(request),
            // `clap` returns no matches without a request, but that is not proved.
            Ok(None) | Err(_) => Err(UsageFault::Memory),
        },
        Err(error) => Err(usage_of(alloc, error)),
    }
}

/// The request of all words that `env::args` returned, in their order. If it returned an error, as
/// for a word that is not UTF-8, the fault is `Usage` or `Memory`.
pub fn read_request(alloc: Global, words: io::Result<Args>) -> Result<Request, UsageFault>
    ensures allowed { IfOk result IsAllowed }
    ensures request { IfOk result (AskFor words) }
    ensures fault { IfErr result (HaveFault words) }
{
    match words {
        Ok(words) => parse_args(alloc, words),
        Err(error) if error.kind() == io::ErrorKind::InvalidData => Err(not_utf8(alloc)),
        Err(_) => Err(UsageFault::Memory),
    }
}

fn not_utf8(alloc: Global) -> UsageFault
    ensures { IsFaultOf (InvalidValue ∷ []) result }
{
    match String::from_str(alloc, "error: a word is not UTF-8\n") {
        Ok(text) => UsageFault::Usage(text),
        Err(_) => UsageFault::Memory,
    }
}

fn parse_args(alloc: Global, words: Args) -> Result<Request, UsageFault>
    ensures allowed { IfOk result IsAllowed }
    ensures request { IfOk result (IsRequestOf
        (subcommand_of program_app (map string_bytes (into_iter_items words)))) }
    ensures fault { IfErr result (IsFaultOf
        (fault_of program_app (map string_bytes (into_iter_items words)))) }
{
    let Ok(words) = words.collect::<Vec<String>>(alloc) else {
        return Err(UsageFault::Memory);
    };
    match texts(alloc, words.as_slice()) {
        Ok(texts) => parse_words(alloc, texts.as_slice()),
        Err(_) => Err(UsageFault::Memory),
    }
}

// The words as texts.
fn texts<'a>(alloc: Global, words: &'a [String]) -> Result<Vec<&'a str>, AllocError>
    ensures { IfOk result (λ texts.
        map (λ s. s.now) texts.items ≡ map string_bytes words.entry.now) }
{
    words.iter().map(|word| word.as_str()).collect(alloc)
}
