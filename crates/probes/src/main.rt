//! Makes calls of the crates one by one, for tests and benchmarks:
//!
//! - `probes CALL` makes one call that takes memory, and tells by its status how that ended: 0 with
//!   the usual answer, 3 if memory was refused and what the call was lent is as before, 1 in another
//!   way. It is run beside a library that refuses requests for memory.
//! - `probes every` makes each call in turn and prints how it ended.
//! - `probes key_stream ROWS` makes `ROWS` rows of 4096 words of a seed's key stream, and prints
//!   the last word.
#![tactic(auto)]

mod parts;
mod probe;
mod runs;
mod scenes;

use crate::probe::Probe;
use gas_rows::key::key_words;
use std::process::ExitCode;
use std::sync::Wait;
use std::thread::Threads;
use std::{env, io};

const WORDS: usize = 4096;

// Prints the last word of `rows` rows of 4096 words, under the seed 1.
fn print_word(rt: &HostRuntime, rows: u64) -> Option<()> {
    let mut words = [0u32; WORDS];
    for row in 0..u32::try_from(rows).ok()? {
        key_words(1, 0, u64::from(row) * WORDS as u64, &mut words);
    }
    println!(rt; "{}", words[WORDS - 1]).ok()
}

// Makes the calls of this name, or all of them.
fn calls<R: Threads + Wait + Sync>(rt: &HostRuntime, threads: &R, name: &str) -> u8 {
    let mut probe = Probe {
        rt,
        name,
        status: 1,
    };
    parts::make(&mut probe);
    runs::make(&mut probe, threads);
    scenes::make(&mut probe);
    probe.status
}

// The status of the words that the program is called with. It fails only if memory is refused.
fn status<R: Threads + Wait + Sync>(rt: &HostRuntime, threads: &R) -> io::Result<u8> {
    let mut words = env::args(rt)?;
    words.next();
    let Some(word) = words.next() else {
        return Ok(1);
    };
    if word.as_str() != "key_stream" {
        return Ok(calls(rt, threads, word.as_str()));
    }
    let rows = match words.next() {
        Some(number) => number.as_str().parse::<u64>().unwrap_or(0),
        None => 0,
    };
    Ok(u8::from(print_word(rt, rows).is_none()))
}

fn main(rt: HostRuntime) -> ExitCode {
    ExitCode::from(status(&rt, &rt).unwrap_or(3))
}
