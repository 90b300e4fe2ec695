//! The program `fhpgas`: words, a scene on standard input, the answer on standard output.
#![tactic(auto)]

mod terminal;

use crate::terminal::Terminal;
use gas_tool::{Fault, UsageFault, answer};
use std::os::unix::fs::{FileTypeExt, MetadataExt};
use std::process::ExitCode;
use std::rt::Files;
use std::{env, fs, thread};

// Whether this is a terminal, by its device's number. Linux's list of devices has consoles and
// serial lines under 4 and 5, and pseudo terminals under 136 to 143.
fn is_terminal<R: Files>(rt: &R, path: &str) -> bool {
    let Ok(metadata) = fs::metadata(rt, path) else {
        return false;
    };
    let device = metadata.rdev() >> 8 & 0xfff;
    metadata.file_type().is_char_device() && matches!(device, 4 | 5 | 136..=143)
}

// Prints a fault. The texts of help and usage have line feeds of their own. A failure to print is
// ignored.
fn tell<R: Print + Eprint>(rt: &R, fault: &Fault) {
    let _ = match fault {
        Fault::Usage(UsageFault::Help(text)) => print!(rt; "{text}"),
        Fault::Usage(UsageFault::Usage(text)) => eprint!(rt; "{text}"),
        _ => eprintln!(rt; "{fault}"),
    };
}

fn main(rt: HostRuntime) -> ExitCode {
    let words = env::args(&rt);
    let mut input = rt.reader();
    let prompts = is_terminal(&rt, "/proc/self/fd/0");
    let reports = is_terminal(&rt, "/proc/self/fd/2");
    let hints = thread::available_parallelism(&rt).is_ok_and(|count| count.get() > 1);
    let mut terminal = Terminal::new(&rt, prompts, reports, hints);
    let mut out = rt.stdout();
    match answer(&rt, rt.alloc(), words, &mut input, &mut terminal, &mut out) {
        Ok(()) => ExitCode::SUCCESS,
        Err(fault) => {
            tell(&rt, &fault);
            ExitCode::from(fault.status())
        }
    }
}
