//! Scenes, a writer and requests that several tests use. These helpers promise nothing, because the
//! promises of reading a scene or a request are long. A test that makes the call itself carries
//! them through each of its paths.

use gas_pipe::NoGate;
use gas_tool::{Request, ToolError, parse_words, perform};
use std::alloc::{AllocError, Global};
use std::io;
use std::io::{ErrorKind, Write};
use std::process::Abort;
use std::sync::Wait;
use std::test::Fail;
use std::thread::Threads;

/// A scene of four columns and three rows, with one particle `01` at (3, 1).
pub(super) const DRIFT: &str =
    "gas = \"fhp1\"\nchirality = \"left\"\ncells = [\"........\", \"......01\", \"........\"]\n";

/// The cells of that scene after one generation, 52 bytes.
pub(super) const DRIFTED: &str = "generation 1 particles 1\n........\n01......\n........\n";

/// How a writer ends when its room is full.
#[derive(Clone, Copy, Debug, PartialEq, Eq)]
pub(super) enum End {
    /// Writing fails.
    Error,
    /// A write takes no byte.
    Zero,
    /// A write takes no byte, and flushing fails.
    Flush,
}

/// Takes at most `most` bytes per write, and `room` bytes in all. It counts its calls.
#[derive(Drop)]
pub(super) struct Narrow {
    taken: Vec<u8>,
    writes: usize,
    flushes: usize,
    most: usize,
    room: usize,
    end: End,
}

impl Narrow {
    pub(super) fn new(alloc: Global, most: usize, room: usize, end: End) -> Narrow {
        Narrow {
            taken: Vec::new(alloc),
            writes: 0,
            flushes: 0,
            most,
            room,
            end,
        }
    }

    /// Whether the writer was not called.
    pub(super) fn is_uncalled(&self) -> bool {
        self.writes == 0 && self.flushes == 0
    }
}

impl Write for Narrow {
    fn write(&mut self, buf: &[u8]) -> io::Result<usize> {
        self.writes = self.writes.wrapping_add(1);
        let left = self.room.saturating_sub(self.taken.len());
        if left == 0 && self.end == End::Error {
            return Err(io::Error::from(ErrorKind::BrokenPipe));
        }
        let count = buf.len().min(self.most).min(left);
        self.taken.extend_from_slice(&buf[..count])?;
        Ok(count)
    }

    fn flush(&mut self) -> io::Result<()> {
        self.flushes = self.flushes.wrapping_add(1);
        if self.end == End::Flush {
            return Err(io::Error::from(ErrorKind::BrokenPipe));
        }
        Ok(())
    }
}

/// Asserts that the writer got the part of the text that it has room for, and that the fault has
/// its length. Each write took a byte or was the last. If the writer got all, it was flushed once.
pub(super) fn assert_got(rt: &impl Abort, out: &Narrow, told: Option<u64>, text: &[u8]) {
    let room = out.room;
    let count = room.min(text.len());
    let is_short = count < text.len();
    let fails = is_short || out.end == End::Flush;
    assert!(rt; out.taken.iter().eq(text.iter().take(count)), "{room}");
    assert_eq!(rt;
        told,
        if fails { Some(count as u64) } else { None },
        "{room}"
    );
    assert!(rt;
        out.writes <= count.saturating_add(usize::from(is_short)),
        "{room}"
    );
    assert_eq!(rt; out.flushes, usize::from(!is_short), "{room}");
}

// The words of a line.
fn words_of<'a>(alloc: Global, line: &'a str) -> Result<Vec<&'a str>, AllocError> {
    let mut words = Vec::new(alloc);
    for word in line.split_whitespace() {
        words.push(word)?;
    }
    Ok(words)
}

/// The request of a line's words, or the exit status of the program.
pub(super) fn request_of(alloc: Global, line: &str) -> Result<Result<Request, u8>, AllocError> {
    let words = words_of(alloc, line)?;
    Ok(parse_words(alloc, words.as_slice()).map_err(|fault| fault.status()))
}

/// Performs the request of these words on the scene.
pub(super) fn perform_words<R: Abort + Threads + Wait + Sync>(
    rt: &R,
    alloc: Global,
    scene: &str,
    line: &str,
    out: &mut Narrow,
) -> Result<Result<(), ToolError>, Fail> {
    let words = words_of(alloc, line)?;
    let Ok(request) = parse_words(alloc, words.as_slice()) else {
        return Err(Fail::new("no request"));
    };
    Ok(perform(rt, alloc, scene.as_bytes(), &request, &NoGate, out))
}
