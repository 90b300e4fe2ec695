//! Reading the whole input, and how often it reads.

use super::helpers::DRIFT;
use gas_tool::slurp;
use std::alloc::Global;
use std::io;
use std::io::{ErrorKind, Read};
use std::process::Abort;
use std::test::Fail;

/// A reader of `left` bytes, at most `most` per read: first a text, then the old bytes of the buffer.
/// It counts its reads, and read number `fails_at` fails.
#[derive(Drop)]
pub(super) struct Given<'a> {
    text: &'a [u8],
    left: usize,
    most: usize,
    pub(super) reads: usize,
    fails_at: usize,
}

impl Read for Given<'_> {
    fn read(&mut self, buf: &mut [u8]) -> io::Result<usize> {
        self.reads = self.reads.wrapping_add(1);
        if self.reads == self.fails_at {
            return Err(io::Error::from(ErrorKind::Other));
        }
        let count = buf.len().min(self.most).min(self.left);
        let (now, later) = self.text.split_at(count.min(self.text.len()));
        buf[..now.len()].copy_from_slice(now);
        self.text = later;
        self.left -= count;
        Ok(count)
    }
}

/// A reader of the scene, a byte per read.
pub(super) fn scene(fails_at: usize) -> Given<'static> {
    let text = DRIFT.as_bytes();
    Given {
        text,
        left: text.len(),
        most: 1,
        reads: 0,
        fails_at,
    }
}

// The number of bytes that `slurp` reads, or the fault's line.
fn answer(alloc: Global, reader: &mut Given<'_>) -> Result<String, Fail> {
    Ok(match slurp(alloc, reader) {
        Ok(text) => format!(in alloc; "{count} bytes", count = text.len())?,
        Err(fault) => format!(in alloc; "{fault}")?,
    })
}

// Asserts what `slurp` returns for a reader of `left` bytes, `most` per read, and that it makes at
// most 67,108,865 reads.
fn answers(
    rt: &impl Abort,
    alloc: Global,
    left: usize,
    most: usize,
    wanted: &str,
) -> Result<(), Fail> {
    let mut reader = Given {
        text: &[],
        left,
        most,
        reads: 0,
        fails_at: usize::MAX,
    };
    let answer = answer(alloc, &mut reader)?;
    assert_eq!(rt; answer.as_str(), wanted, "{left} {most}");
    assert!(rt; reader.reads <= 67_108_865, "{left} {most}");
    Ok(())
}

#[test]
fn longest_input(rt: HostRuntime) -> Result<(), Fail> {
    for most in [1, usize::MAX] {
        for (left, wanted) in [
            (67_108_864, "67108864 bytes"),
            (67_108_865, "input: too long"),
            (usize::MAX, "input: too long"),
        ] {
            answers(&rt, rt.alloc(), left, most, wanted)?;
        }
    }
    Ok(())
}
