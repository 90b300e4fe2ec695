//! Printing in chunks, with the exact count of the bytes that went out.

ghost use Rattle.std.specs.Prelude.{◌≡◌, ◌≤◌, ℕ, List, [], length, take, false, Option, IfSome};
ghost use Rattle.std.specs.Io.KnownBytes.{Appends};
ghost use Rattle.std.specs.Fmt.{with_newline};
ghost use Rattle.gas_tool_io.specs.Output.{Writes};
ghost use Rattle.gas_tool_io.specs.Inner.Sink.{HasSent, Adds};

use crate::text::WriteFault;
use arrayvec::{ArrayString, ArrayVec};
use std::fmt::{Display, Write as _};
use std::io::Write;
use std::marker::Model;

// The most bytes that a sink collects before it hands them to its writer.
const CHUNK: usize = 8192;

// The most bytes of a line that `put_line` prints.
const LINE: usize = 128;

/// Collects a text in chunks, hands each full chunk to a writer, and counts the bytes that went
/// out. After a failure nothing more goes out.
#[derive(Drop)]
pub(crate) struct Sink {
    chunk: ArrayVec<u8, CHUNK>,
    written: u64,
    failed: bool,
}

impl Model for Sink {
    ghost use Rattle.gas_tool_io.specs.Inner.Sink.{SinkModel};

    ghost Value = { SinkModel };

    ghost view = { λ s. record {
      waiting = s.chunk.items;
      written = s.written;
      failed = s.failed;
    } };
}

impl Sink {
    pub(crate) fn new() -> Sink
        ensures empty { (start : Option (List ℕ)) → HasSent start start result [] }
        ensures fresh { result.failed ≡ false }
    {
        Sink {
            chunk: ArrayVec::new(),
            written: 0,
            failed: false,
        }
    }

    /// Adds bytes to the text, at most a chunk of 8192.
    #[inline]
    pub(crate) fn push<W: Write>(&mut self, out: &mut W, bytes: &[u8])
        requires short { length bytes.now ≤ 8192 }
        ensures { Adds (W.contents out.old) (W.contents out.new) self.old self.new bytes.now }
    {
        if self.chunk.remaining_capacity() < bytes.len() {
            self.hand_over(out);
        }
        // There is room now.
        let _ = self.chunk.try_extend_from_slice(bytes);
    }

    // Hands the chunk to the writer and empties it. If the count could pass `u64::MAX`, this fails
    // before a byte of the chunk goes out.
    fn hand_over<W: Write>(&mut self, out: &mut W)
        ensures adds { Adds (W.contents out.old) (W.contents out.new) self.old self.new [] }
        ensures empty { self.new.waiting ≡ [] }
    {
        if self.failed || u64::MAX - self.written < CHUNK as u64 {
            self.failed = true;
        } else {
            let sent = send(out, self.chunk.as_slice());
            self.failed = sent < self.chunk.len();
            self.written += sent as u64;
        }
        self.chunk.clear();
    }

    /// Marks the text as failed from here on.
    pub(crate) fn fail(&mut self)
        ensures { (now : Option (List ℕ)) (bytes : List ℕ) →
            Adds now now self.old self.new bytes }
    {
        self.failed = true;
    }

    /// Hands over the last chunk and flushes the writer once. A failed flush is a fault after the
    /// whole text.
    pub(crate) fn finish<W: Write>(mut self, out: &mut W) -> Result<(), WriteFault>
        ensures { (start : Option (List ℕ)) (text : List ℕ) →
            HasSent start (W.contents out.old) self text →
            Writes start (W.contents out.new) text result }
    {
        self.hand_over(out);
        if self.failed || out.flush().is_err() {
            return Err(WriteFault {
                written: self.written,
            });
        }
        Ok(())
    }
}

// Writes bytes until all went out or the writer fails. Returns how many went out.
fn send<W: Write>(out: &mut W, bytes: &[u8]) -> usize
    ensures within { result ≤ length bytes.now }
    ensures sent { Appends (W.contents out.old) (W.contents out.new) (take result bytes.now) }
{
    let mut sent = 0;
    while sent < bytes.len() {
        match out.write(&bytes[sent..]) {
            Ok(count) if count > 0 => sent += count,
            _ => return sent,
        }
    }
    sent
}

/// Adds a line. A line longer than `LINE` counts as failed. Only a long name of a gas makes one.
pub(crate) fn put_line<W: Write, D: Display + Drop>(sink: &mut Sink, out: &mut W, line: D)
    ensures { IfSome (with_newline (D.output line))
        (Adds (W.contents out.old) (W.contents out.new) sink.old sink.new) }
{
    let mut text = ArrayString::<LINE>::new();
    match text.writeln(line) {
        Ok(()) => sink.push(out, text.as_str().as_bytes()),
        Err(_) => sink.fail(),
    }
}
