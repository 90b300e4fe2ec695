//! Reading a whole input, up to a limit.

ghost use Rattle.std.specs.Prelude.{◌≡◌, ◌≢◌, ◌≤◌, ◌<◌, IfOk, IfSome, length, vec_len, IsErrOf};
ghost use Rattle.std.specs.Io.KnownBytes.{IsAtEnd};
ghost use Rattle.gas_tool_io.specs.declared.input.InputFault.TheVariants as fault;

use std::alloc::Global;
use std::io::Read;
use thiserror::Error;

/// Why an input was not read. Its `Display` text is the line that the program prints.
#[derive(Debug, Drop, Error)]
pub enum InputFault {
    #[error("memory refused")]
    Memory,
    #[error("input: read failed")]
    Read,
    #[error("input: too long")]
    TooLong,
}

impl InputFault {
    /// The exit status of the program: 3 for memory, 1 for a refused input.
    pub fn status(&self) -> u8
        ensures memory { self.now ≡ fault.Memory → result ≡ 3 }
        ensures refused { self.now ≢ fault.Memory → result ≡ 1 }
    {
        match self {
            InputFault::Memory => 3,
            InputFault::Read | InputFault::TooLong => 1,
        }
    }
}

/// The most bytes that an input may have: 64 MiB.
pub const LONGEST_INPUT: usize = 67_108_864;

const CHUNK: usize = 16_384;

/// Reads all bytes up to the end of `reader`. Each read except the last returns a byte or more, so
/// there are at most `LONGEST_INPUT + 1` reads. Only an input of more than `LONGEST_INPUT` bytes is
/// `TooLong`. That an error of the reader is `Read` is tested.
pub fn slurp<R: Read>(alloc: Global, reader: &mut R) -> Result<Vec<u8>, InputFault>
    ensures bytes { IfOk result (λ text.
        IfSome (R.remaining reader.old) (λ xs. text.items ≡ xs)) }
    ensures at_end { IfOk result (λ _. IsAtEnd (R.remaining reader.new)) }
    ensures short { IfOk result (λ text. vec_len text ≤ 67108864) }
    ensures too_long { IsErrOf result fault.TooLong →
        IfSome (R.remaining reader.old) (λ xs. 67108864 < length xs) }
{
    let mut text = Vec::new(alloc);
    let mut chunk = [0u8; CHUNK];
    for reads in 0..LONGEST_INPUT + 1 {
        let Ok(count) = reader.read(&mut chunk) else {
            return Err(InputFault::Read);
        };
        if count == 0 {
            return Ok(text);
        }
        if count > LONGEST_INPUT - text.len() {
            return Err(InputFault::TooLong);
        }
        if text.extend_from_slice(&chunk[..count]).is_err() {
            return Err(InputFault::Memory);
        }
    }
    unreachable!()
}
