//! Whole requests, whose answers go to writers that take little, fail, or take nothing.

use super::helpers::{DRIFT, DRIFTED, End, Narrow, assert_got, perform_words};
use gas_tool::ToolError;
use std::alloc::Global;
use std::process::Abort;
use std::sync::Wait;
use std::test::Fail;
use std::thread::Threads;

const RUN: &str = "fhpgas run --generations 1 --stages 2 --capacity 1";

/// A scene of seven columns and three rows, with one particle `01` at (0, 1).
const ALONG_A_ROW: &str =
    "gas = \"fhp1\"\nchirality = \"left\"\nwidth = 7\nheight = 3\nparticles = [[0, 1, 1]]\n";

const COARSE: &str = "fhpgas coarse --generations 5 --block-width 8 --block-height 8 --capacity 1";

/// The table of its only block of at most eight columns and rows.
const TABLE: &str = "  col   row    fluid particles         px         py
    0     0       21         1          2          0
";

// Asserts that the writer gets as much of the answer as it has room for.
fn answers<R: Abort + Threads + Wait + Sync>(
    rt: &R,
    alloc: Global,
    (scene, words): (&str, &str),
    mut out: Narrow,
    answer: &str,
) -> Result<(), Fail> {
    let told = match perform_words(rt, alloc, scene, words, &mut out)? {
        Ok(()) => None,
        Err(ToolError::Write(written)) => Some(written),
        Err(_) => return Err(Fail::new("a refusal")),
    };
    assert_got(rt, &out, told, answer.as_bytes());
    Ok(())
}

// A writer that takes a byte at a time, and writers that fail or take nothing after each number of bytes,
// or that cannot be flushed.
#[test]
fn failing_writers(rt: HostRuntime) -> Result<(), Fail> {
    for (scene, words, answer) in [
        (DRIFT, RUN, DRIFTED),
        (ALONG_A_ROW, COARSE, TABLE),
        (
            DRIFT,
            "fhpgas check",
            "gas fhp1 width 4 height 3 solid 0 particles 1\n",
        ),
        (
            DRIFT,
            "fhpgas replay --generations 2 --stages 2",
            "not done\nbelt 0 put 0 taken 0\nbelt 1 put 0 taken 0\nbelt 2 put 0 taken 0\n",
        ),
    ] {
        let bytewise = Narrow::new(rt.alloc(), 1, 1000, End::Error);
        answers(&rt, rt.alloc(), (scene, words), bytewise, answer)?;
        for room in 0..answer.len() + 1 {
            for end in [End::Error, End::Zero, End::Flush] {
                let out = Narrow::new(rt.alloc(), 7, room, end);
                answers(&rt, rt.alloc(), (scene, words), out, answer)?;
            }
        }
    }
    Ok(())
}
