//! The whole program: words, input and request in this order, and the status of each fault.

use super::helpers::{DRIFTED, End, Narrow, assert_got};
use super::input::{Given, scene};
use gas_pipe::NoGate;
use gas_scene::error::SceneError;
use gas_tool::{Fault, InputFault, ToolError, UsageFault, answer};
use std::alloc::Global;
use std::process::Abort;
use std::sync::Wait;
use std::test::Fail;
use std::thread::Threads;

// The program's end on the words of a line.
fn answer_line<R: Threads + Wait + Sync>(
    rt: &R,
    alloc: Global,
    line: &str,
    input: &mut Given<'_>,
    out: &mut Narrow,
) -> Result<Result<(), Fault>, Fail> {
    let mut words = Vec::new(alloc);
    for word in line.split_whitespace() {
        words.push(String::from_str(alloc, word)?)?;
    }
    Ok(answer(rt, alloc, Ok(words.into_iter()), input, &mut NoGate, out))
}

#[test]
fn answers(rt: HostRuntime) -> Result<(), Fail> {
    let (mut input, mut out) = (
        scene(usize::MAX),
        Narrow::new(rt.alloc(), 7, 1000, End::Error),
    );
    let ended = answer_line(
        &rt,
        rt.alloc(),
        "fhpgas run --generations 1",
        &mut input,
        &mut out,
    )?;
    assert!(rt; ended.is_ok());
    assert_got(&rt, &out, None, DRIFTED.as_bytes());
    Ok(())
}

// Asserts the status with which the program ends on a reader that fails at a read, and how many
// reads it makes. Nothing is written.
fn is_refused<R: Abort + Threads + Wait + Sync>(
    rt: &R,
    alloc: Global,
    line: &str,
    (fails_at, reads): (usize, usize),
    status: u8,
) -> Result<(), Fail> {
    let (mut input, mut out) = (scene(fails_at), Narrow::new(alloc, 7, 1000, End::Error));
    let Err(fault) = answer_line(rt, alloc, line, &mut input, &mut out)? else {
        return Err(Fail::new("an answer"));
    };
    assert_eq!(rt; fault.status(), status, "{line}");
    assert_eq!(rt; input.reads, reads, "{line}");
    assert!(rt; out.is_uncalled(), "{line}");
    Ok(())
}

// Words come before the input, and the input before the plan.
#[test]
fn refusals(rt: HostRuntime) -> Result<(), Fail> {
    for (line, reads, status) in [
        ("fhpgas --help", (1, 0), 0),
        ("fhpgas run", (1, 0), 2),
        ("fhpgas run --generations 1 --stages 0", (2, 2), 1),
        ("fhpgas run --generations 1 --stages 0", (usize::MAX, 78), 1),
    ] {
        is_refused(&rt, rt.alloc(), line, reads, status)?;
    }
    Ok(())
}

// The line and the status of each fault of refused memory.
#[test]
fn refused_memory(rt: HostRuntime) -> Result<(), Fail> {
    for fault in [
        Fault::Usage(UsageFault::Memory),
        Fault::Input(InputFault::Memory),
        Fault::Tool(ToolError::Memory),
        Fault::Tool(ToolError::Scene(SceneError::Memory)),
    ] {
        let line = format!(in rt.alloc(); "{fault}")?;
        assert_eq!(rt; line.as_str(), "memory refused");
        assert_eq!(rt; fault.status(), 3);
    }
    Ok(())
}
