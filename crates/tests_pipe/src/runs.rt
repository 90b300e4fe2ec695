//! Runs by threads: the stages that enter and leave.

use gas_geom::fhp1::Fhp1;
use gas_geom::size::Size;
use gas_pipe::{Gate, Plan, run};
use gas_rows::channel::Channel;
use gas_rows::chirality::Chirality;
use gas_rows::lattice::Lattice;
use std::alloc::Global;
use std::process::Abort;
use std::sync::Wait;
use std::sync::atomic::{AtomicU64, Ordering};
use std::test::Fail;
use std::thread::Threads;

// The helpers promise nothing and give no run, so that no test carries the promises of `run`.

// An empty lattice of this size.
fn empty(alloc: Global, width: u32, height: u32) -> Result<Lattice<Fhp1>, Fail> {
    let size = Size::new(width, height).ok_or("a size")?;
    Ok(Lattice::blank(alloc, Channel::free(alloc, size)?)?)
}

/// Runs an empty lattice through a gate. Returns the number of passes.
pub(super) fn run_empty<R: Threads + Wait + Sync, T: Gate + Sync>(
    rt: &R,
    alloc: Global,
    (width, height): (u32, u32),
    plan: Plan,
    gate: &T,
) -> Result<u64, Fail> {
    let lattice = empty(alloc, width, height)?;
    let done = run(rt, alloc, &lattice, Chirality::Left, 0, plan, gate)?;
    Ok(done.passes())
}

// Adds up who entered, who left, and how often those who left had entered by then: stage k counts
// 256^(k - 1), for up to 4 stages.
#[derive(Drop)]
struct Counts {
    entered: AtomicU64,
    left: AtomicU64,
    entered_before: AtomicU64,
}

impl Counts {
    fn new() -> Counts {
        Counts {
            entered: AtomicU64::new(0),
            left: AtomicU64::new(0),
            entered_before: AtomicU64::new(0),
        }
    }

    fn are(&self, rt: &impl Abort, entered: u64, left: u64) {
        assert!(rt; self.entered.load(Ordering::SeqCst) == entered);
        assert!(rt; self.left.load(Ordering::SeqCst) == left);
        assert!(rt; self.entered_before.load(Ordering::SeqCst) == entered);
    }
}

fn place(who: u32) -> u64 {
    match who {
        1 => 1,
        2 => 0x100,
        3 => 0x1_0000,
        4 => 0x100_0000,
        _ => 0x1_0000_0000,
    }
}

impl Gate for Counts {
    fn enter(&self, who: u32) {
        self.entered.fetch_add(place(who), Ordering::SeqCst);
    }

    fn leave(&self, who: u32) {
        let place = place(who);
        let entered = self.entered.load(Ordering::SeqCst) & place.wrapping_mul(0xff);
        self.left.fetch_add(place, Ordering::SeqCst);
        self.entered_before.fetch_add(entered, Ordering::SeqCst);
    }
}

// Asserts how often the stages of a run of five generations enter and leave, the latter once and
// after all passes, on any number of threads.
fn counts_are<R: Abort + Threads + Wait + Sync>(
    rt: &R,
    alloc: Global,
    stages: u32,
    entered: u64,
    left: u64,
) -> Result<(), Fail> {
    for threads in 1..=stages {
        let gate = Counts::new();
        let plan = Plan::new(stages, 2, 5)?.on(threads)?;
        run_empty(rt, alloc, (5, 4), plan, &gate)?;
        gate.are(rt, entered, left);
    }
    Ok(())
}

#[test]
fn each_stage_enters_each_pass_and_leaves_at_last(rt: HostRuntime) -> Result<(), Fail> {
    counts_are(&rt, rt.alloc(), 1, 0x5, 0x1)?;
    counts_are(&rt, rt.alloc(), 2, 0x303, 0x101)?;
    counts_are(&rt, rt.alloc(), 4, 0x202_0202, 0x101_0101)
}
