//! Calls that compute generations of a lattice with one particle, which moves a column at each.

use crate::probe::{Made, Probe, drifting_lattice, has_drifted_to, lent};
use arrayvec::ArrayVec;
use gas_geom::fhp1::Fhp1;
use gas_pipe::{Gate, Plan, RunError, replay, run};
use gas_rows::chirality::Chirality;
use gas_rows::lattice::Lattice;
use gas_tool::{Request, ToolError, coarse, perform};
use std::alloc::{AllocError, Global};
use std::sync::Wait;
use std::sync::atomic::{AtomicU64, Ordering};
use std::thread::Threads;

/// One particle to the east, at the end of a row of four cells.
pub const SCENE: &[u8] =
    b"gas = \"fhp1\"\nchirality = \"left\"\ncells = [\"........\", \"......01\", \"........\"]\n";

// Its cells after one generation.
const DRIFTED: &[u8] = b"generation 1 particles 1\n........\n01......\n........\n";

// The workers, up to the 64th, that entered and have not left, one a bit.
#[derive(Drop)]
struct Inside(AtomicU64);

impl Gate for Inside {
    fn enter(&self, who: u32) {
        self.0.fetch_or(1 << (who % 64), Ordering::SeqCst);
    }

    fn leave(&self, who: u32) {
        self.0.fetch_and(!(1 << (who % 64)), Ordering::SeqCst);
    }
}

fn table(alloc: Global, lattice: &Lattice<Fhp1>) -> Made {
    let blocks = coarse(alloc, lattice, 8, 8)?;
    Ok(blocks.len() == 1 && blocks[0].fluid == 21 && blocks[0].px == 2)
}

// Replays the feeder and one worker in turn, until both are done.
fn replay_turns(alloc: Global, lattice: &Lattice<Fhp1>) -> Made {
    let turns = [0, 1, 0, 1, 0, 1, 0, 1, 0, 1, 0, 1, 0, 1, 0, 1];
    let Ok(plan) = Plan::new(1, 1, 1) else {
        return Ok(false);
    };
    match replay(alloc, lattice, Chirality::Left, 0, plan, &turns) {
        Ok(replay) => Ok(
            replay
                .lattice()
                .is_some_and(|after| has_drifted_to(after, 1)),
        ),
        Err(RunError::Memory) => Err(AllocError),
        Err(_) => Ok(false),
    }
}

// The names of runs, the stages and the threads that they are on, the capacity and the generations.
const RUNS: [(&str, (u32, u32), u32, u64); 6] = [
    ("run_1", (1, 1), 1, 5),
    ("run_2", (2, 2), 1, 5),
    ("run_2_long", (2, 2), 1, 50),
    ("run_4", (4, 4), 2, 5),
    ("run_4_on_1", (4, 1), 2, 5),
    ("run_4_on_2", (4, 2), 2, 5),
];

// Runs the lattice by so many stages on so many threads.
fn run_drift<R: Threads + Wait + Sync>(
    threads: &R,
    alloc: Global,
    (stages, on): (u32, u32),
    capacity: u32,
    generations: u64,
) -> Made {
    let Ok(plan) = Plan::new(stages, capacity, generations).and_then(|plan| plan.on(on)) else {
        return Ok(false);
    };
    let lattice = drifting_lattice(alloc)?;
    let gate = Inside(AtomicU64::new(0));
    let made = match run(threads, alloc, &lattice, Chirality::Left, 0, plan, &gate) {
        Ok(run) => Ok(has_drifted_to(run.lattice(), (generations % 7) as u32)),
        Err(RunError::Memory) => Err(AllocError),
        Err(_) => Ok(false),
    };
    lent(
        made,
        has_drifted_to(&lattice, 0) && gate.0.load(Ordering::SeqCst) == 0,
    )
}

// Performs a run of that scene, which writes its cells, or not a byte.
fn perform_run<R: Threads + Wait + Sync>(threads: &R, alloc: Global) -> Made {
    let request = Request::Run {
        stages: 2,
        capacity: 1,
        generations: 1,
        threads: None,
    };
    let gate = Inside(AtomicU64::new(0));
    let mut page = ArrayVec::<u8, 64>::new();
    let made = match perform(threads, alloc, SCENE, &request, &gate, &mut page) {
        Ok(()) => Ok(page.as_slice() == DRIFTED),
        Err(fault) => refusal(&fault, page.len()),
    };
    lent(made, gate.0.load(Ordering::SeqCst) == 0)
}

// How a request ended that wrote so many bytes before its fault.
fn refusal(fault: &ToolError, written: usize) -> Made {
    match fault {
        ToolError::Memory if fault.status() == 3 && written == 0 => Err(AllocError),
        _ => Ok(false),
    }
}

pub fn make<R: Threads + Wait + Sync>(probe: &mut Probe, threads: &R) {
    probe.lend("coarse", table);
    probe.lend("replay", replay_turns);
    for (name, on, capacity, generations) in RUNS {
        probe.call(name, |alloc| {
            run_drift(threads, alloc, on, capacity, generations)
        });
    }
    probe.call("perform", |alloc| perform_run(threads, alloc));
}
