//! The line of workers, for other programs: plans, runs by threads, a pass turn by turn, and the
//! members of the line over any ends of belts.
//!
//! Each stage of a run computes one generation from another. A worker has one stage or several, one
//! behind another, and a thread. Rows go from worker to worker over belts. What a run gives depends
//! neither on the number of stages or threads nor on the room on a belt.
//!
//! Runs are defined here. The other items are named here, and promise what the contracts in their
//! own crates say. The functions of `pass` do nothing: their contracts are the laws of a pass, for
//! every schedule of its members. `docs/PROVED.md` says it in words, and `example_columns` is
//! a program that calls `run`.
#![tactic(auto)]

pub mod backoff;
mod crew;
mod finished;
mod job;
mod line;
mod line_worker;
mod share;
mod waiter;
pub mod wake_ups;

ghost use Rattle.std.specs.Prelude.{◌≡◌, ◌+◌, ◌-◌, ◌*◌, ◌≤◌, ◌<◌, ◌^◌, ◌∷◌, ◌++◌, ℕ, List, [], length, map, take, drop, IfOk, IfErr};
ghost use Rattle.std.specs.Int.{div_ceil};
ghost use Rattle.gas_geom.specs.Lattice.{count};
ghost use Rattle.gas_belt.specs.Belt.{CarriedModel};
ghost use Rattle.gas_stage.specs.Evolution.{lattice_after};
ghost use Rattle.gas_pipe_model.specs.Pass.{carried_by_belts};

use crate::line::run_line;
pub use finished::Run;
use gas_geom::gas::Gas;
pub use gas_pipe_members::ends::{PutEnd, TakeEnd, Turned};
pub use gas_pipe_members::feeder::Feeder;
pub use gas_pipe_members::plain_belt::PlainBelt;
pub use gas_pipe_members::plan::{Plan, PlanError, RunError};
use gas_pipe_members::plan::{RunInput, Span};
pub use gas_pipe_members::worker::Worker;
pub use gas_pipe_model::pass;
pub use gas_pipe_replay::pass::{Counts, Replay};
pub use gas_pipe_replay::replay;
use gas_rows::chirality::Chirality;
use gas_rows::lattice::Lattice;
use std::alloc::Global;
use std::sync::Wait;
use std::thread::Threads;

/// A gate that each stage enters and leaves. It may wait. With fewer threads than stages, a gate in
/// which one stage waits for another of its thread, or for one that wants a row of its thread, waits for
/// ever.
pub trait Gate {
    /// Called for stage `who`, counted from 1, on the thread of its worker, once before the worker's
    /// first turn of each pass.
    fn enter(&self, who: u32);

    /// Called for stage `who` once, among the last acts of its thread, even if it stops early.
    fn leave(&self, who: u32);
}

/// No gate.
#[derive(Clone, Copy)]
pub struct NoGate;

impl Gate for NoGate {
    fn enter(&self, _who: u32) {}

    fn leave(&self, _who: u32) {}
}

/// Advances a lattice of generation `first` by the generations of a plan. It blocks until all passes
/// are over. It makes a worker for each of the plan's threads and the belts between them, starts the
/// threads, makes the feeder's turns on the caller's thread, and joins all threads. The stages are shared
/// out evenly to the workers, in their order. With fewer threads than stages the first worker is on the
/// caller's thread too. Each stage enters the gate before each of its passes, and leaves it at the end of
/// its thread. The rows of a pass follow the rows of the pass before on the same belts. Each belt carries
/// one list of rows: all that was put on it and all that was taken from it. `Memory` if a request for
/// memory, or the start of a thread, was refused. Tests show that memory is taken only before the last
/// start of a thread and after the first join.
pub fn run<G: Gas + Send, H: Gate + Sync, R: Threads + Wait + Sync>(
    rt: &R,
    alloc: Global,
    lattice: &Lattice<G>,
    chirality: Chirality,
    first: u64,
    plan: Plan,
    gate: &H,
) -> Result<Run<G>, RunError>
    requires room { first + plan.generations < 2 ^ 64 }
    ensures put { IfOk result (λ r. map (λ b. b.put) r.belts ≡ carried_by_belts G.rules
        (record { chirality = chirality; first = first; lattice = lattice.now; plan = plan })) }
    ensures taken { IfOk result (λ r. map (λ b. b.taken) r.belts ≡ carried_by_belts G.rules
        (record { chirality = chirality; first = first; lattice = lattice.now; plan = plan })) }
    ensures rows_return { IfOk result (λ r.
        (first_belt last_belt : CarriedModel) (between : List CarriedModel) →
        r.belts ≡ first_belt ∷ (between ++ last_belt ∷ []) →
        take ((r.passes - 1) * lattice.now.channel.height) last_belt.taken
        ≡ drop lattice.now.channel.height first_belt.put) }
    ensures belts_made { 0 < plan.generations → IfOk result (λ r. length r.belts ≡ r.threads + 1) }
    ensures a_thread_each { plan.threads ≡ plan.stages → IfOk result (λ r. r.threads ≡ r.stages) }
    ensures threads { IfOk result (λ r. r.threads ≡ plan.threads) }
    ensures lattice { IfOk result (λ r.
        r.lattice ≡ lattice_after G.rules chirality first lattice.now plan.generations) }
    ensures number { IfOk result (λ _. (n : ℕ) → n ≤ plan.generations →
        count G.rules (lattice_after G.rules chirality first lattice.now n).rows
        ≡ count G.rules lattice.now.rows) }
    ensures stages { IfOk result (λ r. r.stages ≡ plan.stages) }
    ensures passes { IfOk result (λ r. r.passes ≡ div_ceil plan.generations plan.stages) }
    ensures no_generation { plan.generations ≡ 0 →
        IfOk result (λ r. (r.lattice ≡ lattice.now) × (r.belts ≡ [])) }
    ensures refused { IfErr result (λ e. e ≡ RunError.Memory) }
{
    let mut feeder = Feeder::new(alloc, lattice)?;
    if plan.generations() == 0 {
        return Ok(Run {
            lattice: feeder.finish(),
            plan,
            belts: Vec::new(alloc),
        });
    }
    feeder.begin_ring(plan.passes());
    let input = RunInput {
        lattice,
        chirality,
        span: Span { first, plan },
    };
    Ok(run_line(rt, alloc, gate, &input, feeder)?)
}
