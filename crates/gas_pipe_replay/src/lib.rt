//! A pass of the line on one thread, in which the members make given turns.
#![tactic(auto)]

mod local_line;
pub mod pass;

ghost use Rattle.std.specs.Prelude.{◌≡◌, ◌≤◌, ◌<◌, ◌+◌, ◌*◌, ◌^◌, ℕ, Err, IfOk, IsSome, ◌↔◌};
ghost use Rattle.std.specs.Int.{div_ceil};
ghost use Rattle.gas_geom.specs.Lattice.{count};
ghost use Rattle.gas_stage.specs.Evolution.{lattice_after};
ghost use Rattle.gas_pipe_model.specs.Line.{HasRounds};
ghost use Rattle.gas_pipe_replay.specs.Replay.{replay_of};

use crate::local_line::LocalLine;
use crate::pass::Replay;
use gas_geom::gas::Gas;
use gas_pipe_members::plan::{Plan, RunError, RunInput, Span};
use gas_rows::chirality::Chirality;
use gas_rows::lattice::Lattice;
use std::alloc::Global;

/// Makes one pass over a lattice of generation `first` on one thread, with a worker for each stage,
/// whatever threads the plan has. Each number in `turns` lets that member make a turn: 0 is the
/// feeder, k is worker k, and a number above the workers' is no member's. A plan that needs more
/// than one pass is refused.
pub fn replay<G: Gas>(
    alloc: Global,
    lattice: &Lattice<G>,
    chirality: Chirality,
    first: u64,
    plan: Plan,
    turns: &[u32],
) -> Result<Replay<G>, RunError>
    requires room { first + plan.generations < 2 ^ 64 }
    ensures more_passes { 1 < div_ceil plan.generations plan.stages ↔ result ≡ Err RunError.MorePasses }
    ensures state { IfOk result (λ r.
        r ≡ replay_of G.rules chirality first lattice.now plan turns.now) }
    ensures done { IfOk result (λ r.
        HasRounds plan.stages (2 * lattice.now.channel.height * (plan.stages + 1)) turns.now →
        IsSome r.lattice) }
    ensures number { IfOk result (λ _. (n : ℕ) → n ≤ plan.generations →
        count G.rules (lattice_after G.rules chirality first lattice.now n).rows
        ≡ count G.rules lattice.now.rows) }
{
    if plan.passes() > 1 {
        return Err(RunError::MorePasses);
    }
    if plan.generations() == 0 {
        return Ok(Replay::new(Some(lattice.copy(alloc)?), Vec::new(alloc)));
    }
    let input = RunInput {
        lattice,
        chirality,
        span: Span {
            first,
            plan: plan.with_thread_each(),
        },
    };
    let mut line = LocalLine::new(alloc, &input)?;
    line.run(turns);
    let belts = line.counts(alloc)?;
    Ok(Replay::new(line.finish(), belts))
}
