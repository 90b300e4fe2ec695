//! The members and belts of a line on one thread.
ghost use Rattle.std.specs.Prelude.{◌≡◌, ℕ, ◌+◌, ◌*◌, ◌<◌, ◌≤◌, ◌++◌, ◌∷◌, [], List, length, map, IfOk, IfSome, Option, Some, None, if◌then◌else◌, true};
ghost use Rattle.std.specs.List.{range_with_len};
ghost use Rattle.gas_geom.specs.declared.size.TheConstants.{MOST_SIDE};
ghost use Rattle.gas_pipe_model.specs.Line.{is_done};
ghost use Rattle.gas_pipe_model.specs.Pass.{RunInputModel, IsRunInput, line_of, after, rows_on};
ghost use Rattle.gas_pipe_members.specs.Feeder.{FeederModel};
ghost use Rattle.gas_pipe_members.specs.Worker.{WorkerModel};
ghost use Rattle.gas_pipe_replay.specs.Replay.{counts_of};
ghost use Rattle.gas_pipe_replay.specs.Inner.LocalLine.{HaveBegun, AreUnused, Shows};

use crate::pass::Counts;
use gas_geom::gas::Gas;
use gas_pipe_members::ends::Turned;
use gas_pipe_members::feeder::Feeder;
use gas_pipe_members::plain_belt::PlainBelt;
use gas_pipe_members::plan::{Plan, RunInput};
use gas_pipe_members::worker::Worker;
use gas_rows::lattice::Lattice;
use std::alloc::{AllocError, Global};

// A turn of worker `who`, counted from 1, between the belt before it and the belt after it.
fn turn_worker<G: Gas>(
    workers: &mut [Worker<'_, G>],
    belts: &mut [PlainBelt<G>],
    who: usize,
) -> Turned
    requires low { 0 < who }
    requires high { who ≤ length workers.old }
    requires belts { length belts.old ≡ length workers.old + 1 }
    ensures workers { length workers.new ≡ length workers.old }
    ensures belts { length belts.new ≡ length belts.old }
    ensures shows { (input : RunInputModel) (f : FeederModel) (turns : List ℕ) →
        Shows G.rules input f workers.old belts.old (after G.rules input 0 turns) →
        Shows G.rules input f workers.new belts.new (after G.rules input 0 (turns ++ who ∷ [])) }
{
    let (before, behind) = belts.split_at_mut(who);
    workers[who - 1].turn(&mut before[who - 1], &mut behind[0])
}

// A turn of the feeder, between the first belt and the last.
fn turn_feeder<G: Gas>(feeder: &mut Feeder<G>, belts: &mut [PlainBelt<G>]) -> Turned
    requires { 1 < length belts.old }
    ensures belts { length belts.new ≡ length belts.old }
    ensures shows { (input : RunInputModel) (workers : List WorkerModel) (turns : List ℕ) →
        Shows G.rules input feeder.old workers belts.old (after G.rules input 0 turns) →
        Shows G.rules input feeder.new workers belts.new (after G.rules input 0 (turns ++ 0 ∷ [])) }
{
    let last = belts.len() - 1;
    let (before, behind) = belts.split_at_mut(last);
    feeder.turn(&mut before[0], &mut behind[0])
}

// Makes the workers of a pass, one for each stage, and lets each begin it.
fn begin_workers<'a, G: Gas>(
    alloc: Global,
    input: &RunInput<'a, G>,
) -> Result<Vec<Worker<'a, G>>, AllocError>
    requires some { 0 < input.now.plan.generations }
    requires each { input.now.plan.threads ≡ input.now.plan.stages }
    ensures begun { IfOk result (λ workers.
        HaveBegun G.rules input.now workers.items input.now.plan.threads) }
    ensures some { 0 < input.now.plan.threads }
    ensures few { input.now.plan.threads ≤ 64 }
{
    let count = input.span.plan.threads();
    let mut workers = Vec::with_capacity(alloc, count as usize)?;
    for k in 0..count {
        let mut worker = Worker::new(alloc, input.lattice.channel(), input.chirality)?;
        let (first, computing) = input.span.generations(0, k);
        worker.begin_stages(first, computing);
        workers.push(worker)?;
    }
    Ok(workers)
}

// Makes the plan's belts, one more than it has workers.
fn make_belts<G: Gas>(alloc: Global, plan: Plan) -> Result<Vec<PlainBelt<G>>, AllocError>
    ensures unused { IfOk result (λ belts. AreUnused plan.capacity belts.items (plan.threads + 1)) }
    ensures some { 0 < plan.capacity }
{
    let capacity = plan.capacity();
    let mut belts = Vec::with_capacity(alloc, plan.threads() as usize + 1)?;
    for _ in 0..=plan.threads() {
        belts.push(PlainBelt::new(alloc, capacity)?)?;
    }
    Ok(belts)
}

/// The feeder, the workers and the belts of one pass.
#[derive(Drop)]
pub struct LocalLine<'a, G: Gas> {
    feeder: Feeder<G>,
    workers: Vec<Worker<'a, G>>,
    belts: Vec<PlainBelt<G>>,
    ghost sizes: { (length belts.items ≡ length workers.items + 1) × (0 < length workers.items)
        × (length workers.items ≤ 64) },
}

impl<'a, G: Gas> LocalLine<'a, G> {
    ghost use Rattle.gas_pipe_replay.specs.Inner.Made.{HasMade};

    /// The line of a plan's first pass before its first turn.
    pub(crate) fn new(alloc: Global, input: &RunInput<'a, G>) -> Result<Self, AllocError>
        requires some { 0 < input.now.plan.generations }
        requires each { input.now.plan.threads ≡ input.now.plan.stages }
        ensures input { IfOk result (λ _. IsRunInput G.rules input.now) }
        ensures begun { IfOk result (λ line. HasMade G.rules input.now line []) }
    {
        let mut feeder = Feeder::new(alloc, input.lattice)?;
        feeder.begin();
        Ok(LocalLine {
            feeder,
            workers: begin_workers(alloc, input)?,
            belts: make_belts(alloc, input.span.plan)?,
        })
    }

    /// Makes one turn of a member. A number above the workers' is no member's.
    pub(crate) fn turn(&mut self, who: u32)
        ensures { (input : RunInputModel) (turns : List ℕ) → HasMade G.rules input self.old turns →
            HasMade G.rules input self.new (turns ++ who ∷ []) }
    {
        let who = who as usize;
        if who == 0 {
            turn_feeder(&mut self.feeder, &mut self.belts);
        } else if who <= self.workers.len() {
            turn_worker(&mut self.workers, &mut self.belts, who);
        }
    }

    /// Makes these turns, one after another.
    pub(crate) fn run(&mut self, turns: &[u32])
        ensures { (input : RunInputModel) → HasMade G.rules input self.old [] →
            HasMade G.rules input self.new turns.now }
    {
        for who in turns {
            self.turn(*who);
        }
    }

    // The number of rows that a member took from its belt: a worker counted from 0, or the feeder
    // after the last of them.
    fn count_taken(&self, k: usize) -> u32
        requires { k ≤ length self.now.workers.items }
        ensures value { (input : RunInputModel) (turns : List ℕ) →
            HasMade G.rules input self.now turns →
            result ≡ length ((after G.rules input 0 turns).taken k) }
        ensures few { result ≤ MOST_SIDE }
    {
        match self.workers.get(k) {
            Some(worker) => worker.taken(),
            None => self.feeder.taken(),
        }
    }

    /// The numbers of rows that were put on each belt and taken from it.
    pub(crate) fn counts(&self, alloc: Global) -> Result<Vec<Counts>, AllocError>
        ensures few { IfOk result (λ counts. length counts.items ≤ 65) }
        ensures value { IfOk result (λ counts. (input : RunInputModel) (turns : List ℕ) →
            HasMade G.rules input self.now turns → counts.items
            ≡ map (counts_of (after G.rules input 0 turns)) (range_with_len 0 (input.plan.threads + 1))) }
    {
        let mut counts = Vec::with_capacity(alloc, self.belts.len())?;
        for k in 0..self.belts.len() {
            let taken = self.count_taken(k);
            let put = taken + self.belts[k].len();
            counts.push(Counts { put, taken })?;
        }
        Ok(counts)
    }

    /// The lattice of the last belt, if the pass is done.
    pub(crate) fn finish(self) -> Option<Lattice<G>>
        ensures { (input : RunInputModel) (turns : List ℕ) → HasMade G.rules input self.entry turns →
            result ≡ (if is_done (line_of G.rules input 0) (after G.rules input 0 turns)
            then Some (record input.lattice { rows = rows_on G.rules input 0 input.plan.threads })
            else None) }
    {
        if self.feeder.is_closed() {
            Some(self.feeder.finish())
        } else {
            None
        }
    }
}
