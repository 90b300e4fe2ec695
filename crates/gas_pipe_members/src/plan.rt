//! The plan of a run: the stages of its line, the capacity of a belt, and the generations to
//! compute. Also what a run of a plan is given, and why it may end without a result.

ghost use Rattle.std.specs.Prelude.{◌≡◌, ◌≤◌, ◌<◌, ◌+◌, ◌-◌, ◌*◌, ◌^◌, ℕ, suc, IfOk, IfErr, None, Some};
ghost use Rattle.std.specs.Int.{div_ceil};
ghost use Rattle.gas_stage.specs.Stages.{passes_from};
ghost use Rattle.gas_pipe_model.specs.Pass.{generations_of};
ghost use Rattle.gas_pipe_model.specs.Plan.{before};
ghost use Rattle.gas_pipe_members.specs.Plan.{plan_refusal, threads_refusal};
ghost use Rattle.gas_pipe_members.specs.declared.plan.RunError.TheVariants.{Memory};

use gas_geom::gas::Gas;
use gas_rows::chirality::Chirality;
use gas_rows::lattice::Lattice;
use std::alloc::AllocError;
use std::marker::Model;
use thiserror::Error;

/// Why a plan was refused. Its `Display` text is the line that the program prints.
#[derive(Debug, Drop, Error, PartialEq, Eq)]
pub enum PlanError {
    #[error("plan: stages must be 1 to 64")]
    Stages,
    #[error("plan: capacity must be 1 to 1024")]
    Capacity,
    #[error("plan: generations must be 0 to 1000000")]
    Generations,
    #[error("plan: threads must be 1 to the number of stages")]
    Threads,
}

/// Why a plan was not carried out.
#[derive(Debug, Drop, Error, PartialEq, Eq)]
pub enum RunError {
    #[error("memory refused")]
    Memory = 1,
    #[error("replay: the plan needs more than one pass")]
    MorePasses = 2,
}

impl From<AllocError> for RunError {
    ghost from_gives = { λ _ error. error ≡ Memory };

    fn from(_error: AllocError) -> RunError {
        RunError::Memory
    }
}

/// The number of stages, 1 to 64, the capacity of a belt, 1 to 1024 rows, the number of generations
/// to compute, 0 to 1,000,000, and the number of threads that share the stages, 1 to the number of
/// stages.
#[derive(Clone, Copy)]
pub struct Plan {
    stages: u32,
    capacity: u32,
    generations: u64,
    threads: u32,
}

impl Model for Plan {
    ghost use Rattle.std.specs.Int.{div_ceil};
    ghost use Rattle.gas_pipe_model.specs.Plan.{PlanModel};
    ghost use Rattle.std.specs.Prelude.{◌≤◌};

    ghost Value = { PlanModel };

    ghost view = { λ p. record {
      stages = p.stages;
      capacity = p.capacity;
      generations = p.generations;
      threads = p.threads;
    } };

    ghost invariant = { λ p. record {
      some_stages : 1 ≤ p.stages;
      few_stages : p.stages ≤ 64;
      some_capacity : 1 ≤ p.capacity;
      few_rows : p.capacity ≤ 1024;
      few_generations : p.generations ≤ 1000000;
      some_threads : 1 ≤ p.threads;
      few_threads : p.threads ≤ p.stages;
    } };

    ghost inverse = { λ v. record {
      stages = v.stages;
      capacity = v.capacity;
      generations = v.generations;
      threads = v.threads;
    } };
}

impl Plan {
    /// A plan with a thread for each stage, or the first refusal: stages, then capacity, then
    /// generations.
    pub fn new(stages: u32, capacity: u32, generations: u64) -> Result<Plan, PlanError>
        ensures refused { IfErr result (λ e. plan_refusal stages capacity generations ≡ Some e) }
        ensures accepted { IfOk result (λ _. plan_refusal stages capacity generations ≡ None) }
        ensures made { IfOk result (λ plan. plan ≡ record {
          stages = stages;
          capacity = capacity;
          generations = generations;
          threads = stages;
        }) }
    {
        if stages < 1 || stages > 64 {
            Err(PlanError::Stages)
        } else if capacity < 1 || capacity > 1024 {
            Err(PlanError::Capacity)
        } else if generations > 1_000_000 {
            Err(PlanError::Generations)
        } else {
            Ok(Plan {
                stages,
                capacity,
                generations,
                threads: stages,
            })
        }
    }

    /// The plan with its stages on that number of threads. Refused unless it is 1 to the number of
    /// stages.
    pub fn on(self, threads: u32) -> Result<Plan, PlanError>
        ensures refused { IfErr result (λ e. threads_refusal self.stages threads ≡ Some e) }
        ensures accepted { IfOk result (λ _. threads_refusal self.stages threads ≡ None) }
        ensures made { IfOk result (λ plan. plan ≡ record self { threads = threads }) }
    {
        if threads < 1 || threads > self.stages {
            Err(PlanError::Threads)
        } else {
            Ok(Plan { threads, ..self })
        }
    }

    /// The plan with a thread for each stage.
    pub fn with_thread_each(self) -> Plan
        ensures made { result ≡ record self { threads = self.stages } }
    {
        Plan {
            threads: self.stages,
            ..self
        }
    }

    /// The number of stages of the line.
    pub fn stages(self) -> u32
        ensures value { result ≡ self.stages }
        ensures some { 1 ≤ result }
        ensures few { result ≤ 64 }
        ensures accepted { plan_refusal self.stages self.capacity self.generations ≡ None }
    {
        self.stages
    }

    /// The most rows on a belt.
    pub fn capacity(self) -> u32
        ensures value { result ≡ self.capacity }
        ensures some { 1 ≤ result }
        ensures few { result ≤ 1024 }
        ensures accepted { plan_refusal self.stages self.capacity self.generations ≡ None }
    {
        self.capacity
    }

    /// The number of generations to compute.
    pub fn generations(self) -> u64
        ensures value { result ≡ self.generations }
        ensures few { result ≤ 1000000 }
        ensures accepted { plan_refusal self.stages self.capacity self.generations ≡ None }
    {
        self.generations
    }

    /// The number of threads that share the stages, and so of workers. With fewer threads than stages
    /// the feeder is on the thread of the first worker; else it has a thread beside them.
    pub fn threads(self) -> u32
        ensures value { result ≡ self.threads }
        ensures some { 1 ≤ result }
        ensures few { result ≤ self.stages }
        ensures most { result ≤ 64 }
    {
        self.threads
    }

    /// The number of stages in front of belt k: those of the first k workers. There is a worker for
    /// each thread, and the stages are shared out evenly. The last workers have one more, if some are
    /// left.
    pub fn before(self, k: u32) -> u32
        requires within { k ≤ self.threads }
        ensures value { result ≡ before self k }
        ensures few { result ≤ self.stages }
        ensures most { k ≤ 64 }
    {
        let more = (k + self.stages % self.threads).saturating_sub(self.threads);
        k * (self.stages / self.threads) + more
    }

    /// The number of passes through the line. A pass computes at most one generation per stage.
    pub fn passes(self) -> u64
        ensures value { result ≡ div_ceil self.generations self.stages }
        ensures few { result ≤ self.generations }
        ensures most { result ≤ 1000000 }
    {
        self.generations.div_ceil(u64::from(self.stages))
    }
}

/// A plan over a lattice of generation `first`.
#[derive(Clone, Copy)]
pub struct Span {
    pub first: u64,
    pub plan: Plan,
    ghost room: { first + plan.generations < 2 ^ 64 },
}

impl Span {
    /// What the stages of a worker do in a pass, both counted from 0, if there is a worker for each
    /// thread of the plan: the generation from which the first stage computes the step, and how many
    /// stages compute. The others hand rows on unchanged.
    pub fn generations(&self, pass: u64, number: u32) -> (u64, u32)
        requires pass { pass * self.now.plan.stages < self.now.plan.generations }
        requires one_of { number < self.now.plan.threads }
        ensures passes { (stages : ℕ) →
            before self.now.plan number + stages ≡ before self.now.plan (number + 1) →
            passes_from result.0 result.1 stages
            ≡ generations_of self.now.first self.now.plan pass (suc number) }
        ensures room { result.0 + result.1 ≤ 2 ^ 64 }
    {
        let in_front = self.plan.before(number);
        let stages = self.plan.before(number + 1) - in_front;
        let generations = self.plan.generations();
        let done = pass * u64::from(self.plan.stages()) + u64::from(in_front);
        let left = generations.saturating_sub(done);
        let computing = left.min(u64::from(stages)) as u32;
        (self.first + (generations - left), computing)
    }
}

/// The input of a run: a lattice, its chirality, its generation, and the plan to carry out.
#[derive(Drop)]
pub struct RunInput<'a, G: Gas> {
    pub lattice: &'a Lattice<G>,
    pub chirality: Chirality,
    pub span: Span,
}

impl<'a, G: Gas> Model for RunInput<'a, G> {
    ghost use Rattle.gas_pipe_model.specs.Pass.{RunInputModel};

    ghost Value = { RunInputModel };

    ghost view = { λ input. record {
      chirality = input.chirality;
      first = input.span.first;
      lattice = input.lattice.now;
      plan = input.span.plan;
    } };
}
