//! How the stages of a plan are shared out to the workers of its line.
ghost use Rattle.std.specs.Prelude.{◌≡◌, ◌<◌, ◌≤◌, ◌+◌};
ghost use Rattle.gas_pipe_model.specs.Plan.{before};

use crate::Gate;
use gas_pipe_members::plan::Plan;

/// The stages of a worker, and the threads beside its own. Workers and threads are counted from 0. The
/// caller's thread is number 0.
#[derive(Clone, Copy)]
pub struct Share {
    /// The worker that has them: it takes from the belt of that number.
    pub number: u32,
    /// The stages in front of them.
    pub before: u32,
    pub stages: u32,
    pub thread: u32,
    pub thread_before: u32,
    pub thread_behind: u32,
    ghost few: { number < 64 },
    ghost some_stages: { 1 ≤ stages },
    ghost few_stages: { before + stages ≤ 64 },
}

/// Whether the caller's thread has the first worker: not if there is a thread for each stage.
pub(crate) fn has_own_worker(plan: Plan) -> bool {
    plan.threads() < plan.stages()
}

impl Share {
    /// The share of a worker.
    pub(crate) fn of(plan: Plan, number: u32) -> Share
        requires one_of { number < plan.threads }
        ensures number { result.number ≡ number }
        ensures stages { before plan number + result.stages ≡ before plan (number + 1) }
    {
        let in_front = plan.before(number);
        let thread = if has_own_worker(plan) {
            number
        } else {
            number + 1
        };
        Share {
            number,
            before: in_front,
            stages: plan.before(number + 1) - in_front,
            thread,
            thread_before: thread.saturating_sub(1),
            thread_behind: if number + 1 < plan.threads() {
                thread + 1
            } else {
                0
            },
        }
    }

    /// Its stages, counted from 1, enter the gate.
    pub(crate) fn enter<H: Gate>(&self, gate: &H) {
        for k in 0..self.stages {
            gate.enter(self.before + k + 1);
        }
    }

    /// Its stages leave the gate.
    pub(crate) fn leave<H: Gate>(&self, gate: &H) {
        for k in 0..self.stages {
            gate.leave(self.before + k + 1);
        }
    }
}
