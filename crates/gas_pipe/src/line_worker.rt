//! A worker of a run, with the ends of the belts that it works between.
ghost use Rattle.std.specs.Prelude.{◌≡◌, ◌+◌, ◌<◌, [], IfOk, IsFalse};
ghost use Rattle.gas_pipe_model.specs.Plan.{before};
ghost use Rattle.gas_pipe_members.specs.Worker.{IsClosed};
ghost use Rattle.gas_pipe.specs.declared.waiter.Turn.TheVariants.{Over};
ghost use Rattle.gas_pipe.specs.Inner.Worker.{job_of, job_in, IsUnused, HasCome, HasFinished, HasEnded};

use crate::Gate;
use crate::share::Share;
use crate::waiter::{Turn, Waiter};
use gas_belt::rx::Rx;
use gas_belt::tx::{Spent, Tx};
use gas_geom::gas::Gas;
use gas_pipe_members::ends::Turned;
use gas_pipe_members::plan::{RunInput, Span};
use gas_pipe_members::worker::Worker;
use std::alloc::{AllocError, Global};
use std::marker::Model;

/// A worker of a run, with its open pass, counted from 0, and the two ends that it works between.
#[derive(Drop)]
pub struct LineWorker<'a, G: Gas> {
    share: Share,
    span: Span,
    pass: u64,
    worker: Worker<'a, G>,
    rx: Rx<G>,
    tx: Tx<G>,
}

impl<'a, G: Gas> Model for LineWorker<'a, G> {
    ghost use Rattle.std.specs.Prelude.{◌≡◌, ◌+◌, ◌<◌, length};
    ghost use Rattle.std.specs.Int.{div_ceil};
    ghost use Rattle.gas_pipe_model.specs.Plan.{before};
    ghost use Rattle.gas_pipe.specs.Inner.Worker.{LineWorkerModel};

    ghost Value = { LineWorkerModel };

    ghost view = { λ w. record {
      number = w.share.number;
      first = w.span.first;
      plan = w.span.plan;
      pass = w.pass;
      worker = w.worker;
      rx = w.rx;
      tx = w.tx;
    } };

    ghost invariant = { λ w. record {
      one_of : w.share.number < w.span.plan.threads;
      stages : before w.span.plan w.share.number + length w.worker.stages.stages
          ≡ before w.span.plan (w.share.number + 1);
      within : w.pass < div_ceil w.span.plan.generations w.span.plan.stages;
      wide : w.rx.belt.width ≡ w.worker.stages.channel.width;
    } };
}

impl<'a, G: Gas> LineWorker<'a, G> {
    /// The worker of a share of the stages, with its first pass open.
    pub(crate) fn new(
        alloc: Global,
        input: &RunInput<'a, G>,
        share: Share,
        rx: Rx<G>,
        tx: Tx<G>,
    ) -> Result<Self, AllocError>
        requires one_of { share.number < input.now.plan.threads }
        requires stages { before input.now.plan share.number + share.stages
            ≡ before input.now.plan (share.number + 1) }
        requires some { 0 < input.now.plan.generations }
        requires unused { IsUnused input.now rx }
        requires nothing_put { tx.put ≡ [] }
        ensures job { IfOk result (λ w. job_of w ≡ job_in input.now share.number rx.belt tx.belt) }
        ensures come { IfOk result (λ w. HasCome G.rules w) }
    {
        let channel = input.lattice.channel();
        let mut worker = Worker::with_stages(alloc, channel, input.chirality, share.stages)?;
        let (first, computing) = input.span.generations(0, share.number);
        worker.begin_stages(first, computing);
        Ok(LineWorker {
            share,
            span: input.span,
            pass: 0,
            worker,
            rx: rx.with_spares(alloc, share.stages + 1)?,
            tx,
        })
    }

    // Opens the next pass, for which its stages enter the gate. False if all passes are over.
    #[inline(never)]
    fn begin_next<H: Gate>(&mut self, gate: &H) -> bool
        requires closed { IsClosed self.old.worker }
        requires come { HasCome G.rules self.old }
        ensures job { job_of self.new ≡ job_of self.old }
        ensures come { HasCome G.rules self.new }
        ensures over { IsFalse result →
            HasFinished G.rules (job_of self.new) self.new.rx.taken self.new.tx.put }
    {
        if self.pass + 1 == self.span.plan.passes() {
            return false;
        }
        self.share.enter(gate);
        self.pass += 1;
        let (first, computing) = self.span.generations(self.pass, self.share.number);
        self.worker.begin_stages(first, computing);
        true
    }

    /// Makes a turn, or opens the next pass. Unless a row waits to be put, the end that it takes from
    /// has a spare row then.
    pub(crate) fn turn<H: Gate>(&mut self, gate: &H, waiter: &mut Waiter<'_>) -> Turn
        requires come { HasCome G.rules self.old }
        ensures job { job_of self.new ≡ job_of self.old }
        ensures come { HasCome G.rules self.new }
        ensures never_without { self.new.worker.waiting ≡ None → 0 < self.new.rx.held }
        ensures over { result ≡ Over →
            HasFinished G.rules (job_of self.new) self.new.rx.taken self.new.tx.put }
    {
        match self.worker.turn(&mut self.rx, &mut self.tx) {
            Turned::Took => {
                waiter.note_move(self.share.thread_before);
                Turn::Moved
            }
            Turned::Put => {
                waiter.note_move(self.share.thread_behind);
                Turn::Moved
            }
            Turned::Idle => Turn::Idle,
            Turned::Done => {
                if self.begin_next(gate) {
                    Turn::Moved
                } else {
                    Turn::Over
                }
            }
            Turned::Stray => unreachable!(),
        }
    }

    /// Its stages, and the threads beside it.
    pub(crate) fn share(&self) -> &Share {
        &self.share
    }

    /// Closes the end that it put on.
    pub(crate) fn end(self) -> Ended<G>
        requires over { HasFinished G.rules (job_of self) self.rx.taken self.tx.put }
        ensures { HasEnded G.rules (job_of self.entry) result }
    {
        Ended {
            rx: self.rx,
            spent: self.tx.close(),
        }
    }
}

/// The ends that a worker worked between, once its passes are over.
#[derive(Drop)]
pub struct Ended<G: Gas> {
    pub rx: Rx<G>,
    pub spent: Spent<G>,
}

impl<G: Gas> Model for Ended<G> {
    ghost use Rattle.gas_pipe.specs.Inner.Worker.{EndedModel};

    ghost Value = { EndedModel };

    ghost view = { λ e. record { rx = e.rx; spent = e.spent } };
}
