//! What a thread of a run does.
ghost use Rattle.std.specs.Prelude.{◌≡◌, IsTrue};
ghost use Rattle.gas_pipe_model.specs.Pass.{RunInputModel};
ghost use Rattle.gas_pipe.specs.declared.waiter.Turn.TheVariants.{Over};
ghost use Rattle.gas_pipe.specs.Inner.Worker.{job_of, HasCome, HasEnded};
ghost use Rattle.gas_pipe.specs.Inner.Feeder.{belts_of, HasFed};
ghost use Rattle.gas_pipe.specs.Inner.Crew.{CrewHasCome, SameCrew, IsOver};

use crate::Gate;
use crate::job::{Shared, ThreadJob};
use crate::line_worker::{Ended, LineWorker};
use crate::waiter::{Turn, Waiter};
use gas_belt::rx::Rx;
use gas_belt::tx::Tx;
use gas_geom::gas::Gas;
use gas_pipe_members::ends::Turned;
use gas_pipe_members::feeder::Feeder;
use std::marker::Model;
use std::sync::Wait;

/// The feeder of a run, and the two ends that it works between.
#[derive(Drop)]
pub struct LineFeeder<G: Gas> {
    pub feeder: Feeder<G>,
    pub tx: Tx<G>,
    pub rx: Rx<G>,
    /// The threads that it puts rows for and takes rows from.
    pub thread_behind: u32,
    pub thread_before: u32,
}

impl<G: Gas> Model for LineFeeder<G> {
    ghost use Rattle.std.specs.Prelude.{◌≡◌};
    ghost use Rattle.gas_pipe.specs.Inner.Feeder.{LineFeederModel};

    ghost Value = { LineFeederModel };

    ghost view = { λ f. record { feeder = f.feeder; tx = f.tx; rx = f.rx } };

    ghost invariant = { λ f. record {
      rx_wide : f.rx.belt.width ≡ f.feeder.channel.width;
      tx_wide : f.tx.belt.width ≡ f.feeder.channel.width;
    } };
}

impl<G: Gas> LineFeeder<G> {
    fn turn(&mut self, waiter: &mut Waiter<'_>) -> Turn
        requires fed { (input : RunInputModel) × HasFed G.rules input self.old }
        ensures fed { (input : RunInputModel) → HasFed G.rules input self.old →
            HasFed G.rules input self.new }
        ensures same { belts_of self.new ≡ belts_of self.old }
        ensures over { result ≡ Over → self.new.feeder.to_take ≡ 0 }
    {
        match self.feeder.turn(&mut self.tx, &mut self.rx) {
            Turned::Took => {
                waiter.note_move(self.thread_before);
                Turn::Moved
            }
            Turned::Put => {
                waiter.note_move(self.thread_behind);
                Turn::Moved
            }
            Turned::Done => Turn::Over,
            Turned::Idle => Turn::Idle,
            Turned::Stray => unreachable!(),
        }
    }
}

/// What a thread of a run does: it has the feeder, a worker, or both.
#[derive(Drop)]
pub struct Crew<'a, G: Gas> {
    pub feeder: Option<LineFeeder<G>>,
    pub worker: Option<LineWorker<'a, G>>,
}

impl<'a, G: Gas> Model for Crew<'a, G> {
    ghost use Rattle.gas_pipe.specs.Inner.Crew.{CrewModel};

    ghost Value = { CrewModel };

    ghost view = { λ c. record { feeder = c.feeder; worker = c.worker } };
}

impl<'a, G: Gas> Crew<'a, G> {
    // A turn of each.
    fn turn<H: Gate>(&mut self, gate: &H, waiter: &mut Waiter<'_>) -> Turn
        requires come { (input : RunInputModel) × CrewHasCome G.rules input self.old }
        ensures come { (input : RunInputModel) → CrewHasCome G.rules input self.old →
            CrewHasCome G.rules input self.new }
        ensures same { SameCrew self.old self.new }
        ensures over { result ≡ Over → IsOver G.rules self.new }
    {
        match (&mut self.feeder, &mut self.worker) {
            (Some(feeder), Some(worker)) => feeder.turn(waiter).and(worker.turn(gate, waiter)),
            (Some(feeder), None) => feeder.turn(waiter),
            (None, Some(worker)) => worker.turn(gate, waiter),
            (None, None) => Turn::Over,
        }
    }

    fn make_turns<H: Gate, R: Wait>(&mut self, shared: &Shared<'_, H, R>) -> bool
        requires come { (input : RunInputModel) × CrewHasCome G.rules input self.old }
        ensures come { (input : RunInputModel) → CrewHasCome G.rules input self.old →
            CrewHasCome G.rules input self.new }
        ensures same { SameCrew self.old self.new }
        ensures over { IsTrue result → IsOver G.rules self.new }
    {
        let thread = self.worker.as_ref().map_or(0, |w| w.share().thread);
        let mut waiter = Waiter::new(shared.wake_ups, thread);
        for _ in shared.rt.forever() {
            match self.turn(shared.gate, &mut waiter) {
                Turn::Over => return true,
                Turn::Moved => {}
                Turn::Idle => {
                    if !waiter.wait(shared.rt, shared.wake_ups.is_stopped()) {
                        return false;
                    }
                }
            }
        }
        unreachable!()
    }

    /// Makes turns until all passes are over. False if the stop flag was raised before. The worker's
    /// stages enter the gate before the first turn, and leave it after the last.
    pub(crate) fn run<H: Gate, R: Wait>(&mut self, shared: &Shared<'_, H, R>) -> bool
        requires come { (input : RunInputModel) × CrewHasCome G.rules input self.old }
        ensures come { (input : RunInputModel) → CrewHasCome G.rules input self.old →
            CrewHasCome G.rules input self.new }
        ensures same { SameCrew self.old self.new }
        ensures over { IsTrue result → IsOver G.rules self.new }
    {
        if let Some(worker) = &self.worker {
            worker.share().enter(shared.gate);
        }
        let is_over = self.make_turns(shared);
        if let Some(worker) = &self.worker {
            worker.share().leave(shared.gate);
        }
        is_over
    }
}

impl<'a, G: Gas> ThreadJob<Ended<G>> for LineWorker<'a, G> {
    ghost fresh = { λ w. HasCome G.rules w };

    ghost kept = { λ w e. HasEnded G.rules (job_of w) e };

    fn make<H: Gate, R: Wait>(self, shared: &Shared<'_, H, R>) -> Option<Ended<G>> {
        let mut crew = Crew {
            feeder: None,
            worker: Some(self),
        };
        if !crew.run(shared) {
            return None;
        }
        let worker = crew.worker?;
        Some(worker.end())
    }
}
