//! The result of a run: the lattice, and what the belts carried.
ghost use Rattle.std.specs.Prelude.{◌≡◌, ◌≤◌, ◌<◌, IfSome, IfNone, length};

use gas_belt::carried::Carried;
use gas_geom::gas::Gas;
use gas_pipe_members::plan::Plan;
use gas_rows::lattice::Lattice;
use std::marker::Model;

/// The lattice after a run, and what each belt carried in all passes.
#[derive(Drop)]
pub struct Run<G: Gas> {
    pub(crate) lattice: Lattice<G>,
    pub(crate) plan: Plan,
    pub(crate) belts: Vec<Carried<G>>,
}

impl<G: Gas> Model for Run<G> {
    ghost use Rattle.std.specs.Int.{div_ceil};
    ghost use Rattle.gas_pipe.specs.Run.{RunModel};

    ghost Value = { RunModel };

    ghost view = { λ r. record {
      lattice = r.lattice;
      stages = r.plan.stages;
      threads = r.plan.threads;
      passes = div_ceil r.plan.generations r.plan.stages;
      belts = r.belts.items;
    } };
}

impl<G: Gas> Run<G> {
    /// The lattice after the generations of the plan.
    pub fn lattice(&self) -> &Lattice<G>
        ensures value { result.now ≡ self.now.lattice }
    {
        &self.lattice
    }

    /// The number of passes.
    pub fn passes(&self) -> u64
        ensures value { result ≡ self.now.passes }
    {
        self.plan.passes()
    }

    /// The plan's number of threads, and of workers.
    pub fn threads(&self) -> u32
        ensures value { result ≡ self.now.threads }
    {
        self.plan.threads()
    }

    /// What each belt carried in all passes, one after another: from the belt that the feeder puts
    /// on to the belt that it takes from. There is none if no generation was to be computed.
    pub fn belts(&self) -> &[Carried<G>]
        ensures value { result.now ≡ self.now.belts }
    {
        &self.belts
    }

    /// The number of belts that were made.
    pub fn belts_made(&self) -> u64
        ensures value { result ≡ length self.now.belts }
    {
        self.belts.len() as u64
    }

    /// The number of rows that went through a belt in a pass, both counted from 0: the height of
    /// the lattice. None if there was no such pass or no such belt.
    pub fn rows_through(&self, pass: u64, belt: u32) -> Option<u32>
        ensures some { IfSome result (λ rows. (pass < self.now.passes) × (belt ≤ self.now.threads)
            × (rows ≡ self.now.lattice.channel.height)) }
        ensures none { IfNone result ((pass < self.now.passes) × (belt ≤ self.now.threads) → ⊥) }
    {
        let is_there = pass < self.passes() && belt <= self.plan.threads();
        is_there.then_some(self.lattice.channel().size().height())
    }
}
