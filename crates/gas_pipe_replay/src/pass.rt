//! The state of a pass: how far its belts are, and the lattice if it is done.
ghost use Rattle.std.specs.Prelude.{◌≡◌, ◌≤◌, ◌<◌, IfSome, IfNone, IsSome, IsTrue, ◌↔◌, Some, None, length, slice_index_or};

use gas_geom::gas::Gas;
use gas_rows::lattice::Lattice;
use std::marker::Model;

/// How many rows were put on a belt, and how many were taken from it.
#[derive(Clone, Copy, Debug, PartialEq, Eq)]
pub struct Counts {
    pub put: u32,
    pub taken: u32,
}

/// The state of a pass after some turns of its members.
#[derive(Drop)]
pub struct Replay<G: Gas> {
    lattice: Option<Lattice<G>>,
    belts: Vec<Counts>,
}

impl<G: Gas> Model for Replay<G> {
    ghost use Rattle.std.specs.Prelude.{◌≤◌, length};
    ghost use Rattle.gas_pipe_replay.specs.Replay.{ReplayModel};

    ghost Value = { ReplayModel };

    ghost view = { λ r. record { lattice = r.lattice; belts = r.belts.items } };

    ghost invariant = { λ r. length r.belts.items ≤ 65 };
}

impl<G: Gas> Replay<G> {
    /// The state of a pass that has at most 65 belts.
    pub(crate) fn new(lattice: Option<Lattice<G>>, belts: Vec<Counts>) -> Self
        requires { length belts.items ≤ 65 }
        ensures { result ≡ record { lattice = lattice; belts = belts.items } }
    {
        Replay { lattice, belts }
    }

    /// Whether the pass is done: all rows came back to the feeder.
    pub fn done(&self) -> bool
        ensures value { IsTrue result ↔ IsSome self.now.lattice }
    {
        self.lattice.is_some()
    }

    /// The lattice after all generations, if the pass is done.
    pub fn lattice(&self) -> Option<&Lattice<G>>
        ensures some { IfSome result (λ lattice. Some lattice.now ≡ self.now.lattice) }
        ensures none { IfNone result (self.now.lattice ≡ None) }
    {
        self.lattice.as_ref()
    }

    /// The number of belts: one more than workers, or none if there was no generation to compute.
    pub fn belts(&self) -> u32
        ensures value { result ≡ length self.now.belts }
    {
        self.belts.len() as u32
    }

    /// The number of rows put on a belt, if there is such a belt.
    pub fn put(&self, belt: u32) -> Option<u32>
        ensures some { IfSome result (λ rows. (belt < length self.now.belts)
            × (rows ≡ (slice_index_or self.now.belts belt (record { put = 0; taken = 0 })).put)) }
        ensures none { IfNone result (length self.now.belts ≤ belt) }
    {
        self.belts.get(belt as usize).map(|counts| counts.put)
    }

    /// The number of rows taken from a belt, if there is such a belt.
    pub fn taken(&self, belt: u32) -> Option<u32>
        ensures some { IfSome result (λ rows. (belt < length self.now.belts)
            × (rows ≡ (slice_index_or self.now.belts belt (record { put = 0; taken = 0 })).taken)) }
        ensures none { IfNone result (length self.now.belts ≤ belt) }
    {
        self.belts.get(belt as usize).map(|counts| counts.taken)
    }
}
