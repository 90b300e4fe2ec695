//! What a belt carried, once its ends are on one thread again.
ghost use Rattle.std.specs.Prelude.{◌≡◌, length, IfOk, IfErr, OnOk, OnErr, ◌↔◌, IsOk};
ghost use mathlib.Core.List.{IsPrefix};

use crate::rx::Rx;
use crate::tx::Spent;
use gas_geom::gas::Gas;
use std::marker::Model;
use std::snapshot::Snapshot;

/// What a belt carried: all rows that were put on it and all rows that were taken from it. They are
/// the same rows in the same order.
#[derive(Drop)]
pub struct Carried<G: Gas> {
    len: u64,
    spent: Snapshot<Spent<G>>,
    rx: Snapshot<Rx<G>>,
}

impl<G: Gas> Model for Carried<G> {
    ghost use Rattle.std.specs.Prelude.{◌≡◌, length};
    ghost use Rattle.gas_belt.specs.Belt.{CarriedModel};

    ghost Value = { CarriedModel };

    ghost view = { λ c. record { put = c.spent.value.put; taken = c.rx.value.taken } };

    ghost invariant = { λ c. record {
      same_rows : c.rx.value.taken ≡ c.spent.value.put;
      count : c.len ≡ length c.spent.value.put;
    } };
}

impl<G: Gas> Carried<G> {
    /// The number of rows that the belt carried.
    pub fn len(&self) -> u64
        ensures put { result ≡ length self.now.put }
        ensures same_rows { self.now.taken ≡ self.now.put }
    {
        self.len
    }
}

/// Compares the two ends of a belt after the close. If as many rows were taken as were put, they
/// are the same rows in the same order. If a row is left on the belt, both ends come back as they
/// were.
#[tactic(auto, using(crate::proofs::Parts::parts_length))]
pub fn meet<G: Gas>(spent: Spent<G>, rx: Rx<G>) -> Result<Carried<G>, (Spent<G>, Rx<G>)>
    requires one_belt { spent.belt ≡ rx.belt }
    ensures exactly { IsOk result ↔ (length spent.put ≡ length rx.taken) }
    ensures equal { OnOk result (rx.taken ≡ spent.put) }
    ensures carried { IfOk result (λ c. c ≡ record { put = spent.put; taken = rx.taken }) }
    ensures prefix { OnErr result (IsPrefix rx.taken spent.put) }
    ensures back { IfErr result (λ e. (e.0 ≡ spent) × (e.1 ≡ rx)) }
{
    let mut spent = spent;
    let mut rx = rx;
    rx.end.ring.slots_beside(&mut spent.ring);
    if spent.count != rx.count {
        return Err((spent, rx));
    }
    Ok(Carried {
        len: spent.count,
        spent: Snapshot::of(&spent),
        rx: Snapshot::of(&rx),
    })
}
