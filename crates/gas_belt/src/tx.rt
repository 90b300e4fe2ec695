//! The end of a belt that rows are put on.
ghost use Rattle.std.specs.Prelude.{◌≡◌, ◌+◌, ◌/◌, ◌<◌, ◌++◌, ◌∷◌, [], length, OnOk, IfErr, OnErr, IsOk, IsErr, Some, None};
ghost use Rattle.rtrb.specs.Ends.{capacity_of};
ghost use Rattle.rtrb.specs.Ring.{sent, known_free};
ghost use Rattle.gas_belt.specs.Inner.Ring.{belt_of, row_words};

use crate::rx::Rx;
use gas_geom::gas::Gas;
use gas_rows::row::Row;
use rtrb::Producer;
use std::marker::{Model, PhantomData};

/// An end that rows were put on, after its close.
#[derive(Drop)]
pub struct Spent<G: Gas> {
    pub(crate) ring: Producer<u64>,
    pub(crate) count: u64,
    width: u32,
    looked: u64,
    gas: PhantomData<G>,
}

impl<G: Gas> Model for Spent<G> {
    ghost use Rattle.std.specs.Prelude.{◌≡◌, ◌+◌, ◌*◌, ◌/◌, length, None};
    ghost use Rattle.rtrb.specs.Ends.{capacity_of};
    ghost use Rattle.rtrb.specs.Ring.{sent};
    ghost use Rattle.gas_belt.specs.Belt.{Sender};
    ghost use Rattle.gas_belt.specs.Inner.Ring.{belt_of, row_words, rows_in};

    ghost Value = { Sender };

    ghost view = { λ s. record {
      belt = belt_of G.rules.dirs s.width s.ring.end;
      put = rows_in G.rules.dirs s.width s.count (sent s.ring);
      spare = None;
      limit = capacity_of s.ring.end / row_words G.rules.dirs s.width + s.looked;
    } };

    ghost invariant = { λ s. length (sent s.ring) ≡ row_words G.rules.dirs s.width * s.count };
}

/// The end of a belt that rows are put on. It counts them.
#[derive(Drop)]
pub struct Tx<G: Gas> {
    pub(crate) ring: Producer<u64>,
    pub(crate) count: u64,
    width: u32,
    spare: Option<Row<G>>,
    // The number of rows that were taken when the other end was looked at.
    looked: u64,
}

impl<G: Gas> Model for Tx<G> {
    ghost use Rattle.std.specs.Prelude.{◌≡◌, ◌≤◌, ◌+◌, ◌*◌, ◌/◌, length};
    ghost use Rattle.rtrb.specs.Ends.{capacity_of};
    ghost use Rattle.rtrb.specs.Ring.{sent, known_free};
    ghost use Rattle.gas_belt.specs.Belt.{Sender};
    ghost use Rattle.gas_belt.specs.Inner.Ring.{belt_of, row_words, rows_in};

    ghost Value = { Sender };

    ghost view = { λ t. record {
      belt = belt_of G.rules.dirs t.width t.ring.end;
      put = rows_in G.rules.dirs t.width t.count (sent t.ring);
      spare = t.spare;
      limit = capacity_of t.ring.end / row_words G.rules.dirs t.width + t.looked;
    } };

    ghost invariant = { λ t. record {
      counted : length (sent t.ring) ≡ row_words G.rules.dirs t.width * t.count;
      known : capacity_of t.ring.end + row_words G.rules.dirs t.width * t.looked
          ≤ length (sent t.ring) + known_free t.ring;
    } };
}

impl<G: Gas> Tx<G> {
    #[tactic(auto, using(crate::proofs::Parts::parts_none))]
    pub(crate) fn new(ring: Producer<u64>, width: u32) -> Self
        requires nothing { sent ring ≡ [] }
        requires free { known_free ring ≡ capacity_of ring.end }
        ensures fresh { result ≡ record {
          belt = belt_of G.rules.dirs width ring.end;
          put = [];
          spare = None;
          limit = capacity_of ring.end / row_words G.rules.dirs width;
        } }
    {
        Tx {
            ring,
            count: 0,
            width,
            spare: None,
            looked: 0,
        }
    }

    /// Puts a row, or hands it back if the belt has no place for it, its width is not the belt's,
    /// or 2^64 - 1 rows were put. A row for which the belt is known to have a place is put. A row that
    /// was put becomes the spare row. It never waits. That it takes no memory is tested.
    #[inline(always)]
    #[tactic(auto, using(crate::proofs::Parts::parts_length, crate::proofs::Parts::parts_row))]
    pub fn try_put(&mut self, row: Row<G>) -> Result<(), Row<G>>
        ensures put { OnOk result (self.new ≡ record self.old {
          put = self.old.put ++ row ∷ [];
          spare = Some row;
        }) }
        ensures width { OnOk result (length row ≡ self.old.belt.width) }
        ensures back { IfErr result (λ r. r ≡ row) }
        ensures unchanged { OnErr result (self.new ≡ self.old) }
        ensures no_more { length self.old.put ≡ u64.MAX → IsErr result }
        ensures succeeds { length row ≡ self.old.belt.width → length self.old.put < u64.MAX →
            length self.old.put < self.old.limit → IsOk result }
    {
        if self.count == u64::MAX || row.width() != self.width {
            return Err(row);
        }
        let Ok(()) = self.ring.push_entire_slice(row.as_words()) else {
            return Err(row);
        };
        self.count += 1;
        self.spare = Some(row);
        Ok(())
    }

    /// Looks at the other end, and then knows each place that is free.
    #[tactic(auto, using(crate::proofs::Parts::parts_length))]
    pub fn look_beside(&mut self, rx: &mut Rx<G>)
        requires one_belt { self.old.belt ≡ rx.old.belt }
        ensures looked { self.new ≡ record self.old {
          limit = self.old.belt.capacity + length rx.old.taken;
        } }
        ensures unchanged { rx.new ≡ rx.old }
    {
        self.ring.slots_beside(&mut rx.end.ring);
        self.looked = rx.count;
    }

    /// Hands out the row of the newest put, for reuse. None if it was already handed out.
    pub fn spare(&mut self) -> Option<Row<G>>
        ensures newest { result ≡ self.old.spare }
        ensures handed_out { self.new ≡ record self.old { spare = None } }
    {
        self.spare.take()
    }

    /// Closes the end. A `Spent` has no put, and the spare row is dropped.
    pub fn close(self) -> Spent<G>
        ensures spent { result ≡ record self { spare = None } }
    {
        Spent {
            ring: self.ring,
            count: self.count,
            width: self.width,
            looked: self.looked,
            gas: PhantomData,
        }
    }
}
