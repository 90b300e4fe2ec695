//! The end of a belt that rows are taken from.
ghost use Rattle.std.specs.Prelude.{◌≡◌, ◌≢◌, ◌+◌, ◌-◌, ◌≤◌, ◌<◌, ◌++◌, ◌∷◌, [], length, min, vec_len, IfOk, IfSome, IfNone, IsNone, IsSome};
ghost use Rattle.rtrb.specs.Ring.{received};
ghost use Rattle.gas_belt.specs.Inner.Ring.{belt_of, row_words};

use crate::pop_end::PopEnd;
use crate::tx::Tx;
use gas_geom::gas::Gas;
use gas_rows::row::Row;
use std::alloc::{AllocError, Global};
use std::marker::Model;

/// The end of a belt that rows are taken from. It counts them, and has some spare rows, into which
/// the next rows are taken.
#[derive(Drop)]
pub struct Rx<G: Gas> {
    pub(crate) end: PopEnd,
    pub(crate) count: u64,
    width: u32,
    spares: Vec<Row<G>>,
    // The number of rows that were put when the other end was looked at.
    looked: u64,
}

impl<G: Gas> Model for Rx<G> {
    ghost use Rattle.std.specs.Prelude.{◌≡◌, ◌+◌, ◌*◌, ◌<◌, ◌≤◌, length, All, vec_len, vec_capacity};
    ghost use Rattle.rtrb.specs.Ring.{received, known_items};
    ghost use Rattle.gas_belt.specs.Belt.{Receiver};
    ghost use Rattle.gas_belt.specs.Inner.Ring.{belt_of, row_words, rows_in};

    ghost Value = { Receiver };

    ghost view = { λ r. record {
      belt = belt_of G.rules.dirs r.width r.end.ring.end;
      taken = rows_in G.rules.dirs r.width r.count (received r.end.ring);
      held = vec_len r.spares;
      most = vec_capacity r.spares;
      come = r.looked;
    } };

    ghost invariant = { λ r. record {
      counted : length (received r.end.ring) ≡ row_words G.rules.dirs r.width * r.count;
      known : row_words G.rules.dirs r.width * r.looked
          ≤ length (received r.end.ring) + length (known_items r.end.ring);
      long : vec_len r.end.words ≡ row_words G.rules.dirs r.width;
      some : 0 < vec_len r.end.words;
      few : vec_capacity r.spares ≤ 65;
      wide : All (λ row. length row ≡ r.width) r.spares.items;
      some_cells : 1 ≤ r.width;
      few_cells : r.width ≤ 65536;
    } };
}

impl<G: Gas> Rx<G> {
    /// An end from which nothing was taken, with no spare row.
    #[tactic(auto, using(crate::proofs::Parts::parts_none))]
    pub(crate) fn new(alloc: Global, end: PopEnd, width: u32) -> Result<Self, AllocError>
        requires nothing { received end.ring ≡ [] }
        requires some_words { 0 < vec_len end.words }
        requires long { vec_len end.words ≡ row_words G.rules.dirs width }
        requires some_cells { 1 ≤ width }
        requires few_cells { width ≤ 65536 }
        ensures fresh { IfOk result (λ r. r ≡ record {
          belt = belt_of G.rules.dirs width end.ring.end;
          taken = [];
          held = 0;
          most = 2;
          come = 0;
        }) }
    {
        Ok(Rx {
            end,
            count: 0,
            width,
            spares: Vec::with_capacity(alloc, 2)?,
            looked: 0,
        })
    }

    /// The end with that number of spare rows, at most 65, in place of those that it has. It takes
    /// their memory here.
    pub fn with_spares(mut self, alloc: Global, count: u32) -> Result<Self, AllocError>
        requires few { count ≤ 65 }
        ensures fresh { IfOk result (λ r. r ≡ record self { held = count; most = count }) }
    {
        self.spares = Vec::with_capacity(alloc, count as usize)?;
        let width = self.width;
        for _ in 0..count {
            self.give(Row::blank(alloc, width)?);
        }
        Ok(self)
    }

    /// Takes the oldest row on the belt, into one of the spare rows. None if not all of its words
    /// have come, no spare row is held, or 2^64 - 1 rows were taken. A row that is known to have come
    /// is taken. It never waits. That it takes no memory is tested.
    #[inline(always)]
    #[tactic(auto, using(crate::proofs::Parts::parts_length, crate::proofs::Parts::parts_row))]
    pub fn try_take(&mut self) -> Option<Row<G>>
        ensures taken { IfSome result (λ row. self.new ≡ record self.old {
          taken = self.old.taken ++ row ∷ [];
          held = self.old.held - 1;
        }) }
        ensures width { IfSome result (λ row. length row ≡ self.old.belt.width) }
        ensures unchanged { IfNone result (self.new ≡ self.old) }
        ensures no_spare { self.old.held ≡ 0 → IsNone result }
        ensures no_more { length self.old.taken ≡ u64.MAX → IsNone result }
        ensures succeeds { 0 < self.old.held → length self.old.taken < u64.MAX →
            length self.old.taken < self.old.come → IsSome result }
    {
        if self.count == u64::MAX || self.spares.is_empty() {
            return None;
        }
        if !self.end.pop::<G>() {
            return None;
        }
        let Some(mut row) = self.spares.pop() else {
            unreachable!()
        };
        row.exchange_words(&mut self.end.words);
        self.count += 1;
        Some(row)
    }

    /// Looks at the other end, and then knows each row that was put.
    #[tactic(auto, using(crate::proofs::Parts::parts_length))]
    pub fn look_beside(&mut self, tx: &mut Tx<G>)
        requires one_belt { tx.old.belt ≡ self.old.belt }
        ensures looked { self.new ≡ record self.old { come = length tx.old.put } }
        ensures unchanged { tx.new ≡ tx.old }
    {
        self.end.ring.slots_beside(&mut tx.ring);
        self.looked = tx.count;
    }

    /// Keeps the row as a spare row, into which a later row may be taken. It is dropped if there is no
    /// room for it, or if its width is not the belt's. It never waits. That it takes no memory is tested.
    pub fn give(&mut self, row: Row<G>)
        ensures kept { length row ≡ self.old.belt.width →
            self.new ≡ record self.old { held = min self.old.most (self.old.held + 1) } }
        ensures dropped { length row ≢ self.old.belt.width → self.new ≡ self.old }
    {
        if row.width() == self.width && self.spares.len() < self.spares.capacity() {
            self.spares.push_reserved(row);
        }
    }

    /// The number of spare rows held.
    pub fn held(&self) -> u32
        ensures value { result ≡ self.now.held }
        ensures few { result ≤ self.now.most }
    {
        self.spares.len() as u32
    }
}
