//! A belt with both its ends on one thread.
ghost use Rattle.std.specs.Prelude.{◌≡◌, ◌<◌, ◌≤◌, ◌++◌, ◌∷◌, [], None, length, IfOk};

use crate::ends::{PutEnd, TakeEnd};
use gas_geom::gas::Gas;
use gas_rows::row::Row;
use std::alloc::{AllocError, Global};
use std::collections::VecDeque;
use std::marker::Model;

/// A belt with both its ends on one thread. It stores only the rows under way, of any width. Its
/// memory is taken at the start.
#[derive(Drop)]
pub struct PlainBelt<G: Gas> {
    rows: VecDeque<Row<G>>,
    capacity: u32,
}

impl<G: Gas> Model for PlainBelt<G> {
    ghost use Rattle.std.specs.Prelude.{◌≤◌, length};
    ghost use Rattle.std.specs.VecDeque.{deque_capacity};
    ghost use Rattle.gas_pipe_members.specs.Belt.{BeltModel};

    ghost Value = { BeltModel };

    ghost view = { λ b. record { rows = b.rows.items; capacity = b.capacity } };

    ghost invariant = { λ b. record {
      some_places : b.capacity ≤ deque_capacity b.rows;
      few_rows : length b.rows.items ≤ b.capacity;
      few_places : b.capacity ≤ 1024;
    } };
}

impl<G: Gas> PlainBelt<G> {
    /// An empty belt for at most `capacity` rows, 1 to 1024.
    pub fn new(alloc: Global, capacity: u32) -> Result<Self, AllocError>
        requires some_places { 1 ≤ capacity }
        requires few_places { capacity ≤ 1024 }
        ensures made { IfOk result (λ b. b ≡ record { rows = []; capacity = capacity }) }
    {
        Ok(PlainBelt {
            rows: VecDeque::with_capacity(alloc, capacity as usize)?,
            capacity,
        })
    }

    /// The number of rows under way.
    pub fn len(&self) -> u32
        ensures value { result ≡ length self.now.rows }
        ensures few { result ≤ 1024 }
    {
        self.rows.len() as u32
    }
}

impl<G: Gas> PutEnd<Row<G>> for PlainBelt<G> {
    ghost puts = { λ old row new. (length old.rows < old.capacity)
        × (new ≡ record old { rows = old.rows ++ row ∷ [] }) };

    ghost ready = { λ belt. length belt.rows < belt.capacity };

    ghost lends = { λ old spare new. (spare ≡ None) × (new ≡ old) };

    fn try_put(&mut self, row: Row<G>) -> Result<(), Row<G>> {
        if self.rows.len() < self.capacity as usize {
            self.rows.push_back_reserved(row);
            Ok(())
        } else {
            Err(row)
        }
    }

    fn spare(&mut self) -> Option<Row<G>> {
        None
    }
}

impl<G: Gas> TakeEnd<Row<G>> for PlainBelt<G> {
    ghost takes = { λ old row new. old ≡ record new { rows = row ∷ new.rows } };

    ghost ready = { λ belt. 0 < length belt.rows };

    ghost gets = { λ old row new. new ≡ old };

    fn try_take(&mut self) -> Option<Row<G>> {
        self.rows.pop_front()
    }

    fn give(&mut self, row: Row<G>) {
        drop(row);
    }
}
