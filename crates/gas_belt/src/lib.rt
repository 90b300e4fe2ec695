//! Belts: rows go from one thread to one other, in order and each once.
//!
//! A belt is a *ring* of the *words* of its rows, with *places* for a number of rows. The cells of a
//! *spare* row may be overwritten.
#![tactic(auto)]

pub mod carried;
mod pop_end;
pub mod rx;
pub mod tx;

ghost use Rattle.std.specs.Prelude.{◌≡◌, ◌≤◌, [], IfOk, None};

use crate::pop_end::PopEnd;
use crate::rx::Rx;
use crate::tx::Tx;
use gas_geom::gas::Gas;
use gas_rows::row::{Row, zeros_apart};
use rtrb::RingBuffer;
use std::alloc::{AllocError, Global};

/// A belt for rows of `width` cells, 1 to 65536, with places for `capacity` rows, 1 to 1024: a
/// queue with a single producer and a single consumer. Returns its two ends, unused. Each may go to
/// a thread of its own. The end that rows are taken from has two spare rows, and room for two. All
/// memory of the belt is taken here. Each end frees its own rows, and the second end frees the ring.
pub fn belt<G: Gas>(alloc: Global, capacity: u32, width: u32) -> Result<(Tx<G>, Rx<G>), AllocError>
    requires some_places { 1 ≤ capacity }
    requires few_places { capacity ≤ 1024 }
    requires some_cells { 1 ≤ width }
    requires few_cells { width ≤ 65536 }
    ensures one_belt { IfOk result (λ r. r.0.belt ≡ r.1.belt) }
    ensures width { IfOk result (λ r. r.0.belt.width ≡ width) }
    ensures capacity { IfOk result (λ r. r.0.belt.capacity ≡ capacity) }
    ensures nothing_put { IfOk result (λ r. r.0.put ≡ []) }
    ensures no_spare { IfOk result (λ r. r.0.spare ≡ None) }
    ensures limit { IfOk result (λ r. r.0.limit ≡ r.0.belt.capacity) }
    ensures nothing_taken { IfOk result (λ r. r.1.taken ≡ []) }
    ensures two_spares { IfOk result (λ r. r.1.held ≡ 2) }
    ensures two_places { IfOk result (λ r. r.1.most ≡ 2) }
{
    let row = Row::<G>::blank(alloc, width)?;
    let words = zeros_apart(alloc, row.as_words().len())?;
    let (producer, consumer) = RingBuffer::new(alloc, capacity as usize * words.len())?;
    let pop_end = PopEnd {
        ring: consumer,
        words,
    };
    let mut rx = Rx::new(alloc, pop_end, width)?;
    rx.give(row);
    rx.give(Row::blank(alloc, width)?);
    Ok((Tx::new(producer, width), rx))
}
