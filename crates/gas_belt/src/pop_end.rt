//! The end of a ring of words that rows are popped from.
ghost use Rattle.std.specs.Prelude.{◌≡◌, ◌+◌, ◌≤◌, ◌++◌, length, vec_len, IsTrue, IsFalse};
ghost use Rattle.rtrb.specs.Ends.{SameRing};
ghost use Rattle.rtrb.specs.Ring.{received, known_items};

use core::mem::replace_with;
use gas_geom::gas::Gas;
use rtrb::Consumer;
use std::marker::PhantomData;

/// The end of a ring that rows are popped from, with room for the words of one.
#[derive(Drop)]
pub(crate) struct PopEnd {
    pub ring: Consumer<u64>,
    pub words: Vec<u64>,
}

impl PopEnd {
    // By value, so that the compiler knows that no write of a word changes where the ring lies, and
    // copies several words at a time. For one gas, because the compiler inlines what has few callers.
    fn pop_by_value<G: Gas>(self, _gas: PhantomData<G>) -> (Self, bool)
        ensures ring { SameRing self.ring.end result.0.ring.end }
        ensures places { vec_len result.0.words ≡ vec_len self.words }
        ensures words { length result.0.words.items ≡ vec_len self.words }
        ensures popped { IsTrue result.1 →
            received result.0.ring ≡ received self.ring ++ result.0.words.items }
        ensures unchanged { IsFalse result.1 → received result.0.ring ≡ received self.ring }
        ensures known { length (received self.ring) + length (known_items self.ring)
            ≤ length (received result.0.ring) + length (known_items result.0.ring) }
        ensures succeeds { vec_len self.words ≤ length (known_items self.ring) → IsTrue result.1 }
    {
        let PopEnd {
            mut ring,
            mut words,
        } = self;
        let is_whole = ring.pop_entire_slice(&mut words).is_ok();
        (PopEnd { ring, words }, is_whole)
    }

    /// Pops the words of the next row, all or none. Returns whether the ring had them all.
    #[inline(always)]
    pub(crate) fn pop<G: Gas>(&mut self) -> bool
        ensures ring { SameRing self.old.ring.end self.new.ring.end }
        ensures places { vec_len self.new.words ≡ vec_len self.old.words }
        ensures words { length self.new.words.items ≡ vec_len self.old.words }
        ensures popped { IsTrue result →
            received self.new.ring ≡ received self.old.ring ++ self.new.words.items }
        ensures unchanged { IsFalse result → received self.new.ring ≡ received self.old.ring }
        ensures known { length (received self.old.ring) + length (known_items self.old.ring)
            ≤ length (received self.new.ring) + length (known_items self.new.ring) }
        ensures succeeds { vec_len self.old.words ≤ length (known_items self.old.ring) →
            IsTrue result }
    {
        // A try that finds no row is not worth a call.
        let row_words = self.words.len();
        if self.ring.cached_slots() < row_words && self.ring.slots() < row_words {
            return false;
        }
        replace_with(self, PhantomData::<G>, PopEnd::pop_by_value::<G>)
    }
}
