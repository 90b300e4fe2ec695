//! Masks: a truth value for each cell of a row.
ghost use Rattle.std.specs.Prelude.{◌≡◌, ◌<◌, ◌≤◌, ◌+◌, ◌*◌, ◌/◌, ◌%◌, ◌^◌, ℕ, Bool, false, List, length, map, replicate, slice_index, slice_index_or, slice_set, count_by, IfOk, IsTrue};
ghost use Rattle.std.specs.List.{range_with_len};
ghost use Rattle.gas_geom.specs.Gas.{holds};
ghost use Rattle.gas_rows.specs.Key.{drawn_bit};
ghost use Rattle.gas_bits.specs.Words.{words_in, bit};

use crate::key;
use gas_bits::plane;
use gas_bits::word::{has_bit, with_bit, words_for};
use rand_chacha::ChaCha20Rng;
use std::alloc::{AllocError, Global};
use std::marker::Model;

/// A truth value for each cell of a row, 1 to 65536 of them.
#[derive(Drop)]
pub struct Mask {
    width: u32,
    words: Vec<u64>,
    // True only if no cell is true. False if that is not known.
    blank: bool,
}

impl Model for Mask {
    ghost use Rattle.std.specs.Prelude.{Bool, List};
    ghost use Rattle.gas_rows.specs.Inner.Mask.{cells, IsMask};

    ghost Value = { List Bool };

    ghost view = { λ m. cells m.width m.words.items };

    ghost invariant = { λ m. IsMask m.width m.blank m.words.items };
}

#[tactic(auto, using(crate::proofs::Masks::masks))]
impl Mask {
    /// A mask of 1 to 65536 cells that is false everywhere.
    pub fn blank(alloc: Global, width: u32) -> Result<Mask, AllocError>
        requires some_cells { 1 ≤ width }
        requires few_cells { width ≤ 65536 }
        ensures value { IfOk result (λ m. m ≡ replicate width false) }
    {
        let words = vec![in alloc; 0; words_for(width)]?;
        Ok(Mask {
            width,
            words,
            blank: true,
        })
    }

    /// An equal mask.
    pub fn copy(&self, alloc: Global) -> Result<Mask, AllocError>
        ensures equal { IfOk result (λ m. m ≡ self.now) }
    {
        Ok(Mask {
            width: self.width,
            words: self.words.as_slice().to_vec(alloc)?,
            blank: self.blank,
        })
    }

    /// The number of cells, 1 to 65536.
    pub fn width(&self) -> u32
        ensures value { result ≡ length self.now }
        ensures some_cells { 1 ≤ result }
        ensures few_cells { result ≤ 65536 }
    {
        self.width
    }

    /// The value in column `x`.
    pub fn get(&self, x: u32) -> bool
        requires within { x < length self.now }
        ensures value { result ≡ slice_index_or self.now x false }
    {
        has_bit(self.words[x as usize / 64], x % 64)
    }

    /// Sets the value in column `x`.
    pub fn set(&mut self, x: u32, value: bool)
        requires within { x < length self.old }
        ensures written { self.new ≡ slice_set self.old x value }
    {
        let at = x as usize / 64;
        self.words[at] = with_bit(self.words[at], x % 64, value);
        self.blank &= !value;
    }

    /// True only if no cell is true. It reads no word; after single cells were set it may return
    /// false for a mask in which no cell is true.
    pub fn is_blank(&self) -> bool
        ensures blank { IsTrue result → (x : ℕ) → slice_index_or self.now x false ≡ false }
    {
        self.blank
    }

    /// Word `j`, the values of the cells `64 * j` to `64 * j + 63`, the first in the least bit.
    /// Bits past the width are 0.
    pub fn word(&self, j: u32) -> u64
        requires within { j < words_in (length self.now) }
        ensures bits { (b : ℕ) → b < 64 → holds result b
            ≡ slice_index_or self.now (64 * j + b) false }
    {
        self.words[j as usize]
    }

    /// The values of all cells, 64 a word, the first in the least bit. Bits past the width are 0.
    pub fn words(&self) -> &[u64]
        ensures long { length result.now ≡ words_in (length self.now) }
        ensures bits { (x : ℕ) → bit result.now x ≡ slice_index_or self.now x false }
    {
        &self.words
    }

    /// Sets all values.
    pub(crate) fn copy_from(&mut self, cells: &[bool])
        requires { length cells.now ≡ length self.old }
        ensures { self.new ≡ cells.now }
    {
        plane::pack(cells, &mut self.words);
        self.blank = plane::are_zero(&self.words);
    }

    /// Sets all values to the same one.
    pub(crate) fn fill(&mut self, value: bool)
        ensures { self.new ≡ replicate (length self.old) value }
    {
        plane::fill(&mut self.words, self.width, value);
        self.blank = !value;
    }

    /// Sets the values to the next bits of a generator, 32 from each key word, the least first.
    pub(crate) fn draw(&mut self, generator: &mut ChaCha20Rng)
        requires { generator.old.word_pos + 2 * words_in (length self.old) < 2 ^ 68 }
        ensures key { generator.new.key ≡ generator.old.key }
        ensures cells { self.new
            ≡ map (drawn_bit generator.old) (range_with_len 0 (length self.old)) }
    {
        key::draw(&mut self.words, self.width, generator);
        self.blank = false;
    }

    /// The number of cells that are true.
    pub fn count(&self) -> u32
        ensures count { result ≡ count_by (λ b. b) self.now }
    {
        plane::count_in(&self.words, 0, self.width)
    }
}
