//! One word of 64 cells, bit by bit.
#![tactic(auto, using(crate::proofs::Bits::word_bits))]

ghost use Rattle.std.specs.Prelude.{◌≡◌, ◌+◌, ◌-◌, ◌*◌, ◌<◌, ◌≤◌, ◌==◌, ◌&&◌, ◌||◌, ℕ, not, nat_le, nat_lt, if◌then◌else◌, false, length, slice_index_or};
ghost use Rattle.gas_geom.specs.Gas.{holds};
ghost use Rattle.gas_bits.specs.Words.{words_in};

/// The number of words of a row of 0 to 65536 cells.
#[inline(always)]
pub fn words_for(width: u32) -> usize
    requires few_cells { width ≤ 65536 }
    ensures value { result ≡ words_in width }
{
    (width as usize + 63) / 64
}

/// Whether bit `bit`, 0 to 63, is 1.
#[inline(always)]
pub fn has_bit(word: u64, bit: u32) -> bool
    requires within { bit < 64 }
    ensures value { result ≡ holds word bit }
{
    (word >> bit) & 1 == 1
}

/// The word with bit `bit`, 0 to 63, set to a value.
#[inline(always)]
pub fn with_bit(word: u64, bit: u32, value: bool) -> u64
    requires within { bit < 64 }
    ensures bits { (b : ℕ) → b < 64 → holds result b ≡ (if b == bit then value else holds word b) }
{
    if value {
        word | (1 << bit)
    } else {
        word & !(1 << bit)
    }
}

/// The word whose 64 bits have this value.
#[inline(always)]
pub(crate) fn fill_word(value: bool) -> u64
    ensures { (b : ℕ) → b < 64 → holds result b ≡ value }
{
    if value { u64::MAX } else { 0 }
}

/// The word with the bits above `last`, 0 to 63, cleared.
#[inline(always)]
pub(crate) fn clear_above(word: u64, last: u32) -> u64
    requires { last < 64 }
    ensures { (b : ℕ) → b < 64 → holds result b ≡ (nat_le b last && holds word b) }
{
    word & (u64::MAX >> (63 - last))
}

/// The word with the bits of the mask cleared.
#[inline(always)]
pub(crate) fn clear_bits(word: u64, mask: u64) -> u64
    ensures { (b : ℕ) → b < 64 → holds result b ≡ (holds word b && not (holds mask b)) }
{
    word & !mask
}

/// The western neighbours of the cells of a word. That of the first one is bit 63 of `before`.
#[inline(always)]
pub(crate) fn from_west(word: u64, before: u64) -> u64
    ensures { (b : ℕ) → b < 64 → holds result b
        ≡ (if b == 0 then holds before 63 else holds word (b - 1)) }
{
    (word << 1) | (before >> 63)
}

/// The eastern neighbours of the cells of a word up to bit `last`. That of the last one is bit 0 of
/// `after`.
#[inline(always)]
pub(crate) fn from_east(word: u64, last: u32, after: u64) -> u64
    requires { last < 64 }
    ensures { (b : ℕ) → b ≤ last → holds result b
        ≡ (if b == last then holds after 0 else holds word (b + 1)) }
{
    (clear_above(word, last) >> 1) | (after << last)
}

/// A word whose bit 63 is bit `last`.
#[inline(always)]
pub(crate) fn with_last_bit_on_top(word: u64, last: u32) -> u64
    requires { last < 64 }
    ensures { holds result 63 ≡ holds word last }
{
    word << (63 - last)
}
