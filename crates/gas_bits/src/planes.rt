//! The planes of a row, one for each direction: the words of direction `i` are those from
//! `i * words_each` to `i * words_each + words_each - 1`.
ghost use Rattle.std.specs.Prelude.{◌≡◌, ◌+◌, ◌-◌, ◌*◌, ◌/◌, ◌<◌, ◌≤◌, ◌==◌, ◌&&◌, ℕ, ◌%◌, max, not, nat_le, nat_lt, if◌then◌else◌, length, slice_index};
ghost use Rattle.gas_geom.specs.Gas.{holds};
ghost use Rattle.gas_geom.specs.Planes.{ZeroFrom};
ghost use Rattle.gas_bits.specs.Words.{words_in, bit};
ghost use Rattle.gas_bits.specs.Planes.{has, state, four_has};

use crate::states::{planes_of, state_at};
use crate::stream::four_at;
use crate::word::{clear_above, clear_bits, has_bit, with_bit, words_for};
use std::simd::prelude::*;

/// The set of the directions that cell `x` holds.
#[inline(always)]
pub fn read_cell(words: &[u64], words_each: usize, dirs: usize, x: u32) -> u8
    requires few_words { words_each ≤ words_in 65536 }
    requires few_dirs { dirs ≤ 8 }
    requires long { length words.now ≡ dirs * words_each }
    requires within { x / 64 < words_each }
    ensures value { result ≡ state words.now words_each dirs x }
{
    let planes = planes_at(words, words_each, dirs, x as usize / 64);
    state_at(planes, dirs, x % 64)
}

/// Sets the directions that cell `x` holds.
#[inline(always)]
pub fn write_cell(words: &mut [u64], words_each: usize, dirs: usize, x: u32, set: u8)
    requires few_words { words_each ≤ words_in 65536 }
    requires few_dirs { dirs ≤ 8 }
    requires long { length words.old ≡ dirs * words_each }
    requires within { x / 64 < words_each }
    ensures written { (i y : ℕ) → i < dirs → y / 64 < words_each →
        has words.new words_each i y ≡ (if y == x then holds set i else has words.old words_each i y) }
{
    for i in 0..dirs {
        let at = i * words_each + x as usize / 64;
        words[at] = with_bit(words[at], x % 64, has_bit(u64::from(set), i as u32));
    }
}

/// Word `j` of each direction, and 0 for those past `dirs`.
#[inline(always)]
pub fn planes_at(words: &[u64], words_each: usize, dirs: usize, j: usize) -> [u64; 8]
    requires few_words { words_each ≤ words_in 65536 }
    requires few_dirs { dirs ≤ 8 }
    requires long { length words.now ≡ dirs * words_each }
    requires within { j < words_each }
    ensures planes { (i : ℕ) → i < dirs → slice_index result i
        ≡ slice_index words.now (i * words_each + j) }
    ensures rest { ZeroFrom dirs result }
{
    let mut planes = [0; 8];
    for i in 0..dirs {
        planes[i] = words[i * words_each + j];
    }
    planes
}

/// Writes word `j` of each direction, with zeros at solid cells.
#[inline(always)]
pub fn write_planes_at(
    words: &mut [u64],
    words_each: usize,
    dirs: usize,
    j: usize,
    planes: [u64; 8],
    solid: u64,
)
    requires few_words { words_each ≤ words_in 65536 }
    requires few_dirs { dirs ≤ 8 }
    requires long { length words.old ≡ dirs * words_each }
    requires within { j < words_each }
    ensures written { (i y : ℕ) → i < dirs → y / 64 < words_each →
        has words.new words_each i y
        ≡ (if y / 64 == j then holds (slice_index planes i) (y % 64) && not (holds solid (y % 64))
        else has words.old words_each i y) }
{
    for i in 0..dirs {
        words[i * words_each + j] = clear_bits(planes[i], solid);
    }
}

// Writes words `j` to `j + 3` of one of the directions, as far as it has them.
#[inline(always)]
fn put_four(words: &mut [u64], n: usize, j: usize, four: u64x4)
    requires long { length words.old ≡ n }
    requires within { j + 4 ≤ max 4 n }
    ensures { (k : ℕ) → k < n → slice_index words.new k
        ≡ (if nat_le j k && nat_lt k (j + 4) then slice_index four (k - j) else slice_index words.old k) }
{
    if n < 4 {
        let lanes = four.to_array();
        for l in 0..n {
            words[l] = lanes[l];
        }
    } else {
        four.copy_to_slice(&mut words[j..j + 4]);
    }
}

// The bits of four words that the mask has not.
#[inline(always)]
fn clear_four(four: u64x4, mask: u64x4) -> u64x4
    ensures { (l b : ℕ) → l < 4 → b < 64 → holds (slice_index result l) b
        ≡ (holds (slice_index four l) b && not (holds (slice_index mask l) b)) }
{
    four & !mask
}

/// Words `j` to `j + 3` of each direction, as far as it has them.
#[inline(always)]
pub fn four_planes_at(words: &[u64], words_each: usize, dirs: usize, j: usize) -> [u64x4; 8]
    requires few_words { words_each ≤ words_in 65536 }
    requires few_dirs { dirs ≤ 8 }
    requires long { length words.now ≡ dirs * words_each }
    requires within { j + 4 ≤ max 4 words_each }
    ensures planes { (i c : ℕ) → i < dirs → c < 256 → 64 * j + c < 64 * words_each →
        four_has result i c ≡ has words.now words_each i (64 * j + c) }
{
    let mut planes = [u64x4::splat(0); 8];
    for i in 0..dirs {
        let start = i * words_each;
        planes[i] = four_at(&words[start..start + words_each], words_each, j);
    }
    planes
}

/// Writes words `j` to `j + 3` of each direction, as far as it has them, with zeros at solid cells.
#[inline(always)]
pub fn write_four_at(
    words: &mut [u64],
    words_each: usize,
    dirs: usize,
    j: usize,
    planes: [u64x4; 8],
    solid: u64x4,
)
    requires few_words { words_each ≤ words_in 65536 }
    requires few_dirs { dirs ≤ 8 }
    requires long { length words.old ≡ dirs * words_each }
    requires within { j + 4 ≤ max 4 words_each }
    ensures written { (i y : ℕ) → i < dirs → y / 64 < words_each → has words.new words_each i y
        ≡ (if nat_le (64 * j) y && nat_lt y (64 * j + 256)
        then four_has planes i (y - 64 * j) && not (holds (slice_index solid ((y - 64 * j) / 64)) (y % 64))
        else has words.old words_each i y) }
{
    for i in 0..dirs {
        let start = i * words_each;
        let four = clear_four(planes[i], solid);
        put_four(&mut words[start..start + words_each], words_each, j, four);
    }
}

/// Clears the bits of solid cells in each direction.
pub fn empty_solid(words: &mut [u64], words_each: usize, dirs: usize, solid: &[u64])
    requires few_words { words_each ≤ words_in 65536 }
    requires few_dirs { dirs ≤ 8 }
    requires long { length words.old ≡ dirs * words_each }
    requires solid { length solid.now ≡ words_each }
    ensures emptied { (y : ℕ) → y / 64 < words_each →
        state words.new words_each dirs y
        ≡ (if bit solid.now y then 0 else state words.old words_each dirs y) }
{
    for j in 0..words_each {
        let planes = planes_at(words, words_each, dirs, j);
        write_planes_at(words, words_each, dirs, j, planes, solid[j]);
    }
}

/// Writes the states of all cells, and clears the bits past the width.
pub fn load_states(words: &mut [u64], words_each: usize, dirs: usize, states: &[u8])
    requires few_words { words_each ≤ words_in 65536 }
    requires few_dirs { dirs ≤ 8 }
    requires long { length words.old ≡ dirs * words_each }
    requires wide { words_in (length states.now) ≡ words_each }
    ensures loaded { (i y : ℕ) → i < dirs → y / 64 < words_each → has words.new words_each i y
        ≡ holds (slice_index states.now y) i }
{
    for j in 0..words_each {
        let end = states.len().min(64 * j + 64);
        let planes = planes_of(&states[64 * j..end], dirs);
        write_planes_at(words, words_each, dirs, j, planes, 0);
    }
}

/// Copies the words of a row, and clears the bits past its width.
pub fn load_words(words: &mut [u64], given: &[u64], dirs: usize, width: u32)
    requires some_cells { 1 ≤ width }
    requires few_cells { width ≤ 65536 }
    requires few_dirs { dirs ≤ 8 }
    requires long { length words.old ≡ dirs * words_in width }
    requires given { length given.now ≡ dirs * words_in width }
    ensures loaded { (i y : ℕ) → i < dirs → y / 64 < words_in width →
        has words.new (words_in width) i y
        ≡ (nat_lt y width && has given.now (words_in width) i y) }
{
    words.copy_from_slice(given);
    clear_planes_past(words, dirs, width);
}

/// Clears the bits past the width in each direction.
pub fn clear_planes_past(words: &mut [u64], dirs: usize, width: u32)
    requires some_cells { 1 ≤ width }
    requires few_cells { width ≤ 65536 }
    requires few_dirs { dirs ≤ 8 }
    requires long { length words.old ≡ dirs * words_in width }
    ensures cleared { (i y : ℕ) → i < dirs → y / 64 < words_in width →
        has words.new (words_in width) i y
        ≡ (nat_lt y width && has words.old (words_in width) i y) }
{
    if width % 64 == 0 {
        return;
    }
    let words_each = words_for(width);
    for i in 0..dirs {
        let at = i * words_each + (words_each - 1);
        words[at] = clear_above(words[at], (width - 1) % 64);
    }
}
