//! The streaming of one direction of a row, four words at a time.
ghost use Rattle.std.specs.Prelude.{◌≡◌, ℕ, ◌+◌, ◌-◌, ◌*◌, ◌<◌, ◌≤◌, ◌==◌, if◌then◌else◌, max, IsTrue, not, false, length, slice_index};
ghost use Rattle.gas_geom.specs.declared.moves.Move.{Move};
ghost use Rattle.gas_geom.specs.declared.moves.Move.TheVariants.{Back, Stay, On};
ghost use Rattle.gas_geom.specs.Moves.{column_after};
ghost use Rattle.gas_geom.specs.Gas.{holds};
ghost use Rattle.gas_bits.specs.Words.{words_in, bit};
ghost use Rattle.gas_bits.specs.Shift.{AreStreamed, IsPlace, streamed_cell};
ghost use Rattle.gas_bits.specs.Inner.Streamed.{AreBeside, AreFourBeside};

use crate::plane::Incoming;
use crate::word::{from_east, from_west, with_last_bit_on_top, words_for};
use gas_geom::moves::Move;
use gas_geom::word::Word;
use std::simd::prelude::*;

// The words of a row of fewer than four words, with zeros past its end. Not inlined, since few rows are
// as short.
#[inline(never)]
fn few_at(words: &[u64]) -> u64x4
    requires { length words.now < 4 }
    ensures { (l : ℕ) → l < 4 → slice_index result l ≡ slice_index words.now l }
{
    let one = words.first().copied().unwrap_or(0);
    let two = words.get(1).copied().unwrap_or(0);
    let three = words.get(2).copied().unwrap_or(0);
    u64x4::from_array([one, two, three, 0])
}

// Words `j` to `j + 3` of a row that has them.
#[inline(always)]
fn four_of(words: &[u64], j: usize) -> u64x4
    requires within { j + 4 ≤ length words.now }
    ensures { (l : ℕ) → l < 4 → slice_index result l ≡ slice_index words.now (j + l) }
{
    u64x4::from_slice(&words[j..j + 4])
}

/// Words `j` to `j + 3` of a row of `n` words, with zeros past its end. Only a row of fewer than four
/// words is read past its end.
#[inline(always)]
pub fn four_at(words: &[u64], n: usize, j: usize) -> u64x4
    requires long { length words.now ≡ n }
    requires within { j + 4 ≤ max 4 n }
    ensures words { (l : ℕ) → l < 4 → slice_index result l ≡ slice_index words.now (j + l) }
{
    if n < 4 {
        few_at(words)
    } else {
        four_of(words, j)
    }
}

// The western neighbours of the cells of four words. That of the first cell of each is bit 63 of the
// word in `before`.
#[inline(always)]
fn four_from_west(before: u64x4, here: u64x4) -> u64x4
    ensures { (l : ℕ) → l < 4 → (b : ℕ) → b < 64 → holds (slice_index result l) b
        ≡ (if b == 0 then holds (slice_index before l) 63 else holds (slice_index here l) (b - 1)) }
{
    (here << u64x4::splat(1)) | (before >> u64x4::splat(63))
}

// The eastern neighbours of the cells of four words. That of the last cell of each is bit 0 of the
// word in `after`.
#[inline(always)]
fn four_from_east(here: u64x4, after: u64x4) -> u64x4
    ensures { (l : ℕ) → l < 4 → (b : ℕ) → b ≤ 63 → holds (slice_index result l) b
        ≡ (if b == 63 then holds (slice_index after l) 0 else holds (slice_index here l) (b + 1)) }
{
    (here >> u64x4::splat(1)) | (after << u64x4::splat(63))
}

// Four words whose top bits are the cells west of words `j` to `j + 3`. West of a row's first cell lies
// its last.
#[inline(always)]
fn four_before(words: &[u64], here: u64x4, width: u32, j: usize, inner: bool) -> u64x4
    requires some_cells { 1 ≤ width }
    requires few_cells { width ≤ 65536 }
    requires long { length words.now ≡ words_in width }
    requires within { j + 4 ≤ max 4 (words_in width) }
    requires here { (l : ℕ) → l < 4 → slice_index here l ≡ slice_index words.now (j + l) }
    requires inner { IsTrue inner → 1 ≤ j }
    ensures { (l : ℕ) → l < 4 → 64 * (j + l) < width → holds (slice_index result l) 63
        ≡ bit words.now (column_after width (64 * (j + l)) Back) }
{
    if inner || j > 0 {
        return four_of(words, j - 1);
    }
    let n = words_for(width);
    let [one, two, three, _] = here.to_array();
    let last = with_last_bit_on_top(words[n - 1], (width - 1) % 64);
    u64x4::from_array([last, one, two, three])
}

// The eastern neighbours of the cells of words `j` to `j + 3`.
#[inline(always)]
fn east_of(words: &[u64], here: u64x4, width: u32, j: usize, inner: bool) -> u64x4
    requires some_cells { 1 ≤ width }
    requires few_cells { width ≤ 65536 }
    requires long { length words.now ≡ words_in width }
    requires within { j + 4 ≤ max 4 (words_in width) }
    requires here { (l : ℕ) → l < 4 → slice_index here l ≡ slice_index words.now (j + l) }
    requires inner { IsTrue inner → j + 4 < words_in width }
    ensures { AreFourBeside words.now width On j result }
{
    let n = words_for(width);
    if inner || j + 4 < n {
        return four_from_east(here, four_of(words, j + 1));
    }
    let [_, two, three, four] = here.to_array();
    let after = u64x4::from_array([two, three, four, 0]);
    let mut beside = four_from_east(here, after).to_array();
    let last = east_of_last(words, width);
    if n >= 4 {
        // At a place that it does not know a compiler would write into memory.
        let [one, two, three, _] = beside;
        return u64x4::from_array([one, two, three, last]);
    }
    beside[(n - 1).min(3)] = last;
    u64x4::from_array(beside)
}

// The eastern neighbours of the cells of the last word.
#[inline(always)]
fn east_of_last(words: &[u64], width: u32) -> u64
    requires some_cells { 1 ≤ width }
    requires long { length words.now ≡ words_in width }
    ensures { AreBeside words.now width On (length words.now - 1) result }
{
    from_east(words[words.len() - 1], (width - 1) % 64, words[0])
}

// The neighbours of the cells of words `j` to `j + 3` to which a move leads. True for `inner` leaves out
// what only the row's first and last words need.
#[inline(always)]
fn four_beside(along: Move, words: &[u64], width: u32, j: usize, inner: bool) -> u64x4
    requires some_cells { 1 ≤ width }
    requires few_cells { width ≤ 65536 }
    requires long { length words.now ≡ words_in width }
    requires place { IsPlace width j inner }
    ensures beside { (l b : ℕ) → l < 4 → b < 64 → 64 * (j + l) + b < width →
        holds (slice_index result l) b ≡ bit words.now (column_after width (64 * (j + l) + b) along) }
{
    let here = four_at(words, words_for(width), j);
    match along {
        Move::Back => four_from_west(four_before(words, here, width, j, inner), here),
        Move::Stay => here,
        Move::On => east_of(words, here, width, j, inner),
    }
}

// The neighbours of the cells of word `j` to which a move leads.
#[inline(always)]
fn word_beside(along: Move, words: &[u64], width: u32, j: usize) -> u64
    requires some_cells { 1 ≤ width }
    requires few_cells { width ≤ 65536 }
    requires long { length words.now ≡ words_in width }
    requires within { j < words_in width }
    ensures { AreBeside words.now width along j result }
{
    match along {
        Move::Back => from_west(words[j], word_before(words, width, j)),
        Move::Stay => words[j],
        Move::On => word_east_of(words, width, j),
    }
}

// A word whose top bit is the cell west of word `j`. West of a row's first cell lies its last.
#[inline(always)]
fn word_before(words: &[u64], width: u32, j: usize) -> u64
    requires some_cells { 1 ≤ width }
    requires few_cells { width ≤ 65536 }
    requires long { length words.now ≡ words_in width }
    requires within { j < words_in width }
    ensures { holds result 63 ≡ bit words.now (column_after width (64 * j) Back) }
{
    if j == 0 {
        with_last_bit_on_top(words[words.len() - 1], (width - 1) % 64)
    } else {
        words[j - 1]
    }
}

// The eastern neighbours of the cells of word `j`.
#[inline(always)]
fn word_east_of(words: &[u64], width: u32, j: usize) -> u64
    requires some_cells { 1 ≤ width }
    requires few_cells { width ≤ 65536 }
    requires long { length words.now ≡ words_in width }
    requires within { j < words_in width }
    ensures { AreBeside words.now width On j result }
{
    if j + 1 < words.len() {
        from_east(words[j], 63, words[j + 1])
    } else {
        east_of_last(words, width)
    }
}

// What cells hold after streaming: what arrives, but the opposite direction if the cell that it would
// come from is solid (`blocked`: bounce-back), and nothing at solid cells.
#[inline(always)]
fn bounce<W: Word>(arriving: W, blocked: W, opposite: W, solid: W) -> W
    ensures { (c : ℕ) → c < W.cells → W.bit result c
        ≡ (if W.bit solid c then false
        else if W.bit blocked c then W.bit opposite c
        else W.bit arriving c) }
{
    let kept = arriving.and(blocked.not());
    let sent_back = blocked.and(opposite);
    kept.or(sent_back).and(solid.not())
}

/// Words `j` to `j + 3` of a direction after streaming. The move leads along the row to where the
/// particles come from. True for `inner` leaves out what only the row's first and last words need. Bits
/// past the width are left open.
#[inline(always)]
pub fn stream_four<'a>(along: Move, incoming: &Incoming<'a>, j: usize, inner: bool) -> u64x4
    requires place { IsPlace incoming.now.width j inner }
    ensures streamed { AreStreamed incoming.now along j result }
{
    let arriving = four_beside(along, incoming.plane, incoming.width, j, inner);
    if incoming.all_fluid {
        return arriving;
    }
    let n = words_for(incoming.width);
    let blocked = four_beside(along, incoming.solid_there, incoming.width, j, inner);
    let opposite = four_at(incoming.opposite_here, n, j);
    bounce(
        arriving,
        blocked,
        opposite,
        four_at(incoming.solid_here, n, j),
    )
}

/// Word `j` of a direction after streaming. Bits past the width are left open.
#[inline(always)]
pub fn stream_word<'a>(along: Move, incoming: &Incoming<'a>, j: usize) -> u64
    requires within { j < words_in incoming.now.width }
    ensures streamed { (b : ℕ) → b < 64 → 64 * j + b < incoming.now.width →
        holds result b ≡ streamed_cell incoming.now along (64 * j + b) }
{
    let arriving = word_beside(along, incoming.plane, incoming.width, j);
    if incoming.all_fluid {
        return arriving;
    }
    let blocked = word_beside(along, incoming.solid_there, incoming.width, j);
    bounce(
        arriving,
        blocked,
        incoming.opposite_here[j],
        incoming.solid_here[j],
    )
}
