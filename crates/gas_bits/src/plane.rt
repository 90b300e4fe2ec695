//! A plane: a bit for each cell of a row, with zeros past the width, and the planes that a direction is
//! streamed from.
ghost use Rattle.std.specs.Prelude.{◌≡◌, ◌<◌, ◌≤◌, ◌*◌, ◌%◌, ◌+◌, ◌-◌, ◌&&◌, ℕ, IsTrue, false, nat_lt, length, slice_index_or, count_by};
ghost use Rattle.std.specs.List.{All, range_with_len};
ghost use Rattle.gas_geom.specs.Gas.{holds};
ghost use Rattle.gas_bits.specs.Words.{words_in, bit};

use crate::states::pack_word;
use crate::word::{clear_above, fill_word};

/// What decides which particles arrive in one direction of a row. Each plane has a word for every
/// 64 cells.
#[derive(Clone, Copy)]
pub struct Incoming<'a> {
    /// The direction in the row that the particles come from.
    pub plane: &'a [u64],
    /// The solid cells of that row.
    pub solid_there: &'a [u64],
    /// The opposite direction in the streamed row.
    pub opposite_here: &'a [u64],
    /// The solid cells of the streamed row.
    pub solid_here: &'a [u64],
    /// The number of cells of a row, 1 to 65536.
    pub width: u32,
    /// True only if no cell of the two rows is solid.
    pub all_fluid: bool,
    ghost some_cells: { 1 ≤ width },
    ghost few_cells: { width ≤ 65536 },
    ghost plane_long: { length plane.now ≡ words_in width },
    ghost there_long: { length solid_there.now ≡ words_in width },
    ghost opposite_long: { length opposite_here.now ≡ words_in width },
    ghost here_long: { length solid_here.now ≡ words_in width },
    ghost fluid_there: { IsTrue all_fluid → (x : ℕ) → bit solid_there.now x ≡ false },
    ghost fluid_here: { IsTrue all_fluid → (x : ℕ) → bit solid_here.now x ≡ false },
}

/// True only if all words are 0.
pub fn are_zero(words: &[u64]) -> bool
    ensures zero { IsTrue result → All (λ w. w ≡ 0) words.now }
{
    let mut any = 0;
    for word in words {
        any |= *word;
    }
    any == 0
}

/// Sets the bits of all cells to one value, and clears those past the width.
pub fn fill(words: &mut [u64], width: u32, value: bool)
    requires some_cells { 1 ≤ width }
    requires long { length words.old ≡ words_in width }
    ensures bits { (x : ℕ) → bit words.new x ≡ (nat_lt x width && value) }
{
    words.fill(fill_word(value));
    clear_past(words, width);
}

/// Writes the bits of these cells, and clears those past the width.
pub fn pack(cells: &[bool], words: &mut [u64])
    requires long { length words.old ≡ words_in (length cells.now) }
    ensures bits { (x : ℕ) → bit words.new x ≡ slice_index_or cells.now x false }
{
    for (j, word) in words.iter_mut().enumerate() {
        let end = cells.len().min(64 * j + 64);
        *word = pack_word(&cells[64 * j..end]);
    }
}

/// Clears the bits past the width.
pub fn clear_past(words: &mut [u64], width: u32)
    requires some_cells { 1 ≤ width }
    requires long { length words.old ≡ words_in width }
    ensures bits { (x : ℕ) → bit words.new x ≡ (nat_lt x width && bit words.old x) }
{
    let end = words.len() - 1;
    words[end] = clear_above(words[end], (width - 1) % 64);
}

// The number of set bits from `from` to `to - 1`.
#[inline(always)]
fn ones_in(word: u64, from: u32, to: u32) -> u32
    requires order { from ≤ to }
    requires begins { from < 64 }
    requires some { 1 ≤ to }
    requires within { to ≤ 64 }
    ensures { result ≡ count_by (holds word) (range_with_len from (to - from)) }
{
    (clear_above(word, to - 1) >> from).count_ones()
}

/// The number of cells in the columns from `from` to `to - 1` whose bit is set.
pub fn count_in(words: &[u64], from: u32, to: u32) -> u32
    requires order { from ≤ to }
    requires within { to ≤ 64 * length words.now }
    ensures count { result ≡ count_by (bit words.now) (range_with_len from (to - from)) }
{
    let mut total = 0;
    for j in from / 64..to.div_ceil(64) {
        let start = 64 * j;
        let first = from.max(start) - start;
        let end = (to - start).min(64);
        total += ones_in(words[j as usize], first, end);
    }
    total
}
