//! Rows: a state for each cell, held as bit planes.
ghost use Rattle.std.specs.Prelude.{◌≡◌, ◌≢◌, ◌⊎◌, ◌+◌, ◌*◌, ◌/◌, ◌<◌, ◌≤◌, ◌^◌, ℕ, List, length, replicate, slice_index, slice_index_or, slice_set, false, IsTrue, sum_by, if◌then◌else◌, vec_len, IfOk};
ghost use Rattle.gas_geom.specs.Gas.{holds, particles};
ghost use Rattle.gas_geom.specs.Channel.{ChannelModel};
ghost use Rattle.gas_geom.specs.Lattice.{row_of};
ghost use Rattle.gas_bits.specs.Words.{words_in};
ghost use Rattle.gas_rows.specs.Planes.{AreWordsOf, cells_of};
ghost use Rattle.gas_rows.specs.Streaming.{AreRowsLong, AreWordsAbout, advanced};

use crate::collision::{Collision, directions};
use crate::mask::Mask;
use crate::stream::Neighbourhood;
use gas_bits::planes::{
    clear_planes_past, empty_solid, load_states, load_words, planes_at, read_cell, write_cell,
};
use gas_bits::states::states_of;
use gas_bits::word::words_for;
use gas_geom::gas::Gas;
use std::alloc::{AllocError, Global};
use std::marker::{Model, PhantomData};
use std::mem;

// Words that stay unused behind those of a row, so that rows of different threads share no line of a
// cache, nor two that a processor fetches together (measured: bench/LOG.md).
const WORDS_APART: usize = 32;

/// This many zeros, which share no line of a cache with what comes after them in memory.
pub fn zeros_apart(alloc: Global, len: usize) -> Result<Vec<u64>, AllocError>
    ensures zeros { IfOk result (λ w. w.items ≡ replicate len 0) }
    ensures long { IfOk result (λ w. vec_len w ≡ len) }
{
    let mut words = vec![in alloc; 0u64; len.saturating_add(WORDS_APART)]?;
    words.truncate(len);
    Ok(words)
}

/// The states of the 1 to 65536 cells of a row, held as words of 64 cells for each direction.
#[derive(Drop)]
pub struct Row<G: Gas> {
    width: u32,
    words: Vec<u64>,
    gas: PhantomData<G>,
}

impl<G: Gas> Model for Row<G> {
    ghost use Rattle.std.specs.Prelude.{ℕ, List};
    ghost use Rattle.gas_rows.specs.Planes.{cells_of};
    ghost use Rattle.gas_rows.specs.Inner.Planes.{ArePlanes};

    ghost Value = { List ℕ };

    ghost view = { λ r. cells_of G.rules.dirs r.width r.words.items };

    ghost invariant = { λ r. ArePlanes G.rules.dirs r.width r.words.items };
}

#[tactic(auto, using(crate::proofs::Cells::rows))]
impl<G: Gas> Row<G> {
    /// A row of 1 to 65536 empty cells.
    pub fn blank(alloc: Global, width: u32) -> Result<Self, AllocError>
        requires some_cells { 1 ≤ width }
        requires few_cells { width ≤ 65536 }
        ensures value { IfOk result (λ r. r ≡ replicate width 0) }
    {
        Ok(Row {
            width,
            words: zeros_apart(alloc, directions::<G>() * words_for(width))?,
            gas: PhantomData,
        })
    }

    /// An equal row.
    pub fn copy(&self, alloc: Global) -> Result<Self, AllocError>
        ensures equal { IfOk result (λ r. r ≡ self.now) }
    {
        Ok(Row {
            width: self.width,
            words: self.words.as_slice().to_vec(alloc)?,
            gas: PhantomData,
        })
    }

    /// The number of cells, 1 to 65536.
    pub fn width(&self) -> u32
        ensures value { result ≡ length self.now }
        ensures some_cells { 1 ≤ result }
        ensures few_cells { result ≤ 65536 }
    {
        self.width
    }

    /// The state of the cell in column `x`.
    pub fn get(&self, x: u32) -> u8
        requires within { x < length self.now }
        ensures value { result ≡ slice_index self.now x }
        ensures state { result < 2 ^ G.rules.dirs }
    {
        read_cell(&self.words, words_for(self.width), directions::<G>(), x)
    }

    /// Sets the state of the cell in column `x`.
    pub fn set(&mut self, x: u32, state: u8)
        requires within { x < length self.old }
        requires state { state < 2 ^ G.rules.dirs }
        ensures written { self.new ≡ slice_set self.old x state }
    {
        let words_each = words_for(self.width);
        write_cell(&mut self.words, words_each, directions::<G>(), x, state);
    }

    /// Sets the states of all cells.
    pub(crate) fn copy_from(&mut self, states: &[u8])
        requires wide { length states.now ≡ length self.old }
        requires states { (x : ℕ) → slice_index states.now x < 2 ^ G.rules.dirs }
        ensures { self.new ≡ states.now }
    {
        let words_each = words_for(self.width);
        load_states(&mut self.words, words_each, directions::<G>(), states);
    }

    /// The number of particles.
    pub fn count(&self) -> u32
        ensures count { result ≡ sum_by (particles G.rules) self.now }
    {
        let mut total = 0;
        for word in &self.words {
            total += word.count_ones();
        }
        total
    }

    /// All words: those of direction 0, from the first cell on, then those of direction 1, and so
    /// on. A direction has a word for each 64 cells, the last one filled up with zeros.
    pub fn as_words(&self) -> &[u64]
        ensures words { AreWordsOf G.rules.dirs self.now result.now }
        ensures cells { cells_of G.rules.dirs (length self.now) result.now ≡ self.now }
    {
        &self.words
    }

    /// Writes all words in the order of `as_words`.
    pub fn words(&self, out: &mut [u64])
        requires long { length out.old ≡ G.rules.dirs * words_in (length self.now) }
        ensures words { AreWordsOf G.rules.dirs self.now out.new }
        ensures cells { cells_of G.rules.dirs (length self.now) out.new ≡ self.now }
    {
        out.copy_from_slice(self.as_words());
    }

    /// Sets all cells from words in the order of `as_words`. Bits past the width are dropped.
    pub fn load_words(&mut self, words: &[u64])
        requires long { length words.now ≡ G.rules.dirs * words_in (length self.old) }
        ensures wide { length self.new ≡ length self.old }
        ensures cells { self.new ≡ cells_of G.rules.dirs (length self.old) words.now }
    {
        load_words(&mut self.words, words, directions::<G>(), self.width);
    }

    /// Sets all cells from words in the order of `as_words`, and leaves the row's old words in
    /// their place, so that no word is copied. Bits past the width are dropped.
    pub fn exchange_words(&mut self, words: &mut Vec<u64>)
        requires long { vec_len words.old ≡ G.rules.dirs * words_in (length self.old) }
        ensures wide { length self.new ≡ length self.old }
        ensures cells { self.new ≡ cells_of G.rules.dirs (length self.old) words.old.items }
        ensures long { vec_len words.new ≡ vec_len words.old }
        ensures words { AreWordsOf G.rules.dirs self.old words.new.items }
    {
        mem::swap(&mut self.words, words);
        clear_planes_past(&mut self.words, directions::<G>(), self.width);
    }

    /// Word `j` of direction `i`, for the cells from `64 * j` on.
    pub fn plane_word(&self, i: u32, j: u32) -> u64
        requires direction { i < G.rules.dirs }
        requires within { j < words_in (length self.now) }
        ensures bits { (b : ℕ) → b < 64 → holds result b
            ≡ holds (slice_index self.now (64 * j + b)) i }
    {
        self.words[i as usize * words_for(self.width) + j as usize]
    }

    /// Sets word `j` of direction `i`. Bits past the width are dropped.
    pub fn set_plane_word(&mut self, i: u32, j: u32, word: u64)
        requires direction { i < G.rules.dirs }
        requires within { j < words_in (length self.old) }
        ensures wide { length self.new ≡ length self.old }
        ensures written { (b : ℕ) → b < 64 → 64 * j + b < length self.old →
            holds (slice_index self.new (64 * j + b)) i ≡ holds word b }
        ensures others { (x k : ℕ) → (x / 64 ≢ j) ⊎ (k ≢ i) →
            holds (slice_index self.new x) k ≡ holds (slice_index self.old x) k }
    {
        let words: &mut [u64] = &mut self.words;
        words[i as usize * words_for(self.width) + j as usize] = word;
        clear_planes_past(words, directions::<G>(), self.width);
    }

    /// The states of the 64 cells from `64 * j` on, 0 past the width.
    pub fn states64(&self, j: u32) -> [u8; 64]
        requires within { j < words_in (length self.now) }
        ensures states { (b : ℕ) → b < 64 → slice_index result b
            ≡ slice_index self.now (64 * j + b) }
    {
        let words_each = words_for(self.width);
        let planes = planes_at(&self.words, words_each, directions::<G>(), j as usize);
        states_of(planes, directions::<G>())
    }

    /// Empties the solid cells. The row and the mask have the same width.
    pub fn empty_solid(&mut self, solid: &Mask)
        requires wide { length solid.now ≡ length self.old }
        ensures emptied { self.new ≡ row_of (length self.old) (λ x.
            if slice_index_or solid.now x false then 0 else slice_index self.old x) }
        ensures states { (x : ℕ) → slice_index self.new x < 2 ^ G.rules.dirs }
    {
        let words_each = words_for(self.width);
        if !solid.is_blank() {
            empty_solid(
                &mut self.words,
                words_each,
                directions::<G>(),
                solid.words(),
            );
        }
    }

    /// Streams into this row and, if it `collides`, collides it by these random bits. The neighbourhood and
    /// the mask have its width.
    #[inline(always)]
    pub fn advance<'a>(&mut self, neighbourhood: &Neighbourhood<'a>, chi: &Mask, collides: bool)
        requires wide { neighbourhood.now.width ≡ length self.old }
        requires rows { AreRowsLong G.rules.dirs neighbourhood.now }
        requires chi_wide { length chi.now ≡ length self.old }
        ensures wide { length self.new ≡ length self.old }
        ensures advanced { (channel : ChannelModel) (at : ℕ → ℕ → ℕ) →
            AreWordsAbout G.rules.dirs channel at neighbourhood.now →
            self.new ≡ row_of channel.width (λ x. advanced G.rules channel collides
            (λ x y. slice_index_or chi.now x false) at x neighbourhood.now.y) }
    {
        neighbourhood.advance::<G>(chi.words(), collides, &mut self.words);
    }
}

/// Collides each fluid cell of a row by the gas's table with its random bit, and empties the solid
/// cells. The row and the masks have the same width.
#[tactic(auto, using(crate::proofs::Cells::rows))]
pub fn collide_row<G: Gas>(row: &mut Row<G>, solid: &Mask, chi: &Mask)
    requires solid_wide { length solid.now ≡ length row.old }
    requires chi_wide { length chi.now ≡ length row.old }
    ensures wide { length row.new ≡ length row.old }
    ensures collided { row.new ≡ row_of (length row.old) (λ x.
        if slice_index_or solid.now x false then 0
        else G.rules.collide (slice_index row.old x) (slice_index_or chi.now x false)) }
{
    let collision = Collision {
        words_each: words_for(row.width),
        solid: solid.words(),
        chi: chi.words(),
        all_fluid: solid.is_blank(),
    };
    collision.collide::<G>(&mut row.words);
}
