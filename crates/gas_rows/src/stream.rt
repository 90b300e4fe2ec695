//! The streaming of a row, wherever walls and solid cells are: every particle moves along its link,
//! or is sent back if the link ends at a solid cell or the wall.
ghost use Rattle.std.specs.Prelude.{◌≡◌, ◌+◌, ◌-◌, ◌*◌, ◌/◌, ◌%◌, ◌<◌, ◌≤◌, ◌==◌, ℕ, max, false, take, drop, IsTrue, length, slice_index};
ghost use Rattle.gas_geom.specs.declared.size.TheConstants.{MOST_SIDE};
ghost use Rattle.gas_bits.specs.Words.{words_in, bit};
ghost use Rattle.gas_bits.specs.Shift.{IsPlace};
ghost use Rattle.gas_geom.specs.Channel.{ChannelModel};
ghost use Rattle.gas_geom.specs.Laws.Steps.{is_odd};
ghost use Rattle.gas_rows.specs.Inner.Beside.{row_beside};
ghost use Rattle.gas_rows.specs.Inner.Planes.{IsClear};

use crate::collision::directions;
use gas_bits::plane::Incoming;
use gas_bits::planes::{clear_planes_past, write_four_at, write_planes_at};
use gas_bits::stream::{four_at, stream_four, stream_word};
use gas_bits::word::words_for;
use gas_geom::gas::Gas;
use gas_geom::moves::{Move, moves};
use std::simd::prelude::*;

/// Row `y` of a channel between the rows beside it, all of them collided: the words of these rows,
/// those of direction 0 first, and of their solid cells. Past a wall all cells are solid, and the
/// words of any row serve.
#[derive(Clone, Copy)]
pub struct Neighbourhood<'a> {
    pub above: &'a [u64],
    pub middle: &'a [u64],
    pub below: &'a [u64],
    pub solid_above: &'a [u64],
    pub solid_middle: &'a [u64],
    pub solid_below: &'a [u64],
    /// The number of cells of a row.
    pub width: u32,
    pub y: u32,
    /// True only if no cell of the three rows is solid.
    pub all_fluid: bool,
    ghost some_cells: { 1 ≤ width },
    ghost few_cells: { width ≤ MOST_SIDE },
    ghost solid_above_long: { length solid_above.now ≡ words_in width },
    ghost solid_middle_long: { length solid_middle.now ≡ words_in width },
    ghost solid_below_long: { length solid_below.now ≡ words_in width },
    ghost fluid_above: { IsTrue all_fluid → (x : ℕ) → bit solid_above.now x ≡ false },
    ghost fluid_middle: { IsTrue all_fluid → (x : ℕ) → bit solid_middle.now x ≡ false },
    ghost fluid_below: { IsTrue all_fluid → (x : ℕ) → bit solid_below.now x ≡ false },
}

// The one of three rows that a move leads to from the middle one.
#[inline(always)]
fn row_beside<'a>(down: Move, above: &'a [u64], middle: &'a [u64], below: &'a [u64]) -> &'a [u64]
    ensures row { result.now ≡ row_beside down above.now middle.now below.now }
{
    match down {
        Move::Back => above,
        Move::Stay => middle,
        Move::On => below,
    }
}

// The words of direction `i` of a row.
#[inline(always)]
fn plane(words: &[u64], dirs: usize, i: u32, words_each: usize) -> &[u64]
    requires direction { i < dirs }
    requires long { length words.now ≡ dirs * words_each }
    ensures part { result.now ≡ take words_each (drop (i * words_each) words.now) }
    ensures long { length result.now ≡ words_each }
{
    let start = i as usize * words_each;
    &words[start..start + words_each]
}

static ZEROS: [u64; 1024] = [0; 1024];

// The solid cells of a row that has none.
#[inline(always)]
fn no_solid(words_each: usize) -> &'static [u64]
    requires few_words { words_each ≤ words_in MOST_SIDE }
    ensures long { length result.now ≡ words_each }
    ensures none { (x : ℕ) → bit result.now x ≡ false }
{
    &ZEROS[..words_each]
}

// The kinds of rows. A compiler puts a function with one caller into it however long it is, and then knows there
// what the caller knows. So there is a copy of each long function for each `KIND`.
const FLUID_ODD_COLLIDES: u8 = 0;

const FLUID_ODD: u8 = 1;

const FLUID_EVEN_COLLIDES: u8 = 2;

const FLUID_EVEN: u8 = 3;

const SOLID_ODD: u8 = 4;

const SOLID_EVEN: u8 = 5;

// What is the same for all words of a row.
#[derive(Clone, Copy)]
struct Kernel<'a, 'b> {
    rows: Neighbourhood<'a>,
    odd: bool,
    // The random bits of the collision that follows, if one does.
    chi: &'b [u64],
    collides: bool,
    ghost parity: { odd ≡ is_odd rows.y },
    ghost chi_long: { IsTrue collides → length chi.now ≡ words_in rows.width },
}

impl<'a, 'b> Kernel<'a, 'b> {
    ghost use Rattle.gas_geom.specs.Lattice.{streamed};
    ghost use Rattle.gas_geom.specs.Gas.{holds};
    ghost use Rattle.gas_bits.specs.Planes.{four_has, state};
    ghost use Rattle.gas_rows.specs.Streaming.{AreWordsAbout, AreRowsLong};
    ghost use Rattle.gas_bits.specs.Shift.{streamed_cell};
    ghost use Rattle.gas_rows.specs.Inner.Streaming.{AreAdvanced, AreEndsAdvanced, IsAdvanced};

    // What decides which particles arrive in direction `i`, and the move along the row to where they come from.
    #[inline(always)]
    fn incoming<G: Gas>(&self, i: u32) -> (Move, Incoming<'a>)
        requires rows { AreRowsLong G.rules.dirs self.now.rows }
        requires direction { i < G.rules.dirs }
        ensures wide { result.1.width ≡ self.now.rows.width }
        ensures streamed { (channel : ChannelModel) (at : ℕ → ℕ → ℕ) →
            AreWordsAbout G.rules.dirs channel at self.now.rows → (x : ℕ) → x < channel.width →
            streamed_cell result.1 result.0 x ≡ holds (streamed G.rules channel at x self.now.rows.y) i }
    {
        let rows = self.rows;
        let dirs = directions::<G>();
        let words_each = words_for(rows.width);
        let opposite = G::opposite(i);
        let (along, down) = moves::<G>(opposite, self.odd);
        let from = row_beside(down, rows.above, rows.middle, rows.below);
        let solid_there = row_beside(down, rows.solid_above, rows.solid_middle, rows.solid_below);
        let opposite_here = plane(rows.middle, dirs, opposite, words_each);
        let incoming = Incoming {
            plane: plane(from, dirs, i, words_each),
            solid_there,
            opposite_here,
            solid_here: rows.solid_middle,
            width: rows.width,
            all_fluid: rows.all_fluid,
        };
        (along, incoming)
    }

    // Word `j` of direction `i` after streaming, and 0 if the gas has no such direction.
    #[inline(always)]
    fn stream_word<G: Gas>(&self, i: u32, j: usize) -> u64
        requires rows { AreRowsLong G.rules.dirs self.now.rows }
        requires within { j < words_in self.now.rows.width }
        ensures { (channel : ChannelModel) (at : ℕ → ℕ → ℕ) →
            AreWordsAbout G.rules.dirs channel at self.now.rows → i < G.rules.dirs → (b : ℕ) → b < 64 →
            64 * j + b < channel.width →
            holds result b ≡ holds (streamed G.rules channel at (64 * j + b) self.now.rows.y) i }
    {
        if i >= G::DIRS {
            return 0;
        }
        let (along, incoming) = self.incoming::<G>(i);
        stream_word(along, &incoming, j)
    }

    // Words `j` to `j + 3` of direction `i` after streaming, and zeros if the gas has no such direction.
    #[inline(always)]
    fn stream_four<G: Gas>(&self, i: u32, j: usize, inner: bool) -> u64x4
        requires rows { AreRowsLong G.rules.dirs self.now.rows }
        requires place { IsPlace self.now.rows.width j inner }
        ensures { (channel : ChannelModel) (at : ℕ → ℕ → ℕ) →
            AreWordsAbout G.rules.dirs channel at self.now.rows → i < G.rules.dirs → (c : ℕ) → c < 256 →
            64 * j + c < channel.width → holds (slice_index result (c / 64)) (c % 64)
            ≡ holds (streamed G.rules channel at (64 * j + c) self.now.rows.y) i }
    {
        if i >= G::DIRS {
            return u64x4::splat(0);
        }
        let (along, incoming) = self.incoming::<G>(i);
        stream_four(along, &incoming, j, inner)
    }

    // Word `j` of each direction after streaming.
    #[inline(always)]
    fn stream_words<G: Gas, const KIND: u8>(&self, j: usize) -> [u64; 8]
        requires rows { AreRowsLong G.rules.dirs self.now.rows }
        requires within { j < words_in self.now.rows.width }
        ensures { (channel : ChannelModel) (at : ℕ → ℕ → ℕ) →
            AreWordsAbout G.rules.dirs channel at self.now.rows → (i b : ℕ) → i < G.rules.dirs → b < 64 →
            64 * j + b < channel.width → holds (slice_index result i) b
            ≡ holds (streamed G.rules channel at (64 * j + b) self.now.rows.y) i }
    {
        [
            self.stream_word::<G>(0, j),
            self.stream_word::<G>(1, j),
            self.stream_word::<G>(2, j),
            self.stream_word::<G>(3, j),
            self.stream_word::<G>(4, j),
            self.stream_word::<G>(5, j),
            self.stream_word::<G>(6, j),
            self.stream_word::<G>(7, j),
        ]
    }

    // Words `j` to `j + 3` of each direction after streaming.
    #[inline(always)]
    fn stream_planes<G: Gas, const KIND: u8, const INNER: bool>(&self, j: usize) -> [u64x4; 8]
        requires rows { AreRowsLong G.rules.dirs self.now.rows }
        requires place { IsPlace self.now.rows.width j INNER }
        ensures { (channel : ChannelModel) (at : ℕ → ℕ → ℕ) →
            AreWordsAbout G.rules.dirs channel at self.now.rows → (i c : ℕ) → i < G.rules.dirs → c < 256 →
            64 * j + c < channel.width → four_has result i c
            ≡ holds (streamed G.rules channel at (64 * j + c) self.now.rows.y) i }
    {
        // Written out: with a constant direction a compiler knows its step.
        [
            self.stream_four::<G>(0, j, INNER),
            self.stream_four::<G>(1, j, INNER),
            self.stream_four::<G>(2, j, INNER),
            self.stream_four::<G>(3, j, INNER),
            self.stream_four::<G>(4, j, INNER),
            self.stream_four::<G>(5, j, INNER),
            self.stream_four::<G>(6, j, INNER),
            self.stream_four::<G>(7, j, INNER),
        ]
    }

    // Writes words `j` to `j + 3` of each direction, which arrived there, after the collision that follows
    // if one does. Bits past the width are left open.
    #[inline(always)]
    fn put_four<G: Gas>(&self, j: usize, arrived: [u64x4; 8], out: &mut [u64])
        requires within { j + 4 ≤ max 4 (words_in self.now.rows.width) }
        requires arrived { (channel : ChannelModel) (at : ℕ → ℕ → ℕ) →
            AreWordsAbout G.rules.dirs channel at self.now.rows → (i c : ℕ) → i < G.rules.dirs → c < 256 →
            64 * j + c < channel.width → four_has arrived i c
            ≡ holds (streamed G.rules channel at (64 * j + c) self.now.rows.y) i }
        requires long { length out.old ≡ G.rules.dirs * words_in self.now.rows.width }
        ensures long { length out.new ≡ length out.old }
        ensures advanced { (channel : ChannelModel) (at : ℕ → ℕ → ℕ) →
            AreWordsAbout G.rules.dirs channel at self.now.rows →
            AreAdvanced G.rules channel at self.now j (j + 4) out.old out.new }
    {
        let dirs = directions::<G>();
        let words_each = words_for(self.rows.width);
        let planes = if self.collides {
            G::collide_planes(arrived, four_at(self.chi, words_each, j))
        } else {
            arrived
        };
        write_four_at(out, words_each, dirs, j, planes, u64x4::splat(0));
    }

    // Writes word `j` of each direction after streaming and, if one follows, the collision. Bits past the width
    // are left open.
    #[inline(always)]
    fn write_word<G: Gas, const KIND: u8>(&self, j: usize, out: &mut [u64])
        requires rows { AreRowsLong G.rules.dirs self.now.rows }
        requires within { j < words_in self.now.rows.width }
        requires long { length out.old ≡ G.rules.dirs * words_in self.now.rows.width }
        ensures long { length out.new ≡ length out.old }
        ensures advanced { (channel : ChannelModel) (at : ℕ → ℕ → ℕ) →
            AreWordsAbout G.rules.dirs channel at self.now.rows →
            AreAdvanced G.rules channel at self.now j (j + 1) out.old out.new }
    {
        let arrived = self.stream_words::<G, KIND>(j);
        let words = if self.collides {
            G::collide_planes(arrived, self.chi[j])
        } else {
            arrived
        };
        write_planes_at(
            out,
            words_for(self.rows.width),
            directions::<G>(),
            j,
            words,
            0,
        );
    }

    // Writes all words of a row, one at a time.
    #[inline(always)]
    fn write_words<G: Gas, const KIND: u8>(&self, out: &mut [u64])
        requires rows { AreRowsLong G.rules.dirs self.now.rows }
        requires long { length out.old ≡ G.rules.dirs * words_in self.now.rows.width }
        ensures long { length out.new ≡ length out.old }
        ensures advanced { (channel : ChannelModel) (at : ℕ → ℕ → ℕ) →
            AreWordsAbout G.rules.dirs channel at self.now.rows →
            AreAdvanced G.rules channel at self.now 0 (words_in self.now.rows.width) out.old out.new }
    {
        for j in 0..words_for(self.rows.width) {
            self.write_word::<G, KIND>(j, out);
        }
    }

    // Writes words `j` to `j + 3` of each direction after streaming and, if one follows, the collision. Bits
    // past the width are left open.
    #[inline(always)]
    fn write_four<G: Gas, const KIND: u8, const INNER: bool>(&self, j: usize, out: &mut [u64])
        requires rows { AreRowsLong G.rules.dirs self.now.rows }
        requires place { IsPlace self.now.rows.width j INNER }
        requires long { length out.old ≡ G.rules.dirs * words_in self.now.rows.width }
        ensures long { length out.new ≡ length out.old }
        ensures advanced { (channel : ChannelModel) (at : ℕ → ℕ → ℕ) →
            AreWordsAbout G.rules.dirs channel at self.now.rows →
            AreAdvanced G.rules channel at self.now j (j + 4) out.old out.new }
    {
        let arrived = self.stream_planes::<G, KIND, INNER>(j);
        self.put_four::<G>(j, arrived, out);
    }

    // Writes the first and the last four words of a row, which may overlap, since the row written is never
    // read for them.
    #[inline(always)]
    fn write_ends<G: Gas, const KIND: u8>(&self, out: &mut [u64])
        requires rows { AreRowsLong G.rules.dirs self.now.rows }
        requires long { length out.old ≡ G.rules.dirs * words_in self.now.rows.width }
        ensures long { length out.new ≡ length out.old }
        ensures advanced { (channel : ChannelModel) (at : ℕ → ℕ → ℕ) →
            AreWordsAbout G.rules.dirs channel at self.now.rows →
            AreEndsAdvanced G.rules channel at self.now 2 out.old out.new }
    {
        let last = words_for(self.rows.width).saturating_sub(4);
        let ends = if last == 0 { 1_usize } else { 2 };
        for k in 0..ends {
            let j = if k == 0 { 0 } else { last };
            self.write_four::<G, KIND, false>(j, out);
        }
    }

    // Writes the words of a row but the first and the last four.
    #[inline(always)]
    fn write_middle<G: Gas, const KIND: u8>(&self, out: &mut [u64])
        requires rows { AreRowsLong G.rules.dirs self.now.rows }
        requires long { length out.old ≡ G.rules.dirs * words_in self.now.rows.width }
        ensures long { length out.new ≡ length out.old }
        ensures advanced { (channel : ChannelModel) (at : ℕ → ℕ → ℕ) →
            AreWordsAbout G.rules.dirs channel at self.now.rows →
            AreAdvanced G.rules channel at self.now 4 (4 * max 1 ((words_in self.now.rows.width - 1) / 4)) out.old out.new }
    {
        let words_each = words_for(self.rows.width);
        if words_each <= 8 {
            return;
        }
        for k in 1..(words_each - 1) / 4 {
            self.write_four::<G, KIND, true>(4 * k, out);
        }
    }

    // Writes the words of a row after streaming and, if one follows, the collision. Bits past the width are 0.
    #[inline(always)]
    fn write_row<G: Gas, const KIND: u8>(&self, out: &mut [u64])
        requires rows { AreRowsLong G.rules.dirs self.now.rows }
        requires long { length out.old ≡ G.rules.dirs * words_in self.now.rows.width }
        ensures long { length out.new ≡ length out.old }
        ensures clear { IsClear G.rules.dirs self.now.rows.width out.new }
        ensures advanced { (channel : ChannelModel) (at : ℕ → ℕ → ℕ) →
            AreWordsAbout G.rules.dirs channel at self.now.rows →
            IsAdvanced G.rules channel self.now.collides self.now.chi.now at self.now.rows.width self.now.rows.y out.new }
    {
        if words_for(self.rows.width) < 4 {
            self.write_words::<G, KIND>(out);
        } else {
            self.write_ends::<G, KIND>(out);
            self.write_middle::<G, KIND>(out);
        }
        clear_planes_past(out, directions::<G>(), self.rows.width);
    }
}

impl<'a> Neighbourhood<'a> {
    ghost use Rattle.gas_bits.specs.Planes.{has, state};
    ghost use Rattle.gas_rows.specs.Streaming.{AreWordsAbout, AreRowsLong, advanced};
    ghost use Rattle.gas_rows.specs.Inner.Streaming.{AreFluidRowsAbout, IsAdvanced};

    /// Writes the words of the row after streaming and, if it `collides`, the collision that follows, by
    /// these random bits. Bits past the width are 0.
    #[inline(always)]
    pub fn advance<G: Gas>(&self, chi: &[u64], collides: bool, out: &mut [u64])
        requires rows { AreRowsLong G.rules.dirs self.now }
        requires chi_long { IsTrue collides → length chi.now ≡ words_in self.now.width }
        requires long { length out.old ≡ G.rules.dirs * words_in self.now.width }
        ensures long { length out.new ≡ length out.old }
        ensures clear { (i x : ℕ) → i < G.rules.dirs → self.now.width ≤ x →
            x < 64 * words_in self.now.width →
            has out.new (words_in self.now.width) i x ≡ false }
        ensures advanced { (channel : ChannelModel) (at : ℕ → ℕ → ℕ) →
            AreWordsAbout G.rules.dirs channel at self.now → (x : ℕ) → x < channel.width →
            state out.new (words_in self.now.width) G.rules.dirs x
            ≡ advanced G.rules channel collides (λ x y. bit chi.now x) at x self.now.y }
    {
        let (above, middle, below) = (self.above, self.middle, self.below);
        let (width, y) = (self.width, self.y);
        match (self.all_fluid, y % 2 == 1, collides) {
            (true, true, true) => Self::advance_fluid::<G, FLUID_ODD_COLLIDES>(
                above, middle, below, width, y, true, chi, true, out,
            ),
            (true, true, false) => Self::advance_fluid::<G, FLUID_ODD>(
                above, middle, below, width, y, true, chi, false, out,
            ),
            (true, false, true) => Self::advance_fluid::<G, FLUID_EVEN_COLLIDES>(
                above, middle, below, width, y, false, chi, true, out,
            ),
            (true, false, false) => Self::advance_fluid::<G, FLUID_EVEN>(
                above, middle, below, width, y, false, chi, false, out,
            ),
            (false, _, _) => self.advance_beside_solid::<G>(chi, collides, out),
        }
    }

    // Writes the words of row `y`, which is `odd` or not, after streaming and, if it `collides`, the collision
    // that follows, where no cell of the three rows is solid. Bits past the width are 0.
    #[inline(never)]
    fn advance_fluid<G: Gas, const KIND: u8>(
        above: &'a [u64],
        middle: &'a [u64],
        below: &'a [u64],
        width: u32,
        y: u32,
        odd: bool,
        chi: &[u64],
        collides: bool,
        out: &mut [u64],
    )
        requires some_cells { 1 ≤ width }
        requires few_cells { width ≤ MOST_SIDE }
        requires above { length above.now ≡ G.rules.dirs * words_in width }
        requires middle { length middle.now ≡ G.rules.dirs * words_in width }
        requires below { length below.now ≡ G.rules.dirs * words_in width }
        requires parity { odd ≡ is_odd y }
        requires chi_long { IsTrue collides → length chi.now ≡ words_in width }
        requires long { length out.old ≡ G.rules.dirs * words_in width }
        ensures long { length out.new ≡ length out.old }
        ensures clear { IsClear G.rules.dirs width out.new }
        ensures advanced { (channel : ChannelModel) (at : ℕ → ℕ → ℕ) →
            AreFluidRowsAbout G.rules.dirs channel at width y above.now middle.now below.now →
            IsAdvanced G.rules channel collides chi.now at width y out.new }
    {
        let solid = no_solid(words_for(width));
        let rows = Neighbourhood {
            above,
            middle,
            below,
            solid_above: solid,
            solid_middle: solid,
            solid_below: solid,
            width,
            y,
            all_fluid: true,
        };
        let kernel = Kernel {
            rows,
            odd,
            chi,
            collides,
        };
        kernel.write_row::<G, KIND>(out);
    }

    // The same beside solid cells. Takes a copy, which rows without them need not make.
    #[inline(never)]
    fn advance_beside_solid<G: Gas>(self, chi: &[u64], collides: bool, out: &mut [u64])
        requires rows { AreRowsLong G.rules.dirs self }
        requires chi_long { IsTrue collides → length chi.now ≡ words_in self.width }
        requires long { length out.old ≡ G.rules.dirs * words_in self.width }
        ensures long { length out.new ≡ length out.old }
        ensures clear { IsClear G.rules.dirs self.entry.width out.new }
        ensures advanced { (channel : ChannelModel) (at : ℕ → ℕ → ℕ) →
            AreWordsAbout G.rules.dirs channel at self.entry →
            IsAdvanced G.rules channel collides chi.now at self.entry.width self.entry.y out.new }
    {
        let rows = Neighbourhood {
            above: self.above,
            middle: self.middle,
            below: self.below,
            solid_above: self.solid_above,
            solid_middle: self.solid_middle,
            solid_below: self.solid_below,
            width: self.width,
            y: self.y,
            all_fluid: false,
        };
        let odd = rows.y % 2 == 1;
        let kernel = Kernel {
            rows,
            odd,
            chi,
            collides,
        };
        if odd {
            kernel.write_row::<G, SOLID_ODD>(out);
        } else {
            kernel.write_row::<G, SOLID_EVEN>(out);
        }
    }
}
