//! The collision of the words of a row, four words of each direction at a time.
ghost use Rattle.std.specs.Prelude.{◌≡◌, ◌+◌, ◌-◌, ◌*◌, ◌/◌, ◌<◌, ◌≤◌, ◌&&◌, ℕ, false, IsTrue, if◌then◌else◌, max, nat_le, nat_lt, length, replicate};
ghost use Rattle.gas_geom.specs.declared.size.TheConstants.{MOST_SIDE};
ghost use Rattle.gas_bits.specs.Words.{words_in, bit};

use gas_bits::planes::{four_planes_at, write_four_at};
use gas_bits::stream::four_at;
use gas_geom::gas::Gas;
use std::simd::prelude::*;

/// What a collision reads beside the words of a row: a word for each 64 cells.
#[derive(Clone, Copy)]
pub struct Collision<'a> {
    /// The number of words of a direction.
    pub words_each: usize,
    /// The solid cells, which are emptied.
    pub solid: &'a [u64],
    /// The random bits.
    pub chi: &'a [u64],
    /// True only if no cell is solid.
    pub all_fluid: bool,
    ghost few_words: { words_each ≤ words_in MOST_SIDE },
    ghost solid_long: { length solid.now ≡ words_each },
    ghost chi_long: { length chi.now ≡ words_each },
    ghost fluid: { IsTrue all_fluid → (y : ℕ) → bit solid.now y ≡ false },
}

impl<'a> Collision<'a> {
    ghost use Rattle.gas_geom.specs.Lanes.{lanes_hold};
    ghost use Rattle.gas_geom.specs.Planes.{set_in};
    ghost use Rattle.gas_bits.specs.Planes.{state};
    ghost use Rattle.gas_rows.specs.Collision.{collided_state};

    /// Collides each cell by the gas's table with its random bit, and empties the solid cells.
    #[inline(never)]
    pub fn collide<G: Gas>(&self, words: &mut [u64])
        requires long { length words.old ≡ G.rules.dirs * self.now.words_each }
        ensures collided { (y : ℕ) → y / 64 < self.now.words_each →
            state words.new self.now.words_each G.rules.dirs y
            ≡ collided_state G.rules self.now words.old y }
    {
        // A constant, so that a compiler leaves out the solid cells of a row that has none, and a copy, so
        // that it knows that no store through `words` changes it.
        let collision = *self;
        if collision.all_fluid {
            collision.collide_here::<G>(words, true);
        } else {
            collision.collide_here::<G>(words, false);
        }
    }

    /// Writes the cells of `from` after a collision, as `collide` does, and leaves `from` as it was.
    #[inline(never)]
    pub fn collide_into<G: Gas>(&self, from: &[u64], out: &mut [u64])
        requires from { length from.now ≡ G.rules.dirs * self.now.words_each }
        requires out { length out.old ≡ G.rules.dirs * self.now.words_each }
        ensures collided { (y : ℕ) → y / 64 < self.now.words_each →
            state out.new self.now.words_each G.rules.dirs y
            ≡ collided_state G.rules self.now from.now y }
    {
        let collision = *self;
        for k in 0..collision.words_each.div_ceil(4) {
            let j = (4 * k).min(collision.words_each.saturating_sub(4));
            let four = collision.collided::<G>(from, j);
            collision.put::<G>(out, j, four, false);
        }
    }

    #[inline(always)]
    fn collide_here<G: Gas>(&self, words: &mut [u64], all_fluid: bool)
        requires long { length words.old ≡ G.rules.dirs * self.now.words_each }
        requires fluid { IsTrue all_fluid → IsTrue self.now.all_fluid }
        ensures { (y : ℕ) → y / 64 < self.now.words_each →
            state words.new self.now.words_each G.rules.dirs y
            ≡ collided_state G.rules self.now words.old y }
    {
        if self.words_each < 4 {
            let all = self.collided::<G>(words, 0);
            self.put::<G>(words, 0, all, all_fluid);
            return;
        }
        // The last four words are collided before those that they lie over are written.
        let end = self.words_each - 4;
        let last = self.collided::<G>(words, end);
        for k in 0..(self.words_each - 1) / 4 {
            let four = self.collided::<G>(words, 4 * k);
            self.put::<G>(words, 4 * k, four, all_fluid);
        }
        self.put::<G>(words, end, last, all_fluid);
    }

    // Words `j` to `j + 3` of each direction after a collision of all their cells.
    #[inline(always)]
    fn collided<G: Gas>(&self, words: &[u64], j: usize) -> [u64x4; 8]
        requires long { length words.now ≡ G.rules.dirs * self.now.words_each }
        requires within { j + 4 ≤ max 4 self.now.words_each }
        ensures { (y : ℕ) → 64 * j ≤ y → y < 64 * j + 256 → y / 64 < self.now.words_each →
            set_in lanes_hold (replicate 4 0) G.rules.dirs result (y - 64 * j)
            ≡ G.rules.collide (state words.now self.now.words_each G.rules.dirs y)
            (bit self.now.chi.now y) }
    {
        let planes = four_planes_at(words, self.words_each, directions::<G>(), j);
        G::collide_planes(planes, four_at(self.chi, self.words_each, j))
    }

    // Writes words `j` to `j + 3` of each direction, with zeros at solid cells.
    #[inline(always)]
    fn put<G: Gas>(&self, words: &mut [u64], j: usize, planes: [u64x4; 8], all_fluid: bool)
        requires long { length words.old ≡ G.rules.dirs * self.now.words_each }
        requires within { j + 4 ≤ max 4 self.now.words_each }
        requires fluid { IsTrue all_fluid → IsTrue self.now.all_fluid }
        ensures long { length words.new ≡ length words.old }
        ensures written { (y : ℕ) → y / 64 < self.now.words_each →
            state words.new self.now.words_each G.rules.dirs y
            ≡ (if nat_le (64 * j) y && nat_lt y (64 * j + 256) then
            (if bit self.now.solid.now y then 0
            else set_in lanes_hold (replicate 4 0) G.rules.dirs planes (y - 64 * j))
            else state words.old self.now.words_each G.rules.dirs y) }
    {
        let solid = self.solid_four(j, all_fluid);
        write_four_at(words, self.words_each, directions::<G>(), j, planes, solid);
    }

    // The solid cells of words `j` to `j + 3`.
    #[inline(always)]
    fn solid_four(&self, j: usize, all_fluid: bool) -> u64x4
        requires within { j + 4 ≤ max 4 self.now.words_each }
        requires fluid { IsTrue all_fluid → IsTrue self.now.all_fluid }
        ensures { (y : ℕ) → 64 * j ≤ y → y < 64 * j + 256 →
            lanes_hold result (y - 64 * j) ≡ bit self.now.solid.now y }
    {
        if all_fluid {
            u64x4::splat(0)
        } else {
            four_at(self.solid, self.words_each, j)
        }
    }
}

/// The number of directions, 1 to 8.
#[inline(always)]
pub fn directions<G: Gas>() -> usize
    ensures value { result ≡ G.rules.dirs }
    ensures some { 1 ≤ result }
    ensures few { result ≤ 8 }
{
    G::DIRS as usize
}
