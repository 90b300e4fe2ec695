//! Generations of a part in place, two at a time: a row goes into one of three kept rows and back. In
//! between a lattice is collided already, by its own generation's bits.
ghost use Rattle.std.specs.Prelude.{◌≡◌, ◌≢◌, ◌+◌, ◌-◌, ◌*◌, ◌/◌, ◌%◌, ◌<◌, ◌≤◌, ◌^◌, ℕ, true, false, IsTrue, length};
ghost use Rattle.gas_geom.specs.Channel.{ChannelModel};
ghost use Rattle.gas_bits.specs.Words.{words_in, bit};
ghost use Rattle.gas_bits.specs.Planes.{state};
ghost use Rattle.gas_rows.specs.Planes.{cells_of};
ghost use Rattle.gas_rows.specs.Streaming.{AreRowsAbout};
ghost use Rattle.gas_layout.specs.Layout.{channel_of};
ghost use Rattle.gas_export.specs.Planes.{row_words, state_at, solid_at, lattice_in};
ghost use Rattle.gas_export.specs.Part.{part_after};
ghost use Rattle.gas_export.specs.Inner.{AreFluidAbove, bit_of, IsReady, passed};

use crate::draw::Source;
use crate::rows::{row_length, solid_at, states_at, words_each};
use gas_bits::plane::{are_zero, fill};
use gas_geom::gas::Gas;
use gas_geom::size::Size;
use gas_rows::collision::Collision;
use gas_rows::stream::Neighbourhood;
use rand_chacha::ChaCha20Rng;

// The number of rows beside the lattice.
const KEPT: usize = 3;

// The solid cells of a lattice, and a row whose cells are all solid.
#[derive(Clone, Copy)]
struct Channel<'a, 'b> {
    size: Size,
    solid: &'a [u64],
    wall: &'b [u64],
    ghost solid_long: { length solid.now ≡ size.height * words_in size.width },
    ghost wall_long: { length wall.now ≡ words_in size.width },
    ghost all_wall: { (x : ℕ) → x < size.width → bit wall.now x ≡ true },
}

impl<'a, 'b> Channel<'a, 'b> {
    // The number of rows without a solid cell above row `y + 1`, from the number of those above row `y`.
    // None past the last row.
    fn fluid_to(&self, y: u32, above: usize) -> usize
        requires row { y ≤ self.now.size.height }
        requires above { AreFluidAbove self.now.size.width self.now.solid.now y above }
        ensures fluid { AreFluidAbove self.now.size.width self.now.solid.now (y + 1) result }
        ensures past { 0 < result → y < self.now.size.height }
    {
        if y < self.size.height() && are_zero(solid_at(self.size, self.solid, y)) {
            above + 1
        } else {
            0
        }
    }

    // The solid cells of row `y`, or the wall if there is no such row.
    #[inline(always)]
    fn row_or_wall(&self, y: u32) -> &[u64]
        ensures part { y < self.now.size.height →
            result.now ≡ row_words (words_in self.now.size.width) self.now.solid.now y }
        ensures past { self.now.size.height ≤ y → result.now ≡ self.now.wall.now }
        ensures long { length result.now ≡ words_in self.now.size.width }
    {
        if y < self.size.height() {
            solid_at(self.size, self.solid, y)
        } else {
            self.wall
        }
    }

    // Writes row `y` streamed from these rows, and then collided by these bits, if `collides`.
    #[inline(always)]
    fn stream_row<G: Gas>(
        &self,
        y: u32,
        above: &[u64],
        middle: &[u64],
        below: &[u64],
        all_fluid: bool,
        bits: &[u64],
        collides: bool,
        out: &mut [u64],
    )
        requires row { y < self.now.size.height }
        requires above { length above.now ≡ G.rules.dirs * words_in self.now.size.width }
        requires middle { length middle.now ≡ G.rules.dirs * words_in self.now.size.width }
        requires below { length below.now ≡ G.rules.dirs * words_in self.now.size.width }
        requires fluid { IsTrue all_fluid → (y + 1 < self.now.size.height)
            × AreFluidAbove self.now.size.width self.now.solid.now (y + 2) 3 }
        requires bits { length bits.now ≡ words_in self.now.size.width }
        requires out { length out.old ≡ G.rules.dirs * words_in self.now.size.width }
        ensures long { length out.new ≡ length out.old }
        ensures passed { (at : ℕ → ℕ → ℕ) →
            let channel = channel_of self.now.size.width self.now.size.height
            (solid_at self.now.size.width self.now.solid.now) in
            AreRowsAbout channel at y (cells_of G.rules.dirs self.now.size.width above.now)
            (cells_of G.rules.dirs self.now.size.width middle.now)
            (cells_of G.rules.dirs self.now.size.width below.now) →
            (x : ℕ) → x < self.now.size.width →
            state out.new (words_in self.now.size.width) G.rules.dirs x
            ≡ passed G.rules channel (λ x y. bit bits.now x) true collides at x y }
    {
        let width = self.size.width();
        let neighbourhood = Neighbourhood {
            above,
            middle,
            below,
            solid_above: self.row_or_wall(y.wrapping_sub(1)),
            solid_middle: solid_at(self.size, self.solid, y),
            solid_below: self.row_or_wall(y + 1),
            width,
            y,
            all_fluid,
        };
        neighbourhood.advance::<G>(bits, collides, out);
    }

    // Writes row `y` of the lattice after a collision by these bits. If `streams`, the lattice is
    // collided already, and its particles move before. `fluid` are the numbers of rows without a solid
    // cell above row `y + 1` and above the next one.
    #[inline(always)]
    fn enter<G: Gas>(
        &self,
        states: &[u64],
        y: u32,
        fluid: (usize, usize),
        bits: &[u64],
        streams: bool,
        out: &mut [u64],
    )
        requires row { y < self.now.size.height }
        requires fluid { AreFluidAbove self.now.size.width self.now.solid.now (y + 1) fluid.0 }
        requires fluid_below { AreFluidAbove self.now.size.width self.now.solid.now (y + 2) fluid.1 }
        requires below { 0 < fluid.1 → y + 1 < self.now.size.height }
        requires states { length states.now
            ≡ self.now.size.height * (G.rules.dirs * words_in self.now.size.width) }
        requires bits { length bits.now ≡ words_in self.now.size.width }
        requires out { length out.old ≡ G.rules.dirs * words_in self.now.size.width }
        ensures long { length out.new ≡ length out.old }
        ensures passed { (at : ℕ → ℕ → ℕ) → ((x k : ℕ) → x < self.now.size.width → k < self.now.size.height →
            k ≤ y + 1 → y ≤ k + 1 →
            state_at G.rules.dirs self.now.size.width states.now x k ≡ at x k) →
            (x : ℕ) → x < self.now.size.width →
            state out.new (words_in self.now.size.width) G.rules.dirs x ≡ passed G.rules
            (channel_of self.now.size.width self.now.size.height (solid_at self.now.size.width self.now.solid.now))
            (λ x y. bit bits.now x) streams true at x y }
    {
        let rows = self.size.height() as usize;
        let row = y as usize;
        let middle = states_at::<G>(self.size, states, rows, row);
        if streams {
            let above = states_at::<G>(self.size, states, rows, row.saturating_sub(1));
            let below = states_at::<G>(self.size, states, rows, (row + 1).min(rows - 1));
            self.stream_row::<G>(y, above, middle, below, fluid.1 > 2, bits, true, out);
        } else {
            let collision = Collision {
                words_each: words_each(self.size),
                solid: solid_at(self.size, self.solid, y),
                chi: bits,
                all_fluid: fluid.0 > 0,
            };
            collision.collide_into::<G>(middle, out);
        }
    }

    // Streams the row above row `y`, if there is one, from the kept rows into the lattice, and then
    // collides it by its bits of a generation, if `collides`.
    #[inline(always)]
    fn leave<G: Gas>(
        &self,
        source: Source,
        generator: &mut ChaCha20Rng,
        generation: u64,
        kept: &[u64],
        y: u32,
        all_fluid: bool,
        collides: bool,
        bits: &mut [u64],
        states: &mut [u64],
    )
        requires row { y ≤ self.now.size.height }
        requires kept { length kept.now ≡ 3 * (G.rules.dirs * words_in self.now.size.width) }
        requires fluid { IsTrue all_fluid → (y < self.now.size.height)
            × AreFluidAbove self.now.size.width self.now.solid.now (y + 1) 3 }
        requires ready { IsReady source.chirality generator.old.key self.now.size.width bits.old }
        requires states { length states.old
            ≡ self.now.size.height * (G.rules.dirs * words_in self.now.size.width) }
        ensures ready { IsReady source.chirality generator.new.key self.now.size.width bits.new }
        ensures here { (at : ℕ → ℕ → ℕ) → ((x k : ℕ) → k ≤ y → y ≤ k + 2 → k < self.now.size.height →
            x < self.now.size.width →
            state_at G.rules.dirs self.now.size.width kept.now x (k % 3) ≡ at x k) →
            (x k : ℕ) → x < self.now.size.width → k + 1 ≡ y →
            state_at G.rules.dirs self.now.size.width states.new x k ≡ passed G.rules
            (channel_of self.now.size.width self.now.size.height (solid_at self.now.size.width self.now.solid.now))
            (bit_of source self.now.size.width generation) true collides at x k }
        ensures others { (k : ℕ) → k < self.now.size.height → k + 1 ≢ y →
            row_words (G.rules.dirs * words_in self.now.size.width) states.new k
            ≡ row_words (G.rules.dirs * words_in self.now.size.width) states.old k }
    {
        if y == 0 {
            return;
        }
        if collides {
            source.draw_row::<G>(generator, generation, y - 1, self.size, bits);
        }
        let row = y as usize - 1;
        let above = states_at::<G>(self.size, kept, KEPT, (row + 2) % KEPT);
        let middle = states_at::<G>(self.size, kept, KEPT, row % KEPT);
        let below = states_at::<G>(self.size, kept, KEPT, (row + 1) % KEPT);
        let n = row_length::<G>(self.size);
        let start = row * n;
        let out = &mut states[start..start + n];
        self.stream_row::<G>(y - 1, above, middle, below, all_fluid, bits, collides, out);
    }

    // Takes the rows of a lattice through the kept rows. They come in collided by the bits of
    // `generation`, after streaming if the lattice was collided already, and go out streamed and, if it
    // `collides`, by the bits of the generation that follows. `bits` has the random bits of a row if none
    // are drawn.
    fn sweep<G: Gas>(
        &self,
        source: Source,
        near: &mut ChaCha20Rng,
        far: &mut ChaCha20Rng,
        generation: u64,
        collided: bool,
        collides: bool,
        states: &mut [u64],
        bits: &mut [u64],
        kept: &mut [u64],
    )
        requires room { generation + 1 < 2 ^ 64 }
        requires states { length states.old
            ≡ self.now.size.height * (G.rules.dirs * words_in self.now.size.width) }
        requires kept { length kept.old ≡ 3 * (G.rules.dirs * words_in self.now.size.width) }
        requires near { IsReady source.chirality near.old.key self.now.size.width bits.old }
        requires far { IsReady source.chirality far.old.key self.now.size.width bits.old }
        ensures near { IsReady source.chirality near.new.key self.now.size.width bits.new }
        ensures far { IsReady source.chirality far.new.key self.now.size.width bits.new }
        ensures swept { (before between : ℕ → ℕ → ℕ) →
            let channel = channel_of self.now.size.width self.now.size.height
            (solid_at self.now.size.width self.now.solid.now) in
            ((x y : ℕ) → x < self.now.size.width → y < self.now.size.height →
            state_at G.rules.dirs self.now.size.width states.old x y ≡ before x y) →
            ((x y : ℕ) → x < self.now.size.width → y < self.now.size.height →
            passed G.rules channel (bit_of source self.now.size.width generation) collided true before x y
            ≡ between x y) →
            (x y : ℕ) → x < self.now.size.width → y < self.now.size.height →
            state_at G.rules.dirs self.now.size.width states.new x y ≡ passed G.rules channel
            (bit_of source self.now.size.width (generation + 1)) true collides between x y }
    {
        let n = row_length::<G>(self.size);
        let mut fluid = self.fluid_to(0, 0);
        for y in 0..self.size.height() {
            let next = self.fluid_to(y + 1, fluid);
            source.draw_row::<G>(near, generation, y, self.size, bits);
            let start = y as usize % KEPT * n;
            let row = &mut kept[start..start + n];
            self.enter::<G>(states, y, (fluid, next), bits, collided, row);
            self.leave::<G>(
                source,
                far,
                generation + 1,
                kept,
                y,
                fluid > 2,
                collides,
                bits,
                states,
            );
            fluid = next;
        }
        let bottom = self.size.height();
        self.leave::<G>(
            source,
            far,
            generation + 1,
            kept,
            bottom,
            false,
            collides,
            bits,
            states,
        );
    }
}

/// Replaces the states of a part by those some generations later. `work` has room for a wall, a row's
/// random bits and three rows.
pub(crate) fn advance<G: Gas>(
    size: Size,
    source: Source,
    first: u64,
    generations: u64,
    solid: &[u64],
    states: &mut [u64],
    work: &mut [u64],
)
    requires room { first + generations < 2 ^ 64 }
    requires solid { length solid.now ≡ size.height * words_in size.width }
    requires states { length states.old ≡ size.height * (G.rules.dirs * words_in size.width) }
    requires work { length work.old ≡ (3 * G.rules.dirs + 2) * words_in size.width }
    ensures done { lattice_in G.rules size.width size.height solid.now states.new ≡ part_after G.rules
        source.chirality source.first_row first
        (lattice_in G.rules size.width size.height solid.now states.old) generations }
{
    let words_each = words_each(size);
    let (wall, rest) = work.split_at_mut(words_each);
    let (bits, kept) = rest.split_at_mut(words_each);
    fill(wall, size.width(), true);
    let channel = Channel { size, solid, wall };
    let mut near = source.generator(size, bits);
    let mut far = source.generator(size, bits);
    let mut done = 0;
    let mut collided = false;
    while done < generations {
        // A sweep makes two generations, but the last one or two by themselves.
        let generation = done + u64::from(collided);
        let collides = generations - generation > 2;
        channel.sweep::<G>(
            source,
            &mut near,
            &mut far,
            first + generation,
            collided,
            collides,
            states,
            bits,
            kept,
        );
        done = generation + 1;
        collided = collides;
    }
}
