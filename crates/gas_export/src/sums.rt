//! Sums over blocks of cells.
ghost use Rattle.std.specs.Prelude.{◌≡◌, ◌≢◌, ◌+◌, ◌*◌, ◌/◌, ◌%◌, ◌<◌, ◌≤◌, ◌^◌, ℕ, length};
ghost use Rattle.std.specs.Int.{div_ceil};
ghost use Rattle.gas_bits.specs.Words.{words_in};
ghost use Rattle.gas_blocks.specs.Blocks.{block_at};
ghost use Rattle.gas_export.specs.Planes.{lattice_in, row_words};
ghost use Rattle.gas_export.specs.Sums.{sums_of};

use crate::rows::{solid_at, states_at};
use gas_blocks::blocks::Block;
use gas_blocks::rows::Rows;
use gas_geom::gas::Gas;
use gas_geom::size::Size;
use std::marker::PhantomData;

// A lattice in the words of its solid cells and of its states.
#[derive(Drop)]
struct Words<'a, G: Gas> {
    size: Size,
    solid: &'a [u64],
    states: &'a [u64],
    gas: PhantomData<G>,
    ghost solid_long: { length solid.now ≡ size.height * words_in size.width },
    ghost states_long: { length states.now ≡ size.height * (G.rules.dirs * words_in size.width) },
}

impl<'a, G: Gas> Rows<G> for Words<'a, G> {
    ghost lattice = { λ w. lattice_in G.rules w.size.width w.size.height w.solid.now w.states.now };

    fn size(&self) -> Size {
        self.size
    }

    fn solid(&self, y: u32) -> &[u64] {
        solid_at(self.size, self.solid, y)
    }

    fn states(&self, y: u32) -> &[u64] {
        let rows = self.size.height() as usize;
        states_at::<G>(self.size, self.states, rows, y as usize)
    }
}

// The four numbers of a block.
fn numbers_of(block: Block) -> [i64; 4]
    requires fluid { block.fluid < 2 ^ 63 }
    requires particles { block.particles < 2 ^ 63 }
    ensures value { result ≡ sums_of block }
{
    let particles = block.particles as i64;
    [block.fluid as i64, particles, block.px, block.py]
}

/// Writes the sums of the blocks of a lattice, by rows of blocks from the top, each from the left. A
/// block has `width` columns and `height` rows, and fewer at the right and at the bottom if the lattice
/// ends there.
pub(crate) fn sum_blocks<G: Gas>(
    size: Size,
    width: u32,
    height: u32,
    solid: &[u64],
    states: &[u64],
    sums: &mut [i64],
)
    requires some_columns { 1 ≤ width }
    requires some_rows { 1 ≤ height }
    requires solid { length solid.now ≡ size.height * words_in size.width }
    requires states { length states.now ≡ size.height * (G.rules.dirs * words_in size.width) }
    requires sums { length sums.old ≡ div_ceil size.height height * div_ceil size.width width * 4 }
    ensures sums { (col row : ℕ) → col < div_ceil size.width width → row < div_ceil size.height height →
        row_words 4 sums.new (row * div_ceil size.width width + col) ≡ sums_of (block_at G.rules
        (lattice_in G.rules size.width size.height solid.now states.now) width height row col) }
{
    let words = Words::<G> {
        size,
        solid,
        states,
        gas: PhantomData,
    };
    let columns = size.width().div_ceil(width) as usize;
    let rows = size.height().div_ceil(height) as usize;
    for k in 0..rows * columns {
        let (row, col) = ((k / columns) as u32, (k % columns) as u32);
        let block = Block::of::<G, Words<G>>(&words, col, row, width, height);
        let start = k * 4;
        sums[start..start + 4].copy_from_slice(&numbers_of(block));
    }
}
