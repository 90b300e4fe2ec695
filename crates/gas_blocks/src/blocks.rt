//! Coarse tables of a lattice: density and momentum by blocks of cells.

ghost use Rattle.std.specs.Prelude.{◌≡◌, ◌≤◌, ◌<◌, ◌+◌, ◌-◌, ◌++◌, ◌*◌, ◌^◌, ℕ, IfOk, OnOk, fold, length};
ghost use Rattle.std.specs.List.{range_with_len};
ghost use Rattle.gas_geom.specs.declared.size.TheConstants.{MOST_SIDE};
ghost use Rattle.gas_bits.specs.Words.{bit};
ghost use Rattle.gas_bits.specs.Planes.{state};
ghost use Rattle.gas_blocks.specs.Blocks.{block_at, blocks_of};
ghost use Rattle.gas_blocks.specs.Inner.Tally.{HasRoom, most_cells, plus_cell_of, plus_particles, row_of_blocks};

use crate::rows::Rows;
use gas_bits::plane::count_in;
use gas_geom::gas::Gas;
use gas_rows::lattice::Lattice;
use std::alloc::{AllocError, Global};

/// A block of cells, as a line of a coarse table. `col` and `row` are its place among the blocks,
/// from 0 at the left and at the top. `fluid` and `particles` are the numbers of its fluid cells
/// and of its particles. `px` and `py` are the sums of its particles' momenta, eastwards and
/// northwards, in the units of `Gas::momentum`.
#[derive(Clone, Copy, Debug, PartialEq, Eq)]
pub struct Block {
    pub col: u32,
    pub row: u32,
    pub fluid: u64,
    pub particles: u64,
    pub px: i64,
    pub py: i64,
}

impl Block {
    // The block with `count` more particles of direction `i`.
    fn plus_particles<G: Gas>(self, i: u32, count: u32) -> Block
        requires direction { i < G.rules.dirs }
        requires room { HasRoom self most_cells }
        ensures { result ≡ plus_particles G.rules self i count }
    {
        let (px, py) = G::momentum(i);
        let times = i64::from(count);
        Block {
            particles: self.particles + u64::from(count),
            px: self.px + i64::from(px) * times,
            py: self.py + i64::from(py) * times,
            ..self
        }
    }

    // The block with the cells of columns `from..to` of a row.
    fn plus_cells<G: Gas>(self, states: &[u64], solid: &[u64], from: u32, to: u32) -> Block
        requires order { from ≤ to }
        requires within { to ≤ 64 * length solid.now }
        requires few { to ≤ MOST_SIDE }
        requires same { length states.now ≡ G.rules.dirs * length solid.now }
        requires room { HasRoom self (most_cells - MOST_SIDE) }
        ensures cells { result ≡ fold (plus_cell_of G.rules (bit solid.now)
            (state states.now (length solid.now) G.rules.dirs)) self (range_with_len from (to - from)) }
        ensures room { (n : ℕ) → HasRoom self n → HasRoom result (n + MOST_SIDE) }
    {
        let words_each = solid.len();
        let mut block = Block {
            fluid: self.fluid + u64::from(to - from - count_in(solid, from, to)),
            ..self
        };
        for i in 0..G::DIRS {
            let start = i as usize * words_each;
            let plane = &states[start..start + words_each];
            block = block.plus_particles::<G>(i, count_in(plane, from, to));
        }
        block
    }

    /// The block in column `col` and row `row` of the blocks of a lattice, which have `width` columns
    /// and `height` rows.
    pub fn of<G: Gas, R: Rows<G>>(rows: &R, col: u32, row: u32, width: u32, height: u32) -> Block
        requires some_columns { 1 ≤ width }
        requires some_rows { 1 ≤ height }
        requires left { col * width < (R.lattice rows.now).channel.width }
        requires top { row * height < (R.lattice rows.now).channel.height }
        ensures block { result ≡ block_at G.rules (R.lattice rows.now) width height row col }
        ensures few_fluid { result.fluid ≤ 2 ^ 32 }
        ensures few_particles { result.particles ≤ 2 ^ 35 }
    {
        let size = rows.size();
        let left = col * width;
        let right = left + width.min(size.width() - left);
        let top = row * height;
        let bottom = top + height.min(size.height() - top);
        let mut block = Block {
            col,
            row,
            fluid: 0,
            particles: 0,
            px: 0,
            py: 0,
        };
        for y in top..bottom {
            block = block.plus_cells::<G>(rows.states(y), rows.solid(y), left, right);
        }
        block
    }
}

// Appends row `row` of the blocks.
fn push_row<G: Gas>(
    blocks: &mut Vec<Block>,
    lattice: &Lattice<G>,
    row: u32,
    width: u32,
    height: u32,
) -> Result<(), AllocError>
    requires some_columns { 1 ≤ width }
    requires some_rows { 1 ≤ height }
    requires top { row * height < lattice.now.channel.height }
    ensures { OnOk result (blocks.new.items
        ≡ blocks.old.items ++ row_of_blocks G.rules lattice.now width height row) }
{
    for col in 0..lattice.channel().size().width().div_ceil(width) {
        blocks.push(Block::of::<G, Lattice<G>>(lattice, col, row, width, height))?;
    }
    Ok(())
}

/// The blocks of a lattice, by rows of blocks from the top, each from the left. A block has `width`
/// columns and `height` rows, and fewer at the right and at the bottom if the lattice ends there.
pub fn coarse<G: Gas>(
    alloc: Global,
    lattice: &Lattice<G>,
    width: u32,
    height: u32,
) -> Result<Vec<Block>, AllocError>
    requires some_columns { 1 ≤ width }
    requires some_rows { 1 ≤ height }
    ensures blocks { IfOk result (λ blocks. blocks.items ≡ blocks_of G.rules lattice.now width height) }
{
    let size = lattice.channel().size();
    let columns = size.width().div_ceil(width);
    let rows = size.height().div_ceil(height);
    let mut blocks = Vec::with_capacity(alloc, columns as usize * rows as usize)?;
    for row in 0..rows {
        push_row(&mut blocks, lattice, row, width, height)?;
    }
    Ok(blocks)
}
