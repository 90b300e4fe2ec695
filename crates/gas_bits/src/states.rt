//! The states of 64 cells, from a word for each direction and back.
ghost use Rattle.std.specs.Prelude.{◌≡◌, ◌<◌, ◌≤◌, ℕ, false, length, slice_index, slice_index_or};
ghost use Rattle.gas_geom.specs.Gas.{holds};
ghost use Rattle.gas_geom.specs.Planes.{set_at};

use crate::word::has_bit;
use std::simd::prelude::*;

/// The state of cell `b`, 0 to 63, from a word for each direction.
#[inline(always)]
pub(crate) fn state_at(planes: [u64; 8], dirs: usize, b: u32) -> u8
    requires few_dirs { dirs ≤ 8 }
    requires within { b < 64 }
    ensures { result ≡ set_at dirs planes b }
{
    let mut set = 0;
    for i in 0..dirs {
        if has_bit(planes[i], b) {
            set += 1 << i;
        }
    }
    set
}

/// The states of 64 cells, from a word for each direction.
#[inline(always)]
pub fn states_of(planes: [u64; 8], dirs: usize) -> [u8; 64]
    requires { dirs ≤ 8 }
    ensures states { (b : ℕ) → b < 64 → slice_index result b ≡ set_at dirs planes b }
{
    let mut states = [0; 64];
    for b in 0..64 {
        states[b] = state_at(planes, dirs, b as u32);
    }
    states
}

// The word of direction `i`, from the states of 64 cells.
#[inline(always)]
fn plane_of(states: u8x64, i: u32) -> u64
    requires { i < 8 }
    ensures { (b : ℕ) → b < 64 → holds result b ≡ holds (slice_index states b) i }
{
    (states & u8x64::splat(1 << i))
        .simd_ne(u8x64::splat(0))
        .to_bitmask()
}

/// A word for each direction, from the states of at most 64 cells. Bits past them are 0.
#[inline(always)]
pub fn planes_of(states: &[u8], dirs: usize) -> [u64; 8]
    requires few_cells { length states.now ≤ 64 }
    requires few_dirs { dirs ≤ 8 }
    ensures planes { (i b : ℕ) → i < dirs → b < 64 → holds (slice_index result i) b
        ≡ holds (slice_index states.now b) i }
{
    let mut cells = [0; 64];
    for b in 0..states.len() {
        cells[b] = states[b];
    }
    let cells = u8x64::from_array(cells);
    let mut planes = [0; 8];
    for i in 0..dirs {
        planes[i] = plane_of(cells, i as u32);
    }
    planes
}

/// The word of at most 64 cells, the first in the least bit, with 0 for the others.
pub(crate) fn pack_word(cells: &[bool]) -> u64
    requires { length cells.now ≤ 64 }
    ensures { (b : ℕ) → holds result b ≡ slice_index_or cells.now b false }
{
    let mut states = [0; 64];
    for b in 0..cells.len() {
        states[b] = u8::from(cells[b]);
    }
    plane_of(u8x64::from_array(states), 0)
}
