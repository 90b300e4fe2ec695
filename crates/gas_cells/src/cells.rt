//! Writing cells: the two characters of a cell, and the characters of a row, part by part.

ghost use Rattle.std.specs.Prelude.{◌≡◌, ◌<◌, ◌≤◌, ◌*◌, ℕ, false, length, slice_index, take, drop};
ghost use Rattle.std.specs.Fmt.{digit_glyph};
ghost use Rattle.std.specs.List.{flat_map, range_with_len};
ghost use Rattle.gas_geom.specs.Gas.{holds};
ghost use Rattle.gas_bits.specs.Words.{words_in};
ghost use Rattle.gas_cells.specs.Cells.{cell_text, row_cells};

use gas_geom::gas::Gas;
use gas_rows::lattice::Lattice;
use std::marker::Model;

/// The number of characters per cell.
pub const CHARACTERS: usize = 2;

fn hex_digit(digit: u8) -> u8
    requires { digit < 16 }
    ensures { result ≡ digit_glyph false digit }
{
    if digit < 10 {
        b'0' + digit
    } else {
        b'a' + (digit - 10)
    }
}

/// The two characters of a cell.
pub fn cell_pair(solid: bool, state: u8) -> [u8; CHARACTERS]
    ensures text { result ≡ cell_text solid state }
{
    if solid {
        *b"##"
    } else if state == 0 {
        *b".."
    } else {
        [hex_digit(state / 16), hex_digit(state % 16)]
    }
}

// The characters of 64 cells, from their bits in a mask and their states.
fn cell_pairs(solid: u64, states: [u8; 64]) -> [u8; CHARACTERS * 64]
    ensures { (cells : ℕ) → cells ≤ 64 → take (CHARACTERS * cells) result
        ≡ flat_map (λ b. cell_text (holds solid b) (slice_index states b))
        (range_with_len 0 cells) }
{
    let mut pairs = [0; CHARACTERS * 64];
    for b in 0..64 {
        let pair = cell_pair((solid >> b) & 1 == 1, states[b]);
        pairs[CHARACTERS * b] = pair[0];
        pairs[CHARACTERS * b + 1] = pair[1];
    }
    pairs
}

/// A part of a row: the characters of 64 cells, or of the last cells of the row.
#[derive(Drop)]
pub struct RowPart {
    pairs: [u8; CHARACTERS * 64],
    cells: usize,
}

impl Model for RowPart {
    ghost use Rattle.std.specs.Prelude.{◌*◌, ◌≤◌, ℕ, List, take};
    ghost use Rattle.gas_cells.specs.declared.cells.TheConstants.{CHARACTERS};

    ghost Value = { List ℕ };

    ghost view = { λ p. take (CHARACTERS * p.cells) p.pairs };

    ghost invariant = { λ p. p.cells ≤ 64 };
}

impl RowPart {
    /// The characters of the part, two per cell.
    pub fn as_bytes(&self) -> &[u8]
        ensures value { result.now ≡ self.now }
        ensures short { length result.now ≤ 128 }
    {
        &self.pairs[..CHARACTERS * self.cells]
    }
}

/// The number of parts of a row of a lattice.
pub fn row_parts<G: Gas>(lattice: &Lattice<G>) -> u32
    ensures parts { result ≡ words_in lattice.now.channel.width }
    ensures all { (y : ℕ) →
        length (row_cells lattice.now.channel lattice.now.rows y) ≤ 128 * result }
{
    lattice.channel().size().width().div_ceil(64)
}

/// Part `j` of row `y` of a lattice: the characters from `128 * j` on, at most 128.
pub fn row_part<G: Gas>(lattice: &Lattice<G>, y: u32, j: u32) -> RowPart
    requires row { y < lattice.now.channel.height }
    requires part { j < words_in lattice.now.channel.width }
    ensures text { result
        ≡ take 128 (drop (128 * j) (row_cells lattice.now.channel lattice.now.rows y)) }
{
    let row = lattice.row(y);
    let solid = lattice.channel().mask(y);
    RowPart {
        pairs: cell_pairs(solid.word(j), row.states64(j)),
        cells: (row.width() - 64 * j).min(64) as usize,
    }
}
