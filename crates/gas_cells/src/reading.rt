//! Reading cells from their two characters.

ghost use Rattle.std.specs.Prelude.{◌≡◌, ℕ, ◌<◌, false, length, slice_index, slice_index_or, IfSome};
ghost use Rattle.std.specs.Option.{unwrap_or};
ghost use Rattle.gas_cells.specs.Reading.{digit_of, cell_of, cells_in, cell_or_empty, bad_column};

use crate::cells::CHARACTERS;

// A solid cell is this character twice.
const SOLID_MARK: u8 = b'#';

// An empty cell is this character twice.
const EMPTY_MARK: u8 = b'.';

/// A cell: whether it is solid, and its state. The state of a solid cell is 0.
#[derive(Clone, Copy, Debug, PartialEq, Eq)]
pub struct Cell {
    pub solid: bool,
    pub state: u8,
}

const EMPTY: Cell = Cell {
    solid: false,
    state: 0,
};

// The value of a lower-case hexadecimal digit, or 16 for any other character.
#[tactic(auto, using(crate::proofs::Digits::digits))]
fn digit(byte: u8) -> u8
    ensures { result ≡ unwrap_or (digit_of byte) 16 }
{
    match byte {
        b'0'..=b'9' => byte - b'0',
        b'a'..=b'f' => byte - b'a' + 10,
        _ => 16,
    }
}

// The cell of two characters, if they are one, with a state below `states`. The tests have no
// branch (`&`, `|`), so that the loop over the cells of a row vectorises.
#[tactic(auto, using(crate::proofs::Digits::digits), unfolding(crate::specs::Reading::cell_of))]
fn cell_of(first: u8, second: u8, states: u16) -> Option<Cell>
    ensures { result ≡ cell_of states first second }
{
    let solid = (first == SOLID_MARK) & (second == SOLID_MARK);
    let empty = (first == EMPTY_MARK) & (second == EMPTY_MARK);
    let (high, low) = (digit(first), digit(second));
    let state = high % 16 * 16 + low % 16;
    let is_state = (high < 16) & (low < 16) & (u16::from(state) < states);
    if solid | empty | is_state {
        Some(Cell {
            solid,
            state: if is_state { state } else { 0 },
        })
    } else {
        None
    }
}

/// The first column of a row that has no cell. States must be below `states`.
pub fn bad_column(row: &[u8], states: u16) -> Option<usize>
    ensures value { result ≡ bad_column states row.now }
    ensures within { IfSome result (λ c. c < cells_in row.now) }
{
    for c in 0..row.len() / CHARACTERS {
        if cell_of(row[CHARACTERS * c], row[CHARACTERS * c + 1], states).is_none() {
            return Some(c);
        }
    }
    None
}

/// Reads the cells of a row: which of them are solid, and their states. Returns the first column
/// that has no cell with a state below `states`. Such a column counts as fluid and empty.
pub fn read_row(row: &[u8], states: u16, solid: &mut [bool], state_of: &mut [u8]) -> Option<usize>
    requires wide { length solid.old ≡ cells_in row.now }
    requires as_wide { length state_of.old ≡ cells_in row.now }
    ensures bad { result ≡ bad_column states row.now }
    ensures within { IfSome result (λ c. c < cells_in row.now) }
    ensures wide { length solid.new ≡ cells_in row.now }
    ensures as_wide { length state_of.new ≡ cells_in row.now }
    ensures solid { (x : ℕ) → x < cells_in row.now
        → slice_index_or solid.new x false ≡ (cell_or_empty states row.now x).solid }
    ensures states { (x : ℕ) → x < cells_in row.now
        → slice_index state_of.new x ≡ (cell_or_empty states row.now x).state }
{
    let mut are_cells = true;
    for x in 0..solid.len() {
        let cell = cell_of(row[CHARACTERS * x], row[CHARACTERS * x + 1], states);
        are_cells &= cell.is_some();
        let cell = cell.unwrap_or(EMPTY);
        solid[x] = cell.solid;
        state_of[x] = cell.state;
    }
    // The loop has no exit, so that it vectorises.
    if are_cells {
        None
    } else {
        bad_column(row, states)
    }
}
