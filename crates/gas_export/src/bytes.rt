//! Bytes of cells into planes and back.
ghost use Rattle.std.specs.Prelude.{◌≡◌, ◌+◌, ◌*◌, ◌/◌, ◌<◌, ◌≤◌, ◌^◌, ℕ, true, nat_lt, length, slice_index};
ghost use Rattle.std.specs.List.{list_all};
ghost use Rattle.gas_bits.specs.Words.{words_in};
ghost use Rattle.gas_bits.specs.Planes.{state};
ghost use Rattle.gas_export.specs.Planes.{state_at};

use crate::rows::{row_at, words_each};
use gas_bits::planes::{load_states, planes_at};
use gas_bits::states::states_of;
use gas_bits::word::words_for;
use gas_geom::size::Size;

/// Writes bytes into planes.
pub(crate) fn pack(size: Size, planes: usize, bytes: &[u8], words: &mut [u64])
    requires planes { planes ≤ 8 }
    requires bytes { length bytes.now ≡ size.height * size.width }
    requires below { list_all (λ b. nat_lt b (2 ^ planes)) bytes.now ≡ true }
    requires words { length words.old ≡ size.height * (planes * words_in size.width) }
    ensures packed { (x y : ℕ) → x < size.width → y < size.height →
        state_at planes size.width words.new x y ≡ slice_index bytes.now (y * size.width + x) }
    ensures clear { (x y : ℕ) → size.width ≤ x → x < 64 * words_in size.width → y < size.height →
        state_at planes size.width words.new x y ≡ 0 }
{
    let width = size.width() as usize;
    let words_each = words_each(size);
    let n = planes * words_each;
    for y in 0..size.height() as usize {
        let row = &bytes[y * width..y * width + width];
        load_states(&mut words[y * n..y * n + n], words_each, planes, row);
    }
}

// Writes the planes of a row into its bytes.
fn unpack_row(width: u32, planes: usize, words: &[u64], bytes: &mut [u8])
    requires planes { planes ≤ 8 }
    requires few_cells { width ≤ 65536 }
    requires words { length words.now ≡ planes * words_in width }
    requires bytes { length bytes.old ≡ width }
    ensures unpacked { (x : ℕ) → x < width →
        slice_index bytes.new x ≡ state words.now (words_in width) planes x }
{
    let words_each = words_for(width);
    for j in 0..words_each {
        // Eight planes, those past the last one zero, so that the compiler knows how many.
        let states = states_of(planes_at(words, words_each, planes, j), 8);
        let end = bytes.len().min(64 * j + 64);
        bytes[64 * j..end].copy_from_slice(&states[0..end - 64 * j]);
    }
}

/// Writes planes into bytes.
pub(crate) fn unpack(size: Size, planes: usize, words: &[u64], bytes: &mut [u8])
    requires planes { planes ≤ 8 }
    requires words { length words.now ≡ size.height * (planes * words_in size.width) }
    requires bytes { length bytes.old ≡ size.height * size.width }
    ensures unpacked { (x y : ℕ) → x < size.width → y < size.height →
        slice_index bytes.new (y * size.width + x) ≡ state_at planes size.width words.now x y }
{
    let width = size.width() as usize;
    let rows = size.height() as usize;
    let n = planes * words_each(size);
    for y in 0..rows {
        let row = row_at(words, rows, y, n);
        let cells = &mut bytes[y * width..y * width + width];
        unpack_row(size.width(), planes, row, cells);
    }
}
