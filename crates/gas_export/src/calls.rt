//! The calls, as `include/fhpgas.h` has them.
ghost use Rattle.std.specs.Prelude.{◌≡◌, ◌≢◌, ◌+◌, ◌*◌, ◌%◌, ◌^◌, ◌<◌, ◌≤◌, ◌==◌, ◌&&◌, ℕ, nat_le, nat_lt, if◌then◌else◌, length, slice_index};
ghost use Rattle.std.specs.List.{list_all};
ghost use Rattle.std.specs.Int.{div_ceil};
ghost use Rattle.gas_geom.specs.Lattice.{LatticeModel, cell};
ghost use Rattle.gas_geom.specs.Parts.{IsPartFrom, IsFarFromCuts};
ghost use Rattle.gas_bits.specs.Words.{words_in};
ghost use Rattle.gas_blocks.specs.Blocks.{block_at};
ghost use Rattle.gas_stage.specs.Evolution.{lattice_after};
ghost use Rattle.gas_export.specs.Planes.{lattice_in, gas_numbered, chirality_numbered, state_at, row_words};
ghost use Rattle.gas_export.specs.Sums.{sums_of};
ghost use Rattle.gas_export.specs.Part.{part_after};
ghost use Rattle.gas_export.specs.Statuses.{unless, is_planes, is_size, words_of, work_of, blocks_in};

use crate::bytes::{pack, unpack};
use crate::draw::Source;
use crate::step::advance;
use crate::sums::sum_blocks;
use gas_bits::word::words_for;
use gas_geom::fhp_rest::FhpRest;
use gas_geom::fhp1::Fhp1;
use gas_geom::hpp::Hpp;
use gas_geom::size::Size;
use gas_rows::chirality::Chirality;
use gas_rows::collision::directions;

/// Returns a status unless something is lawful.
macro_rules! lawful {
    ($holds:expr, $status:ident) => {
        if !$holds {
            return Status::$status as u32;
        }
    };
}

/// Calls a function for the gas of a number.
macro_rules! for_gas {
    ($gas:ident, $call:ident($($argument:expr),*)) => {
        match $gas {
            0 => $call::<Fhp1>($($argument),*),
            1 => $call::<Hpp>($($argument),*),
            _ => $call::<FhpRest>($($argument),*),
        }
    };
}

// What a call returns: done, or the first of these that is not lawful.
enum Status {
    Done,
    Gas,
    Chirality,
    Size,
    Place,
    Generations,
    Block,
    Length,
    Byte,
}

// Whether a number of planes is lawful.
fn is_planes(planes: u32) -> bool
    ensures value { result ≡ is_planes planes }
{
    planes >= 1 && planes <= 8
}

// Whether every byte has bits in so many planes alone.
fn are_below(bytes: &[u8], planes: u32) -> bool
    requires planes { planes ≤ 8 }
    ensures value { result ≡ list_all (λ b. nat_lt b (2 ^ planes)) bytes.now }
{
    bytes.iter().all(|byte| u32::from(*byte) < 1 << planes)
}

// The number of directions of the gas of a number.
fn directions_of(gas: u32) -> usize
    ensures value { result ≡ (gas_numbered gas).dirs }
    ensures few { result ≤ 8 }
{
    for_gas!(gas, directions())
}

// The number of words of so many planes.
fn words_of(planes: usize, size: Size) -> usize
    requires planes { planes ≤ 8 }
    ensures value { result ≡ words_of planes size.width size.height }
{
    size.height() as usize * (planes * words_for(size.width()))
}

// The number of cells, in 64 bits also in a module of 32, whose pointers can't count the largest size.
fn cells_of(size: Size) -> u64
    ensures value { result ≡ size.height * size.width }
{
    u64::from(size.height()) * u64::from(size.width())
}

// The number of words of the memory that generations are computed in.
fn work_of(gas: u32, width: u32) -> usize
    requires few_cells { width ≤ 65536 }
    ensures value { result ≡ work_of gas width }
{
    (3 * directions_of(gas) + 2) * words_for(width)
}

/// The number of this interface.
#[unsafe(no_mangle)]
pub extern "C" fn fhpgas_interface() -> u32
    ensures number { result ≡ 3 }
{
    3
}

/// The number of directions of a gas, 0 if there is no such gas.
#[unsafe(no_mangle)]
pub extern "C" fn fhpgas_directions(gas: u32) -> u32
    ensures number { result ≡ (if nat_lt gas 3 then (gas_numbered gas).dirs else 0) }
{
    if gas < 3 {
        directions_of(gas) as u32
    } else {
        0
    }
}

/// The number of words of so many planes, 0 if their number or the size is not lawful.
#[unsafe(no_mangle)]
pub extern "C" fn fhpgas_words(planes: u32, width: u32, height: u32) -> usize
    ensures number { result ≡ (if is_planes planes && is_size width height then words_of planes width height
        else 0) }
{
    match Size::new(width, height) {
        Some(size) if is_planes(planes) => words_of(planes as usize, size),
        _ => 0,
    }
}

/// The number of words of the memory that generations are computed in, 0 if the gas or the width is not
/// lawful.
#[unsafe(no_mangle)]
pub extern "C" fn fhpgas_work_words(gas: u32, width: u32) -> usize
    ensures number { result ≡ (if nat_lt gas 3 && is_size width 1 then work_of gas width else 0) }
{
    if gas < 3 && Size::new(width, 1).is_some() {
        work_of(gas, width)
    } else {
        0
    }
}

/// Writes bytes into planes.
#[unsafe(no_mangle)]
pub extern "C" fn fhpgas_pack(
    planes: u32,
    width: u32,
    height: u32,
    bytes: &[u8],
    words: &mut [u64],
) -> u32
    ensures status { result ≡ unless (is_planes planes) 1 (unless (is_size width height) 3
        (unless (length bytes.now == height * width && length words.old == words_of planes width height) 7
        (unless (list_all (λ b. nat_lt b (2 ^ planes)) bytes.now) 8 0))) }
    ensures kept { result ≢ 0 → words.new ≡ words.old }
    ensures packed { result ≡ 0 → (x y : ℕ) → x < width → y < height →
        state_at planes width words.new x y ≡ slice_index bytes.now (y * width + x) }
    ensures clear { result ≡ 0 → (x y : ℕ) → width ≤ x → x < 64 * words_in width → y < height →
        state_at planes width words.new x y ≡ 0 }
{
    lawful!(is_planes(planes), Gas);
    let Some(size) = Size::new(width, height) else {
        return Status::Size as u32;
    };
    lawful!(bytes.len() as u64 == cells_of(size), Length);
    lawful!(words.len() == words_of(planes as usize, size), Length);
    lawful!(are_below(bytes, planes), Byte);
    pack(size, planes as usize, bytes, words);
    Status::Done as u32
}

/// Writes planes into bytes.
#[unsafe(no_mangle)]
pub extern "C" fn fhpgas_unpack(
    planes: u32,
    width: u32,
    height: u32,
    words: &[u64],
    bytes: &mut [u8],
) -> u32
    ensures status { result ≡ unless (is_planes planes) 1 (unless (is_size width height) 3
        (unless (length words.now == words_of planes width height && length bytes.old == height * width) 7
        0)) }
    ensures kept { result ≢ 0 → bytes.new ≡ bytes.old }
    ensures unpacked { result ≡ 0 → (x y : ℕ) → x < width → y < height →
        slice_index bytes.new (y * width + x) ≡ state_at planes width words.now x y }
{
    lawful!(is_planes(planes), Gas);
    let Some(size) = Size::new(width, height) else {
        return Status::Size as u32;
    };
    lawful!(words.len() == words_of(planes as usize, size), Length);
    lawful!(bytes.len() as u64 == cells_of(size), Length);
    unpack(size, planes as usize, words, bytes);
    Status::Done as u32
}

/// Sums the cells of a lattice by blocks.
#[unsafe(no_mangle)]
pub extern "C" fn fhpgas_sums(
    gas: u32,
    width: u32,
    height: u32,
    block_width: u32,
    block_height: u32,
    solid: &[u64],
    states: &[u64],
    sums: &mut [i64],
) -> u32
    ensures status { result ≡ unless (nat_lt gas 3) 1 (unless (is_size width height) 3
        (unless (nat_le 1 block_width && nat_le 1 block_height) 6
        (unless (length solid.now == words_of 1 width height &&
        (length states.now == words_of (gas_numbered gas).dirs width height &&
        length sums.old == blocks_in width height block_width block_height * 4)) 7 0))) }
    ensures kept { result ≢ 0 → sums.new ≡ sums.old }
    ensures summed { result ≡ 0 → (col row : ℕ) → col < div_ceil width block_width →
        row < div_ceil height block_height → row_words 4 sums.new (row * div_ceil width block_width + col)
        ≡ sums_of (block_at (gas_numbered gas) (lattice_in (gas_numbered gas) width height solid.now
        states.now) block_width block_height row col) }
{
    lawful!(gas < 3, Gas);
    let Some(size) = Size::new(width, height) else {
        return Status::Size as u32;
    };
    lawful!(block_width > 0 && block_height > 0, Block);
    let blocks = u64::from(height.div_ceil(block_height)) * u64::from(width.div_ceil(block_width));
    lawful!(solid.len() == words_of(1, size), Length);
    lawful!(states.len() == words_of(directions_of(gas), size), Length);
    lawful!(
        sums.len() % 4 == 0 && sums.len() as u64 / 4 == blocks,
        Length
    );
    for_gas!(
        gas,
        sum_blocks(size, block_width, block_height, solid, states, sums)
    );
    Status::Done as u32
}

// The chirality of a number.
fn chirality_of(number: u32, seed: u64) -> Chirality
    ensures value { result ≡ chirality_numbered number seed }
{
    match number {
        0 => Chirality::Seeded(seed),
        1 => Chirality::Left,
        _ => Chirality::Right,
    }
}

/// Replaces the states of a part of a lattice by those some generations later.
#[unsafe(no_mangle)]
pub extern "C" fn fhpgas_advance(
    gas: u32,
    chirality: u32,
    seed: u64,
    first: u64,
    generations: u64,
    width: u32,
    height: u32,
    first_row: u32,
    solid: &[u64],
    states: &mut [u64],
    work: &mut [u64],
) -> u32
    ensures status { result ≡ unless (nat_lt gas 3) 1 (unless (nat_lt chirality 3) 2
        (unless (is_size width height) 3 (unless (first_row % 2 == 0) 4
        (unless (nat_lt (first + generations) (2 ^ 64)) 5
        (unless (length solid.now == words_of 1 width height &&
        (length states.old == words_of (gas_numbered gas).dirs width height &&
        length work.old == work_of gas width)) 7 0))))) }
    ensures kept { result ≢ 0 → states.new ≡ states.old }
    ensures kept_work { result ≢ 0 → work.new ≡ work.old }
    ensures done { result ≡ 0 → lattice_in (gas_numbered gas) width height solid.now states.new
        ≡ part_after (gas_numbered gas) (chirality_numbered chirality seed) first_row first
        (lattice_in (gas_numbered gas) width height solid.now states.old) generations }
    ensures whole { result ≡ 0 → first_row ≡ 0 →
        lattice_in (gas_numbered gas) width height solid.now states.new
        ≡ lattice_after (gas_numbered gas) (chirality_numbered chirality seed) first
        (lattice_in (gas_numbered gas) width height solid.now states.old) generations }
    ensures part { result ≡ 0 → (whole : LatticeModel) (x y : ℕ) →
        let part = lattice_in (gas_numbered gas) width height solid.now states.old in
        IsPartFrom first_row part whole →
        IsFarFromCuts first_row generations part.channel whole.channel y →
        cell (lattice_in (gas_numbered gas) width height solid.now states.new).rows x y
        ≡ cell (lattice_after (gas_numbered gas) (chirality_numbered chirality seed) first whole
        generations).rows x (first_row + y) }
{
    lawful!(gas < 3, Gas);
    lawful!(chirality < 3, Chirality);
    let Some(size) = Size::new(width, height) else {
        return Status::Size as u32;
    };
    lawful!(first_row % 2 == 0, Place);
    lawful!(generations <= u64::MAX - first, Generations);
    lawful!(solid.len() == words_of(1, size), Length);
    lawful!(states.len() == words_of(directions_of(gas), size), Length);
    lawful!(work.len() == work_of(gas, width), Length);
    let source = Source {
        chirality: chirality_of(chirality, seed),
        first_row,
    };
    for_gas!(
        gas,
        advance(size, source, first, generations, solid, states, work)
    );
    Status::Done as u32
}
