//! Filling: random particles in the fluid cells of a lattice, from the key stream of a seed.

ghost use Rattle.std.specs.Prelude.{◌≡◌, ℕ, ◌%◌, ◌<◌, ◌≤◌, ◌^◌, Bool, OnOk, OnErr, nat_lt, if◌then◌else◌, ◌+◌, length, slice_index};
ghost use Rattle.gas_geom.specs.Size.{IsSize};
ghost use Rattle.gas_geom.specs.Lattice.{empty_lattice};
ghost use Rattle.gas_layout.specs.Layout.{channel_of, lattice_of, filling, filled};
ghost use Rattle.gas_geom.specs.declared.size.TheConstants.{MOST_SIDE};

use gas_geom::gas::Gas;
use gas_rows::key::key_words;
use gas_rows::lattice::Lattice;
use std::alloc::{AllocError, Global};

// The number of the key stream that fills direction 0.
const FIRST_STREAM: u64 = 1 << 63;

// The bit of direction `i` if the word is a particle at the rate, else 0. It has no branch, because
// a processor mispredicts branches on random words.
fn particle(word: u32, rate: u32, i: u32) -> u8
    requires { i < 8 }
    ensures { result ≡ (if nat_lt (word % 1000) rate then 2 ^ i else 0) }
{
    u8::from(word % 1000 < rate) << i
}

// A filling at a rate in thousandths.
#[derive(Clone, Copy)]
struct Filling {
    seed: u64,
    rate: u32,
}

impl Filling {
    // Adds the particles of direction `i` to the states of row `y`. `words` is a buffer for a row.
    fn add_direction(self, states: &mut [u8], words: &mut [u32], y: u32, i: u32)
        requires as_wide { length words.old ≡ length states.old }
        requires few { length states.old ≤ MOST_SIDE }
        requires row { y < MOST_SIDE }
        requires direction { i < 8 }
        requires below { (x : ℕ) → x < length states.old → slice_index states.old x < 2 ^ i }
        ensures { (x : ℕ) → x < length states.old
            → slice_index states.new x ≡ slice_index states.old x
            + (if filled self.seed self.rate (length states.old) x y i then 2 ^ i else 0) }
    {
        let first = u64::from(y) * states.len() as u64;
        key_words(self.seed, FIRST_STREAM + u64::from(i), first, words);
        for x in 0..states.len() {
            states[x] += particle(words[x], self.rate, i);
        }
    }

    // Computes the states of row `y`. `words` is a buffer for a row.
    #[tactic(auto, unfolding(crate::specs::Layout::filling))]
    fn fill_row<G: Gas>(self, states: &mut [u8], words: &mut [u32], y: u32)
        requires as_wide { length words.old ≡ length states.old }
        requires few { length states.old ≤ MOST_SIDE }
        requires row { y < MOST_SIDE }
        ensures { (x : ℕ) → x < length states.old → slice_index states.new x
            ≡ filling G.rules self.seed self.rate (length states.old) x y }
    {
        states.fill(0);
        for i in 0..G::DIRS {
            self.add_direction(states, words, y, i);
        }
    }
}

/// Fills the fluid cells of an empty lattice at a rate in thousandths, 0 to 1000.
///
/// Direction `i` of the cell `(x, y)` has its own word of the seed's key stream. It is word
/// `y * width + x` of stream `2^63 + i`. The cell gets a particle in this direction if the word
/// modulo 1000 is below the rate. If memory is refused, the lattice is unchanged.
pub fn fill<G: Gas>(
    alloc: Global,
    lattice: &mut Lattice<G>,
    seed: u64,
    rate: u32,
) -> Result<(), AllocError>
    requires size { IsSize lattice.old.channel.width lattice.old.channel.height }
    requires empty { lattice.old ≡ empty_lattice lattice.old.channel }
    requires rate { rate ≤ 1000 }
    ensures channel { lattice.new.channel ≡ lattice.old.channel }
    ensures cells { OnOk result ((w h : ℕ) (solid : ℕ → ℕ → Bool)
        → lattice.old.channel ≡ channel_of w h solid
        → lattice.new
        ≡ lattice_of w h solid (λ x y. if solid x y then 0 else filling G.rules seed rate w x y)) }
    ensures refused { OnErr result (lattice.new ≡ lattice.old) }
{
    if rate == 0 {
        return Ok(());
    }
    let size = lattice.channel().size();
    let width = size.width() as usize;
    let filling = Filling { seed, rate };
    let mut states = vec![in alloc; 0u8; width]?;
    let mut words = vec![in alloc; 0u32; width]?;
    for y in 0..size.height() {
        filling.fill_row::<G>(states.as_mut_slice(), words.as_mut_slice(), y);
        lattice.set_states(y, states.as_slice());
    }
    Ok(())
}
