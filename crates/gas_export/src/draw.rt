//! The random bits of a row of a part.
ghost use Rattle.std.specs.Prelude.{◌≡◌, ◌<◌, ℕ, length};
ghost use Rattle.gas_bits.specs.Words.{words_in, bit};

use gas_bits::plane::fill;
use gas_geom::gas::Gas;
use gas_geom::size::Size;
use gas_rows::chirality::Chirality;
use gas_rows::key::{draw, generator_of, seek};
use rand_chacha::ChaCha20Rng;

/// Where the random bits of a part come from: the source of the whole, and the row at which the part
/// begins in it.
#[derive(Clone, Copy)]
pub(crate) struct Source {
    pub(crate) chirality: Chirality,
    pub(crate) first_row: u32,
}

impl Source {
    ghost use Rattle.gas_export.specs.Inner.{bit_of, IsReady};

    /// The generator that bits are drawn from. If none are drawn, `bits` gets those of every row.
    pub(crate) fn generator(self, size: Size, bits: &mut [u64]) -> ChaCha20Rng
        requires long { length bits.old ≡ words_in size.width }
        ensures ready { IsReady self.chirality result.key size.width bits.new }
    {
        let (seed, bit) = match self.chirality {
            Chirality::Seeded(seed) => (seed, false),
            Chirality::Left => (0, true),
            Chirality::Right => (0, false),
        };
        fill(bits, size.width(), bit);
        generator_of(seed)
    }

    /// Draws the bits of row `y` of a part, if there are any to be drawn and the gas looks at them.
    #[inline(always)]
    pub(crate) fn draw_row<G: Gas>(
        self,
        generator: &mut ChaCha20Rng,
        generation: u64,
        y: u32,
        size: Size,
        bits: &mut [u64],
    )
        requires row { y < size.height }
        requires ready { IsReady self.chirality generator.old.key size.width bits.old }
        ensures ready { IsReady self.chirality generator.new.key size.width bits.new }
        ensures collisions { (s x : ℕ) → x < size.width →
            G.rules.collide s (bit bits.new x) ≡ G.rules.collide s (bit_of self size.width generation x y) }
    {
        let Chirality::Seeded(_) = self.chirality else {
            return;
        };
        if !G::USES_CHIRALITY {
            return;
        }
        let row = u64::from(self.first_row) + u64::from(y);
        let key_words = u64::from(size.width().div_ceil(32));
        seek(generator, generation, row * key_words);
        draw(bits, size.width(), generator);
    }
}
