//! Lattices whose rows are words of 64 cells.

ghost use Rattle.std.specs.Prelude.{◌≡◌, ◌<◌, ◌*◌, ℕ, length};
ghost use Rattle.gas_geom.specs.Channel.{is_solid};
ghost use Rattle.gas_geom.specs.Lattice.{LatticeModel, cell};
ghost use Rattle.gas_geom.specs.Size.{IsSize};
ghost use Rattle.gas_bits.specs.Words.{words_in, bit};
ghost use Rattle.gas_bits.specs.Planes.{state};

use gas_geom::gas::Gas;
use gas_geom::size::Size;
use gas_rows::lattice::Lattice;

/// A lattice whose rows are words: of the solid cells, and of each direction.
pub trait Rows<G: Gas> {
    ghost lattice: { Self → LatticeModel };

    /// The width and the height.
    fn size(&self) -> Size
        ensures width { result.width ≡ (lattice self.now).channel.width }
        ensures height { result.height ≡ (lattice self.now).channel.height };

    /// The solid cells of row `y`.
    fn solid(&self, y: u32) -> &[u64]
        requires row { y < (lattice self.now).channel.height }
        ensures long { length result.now ≡ words_in (lattice self.now).channel.width }
        ensures cells { (x : ℕ) → x < (lattice self.now).channel.width →
            bit result.now x ≡ is_solid (lattice self.now).channel x y };

    /// The states of row `y`: the words of direction 0, then those of direction 1, and so on.
    fn states(&self, y: u32) -> &[u64]
        requires row { y < (lattice self.now).channel.height }
        ensures long { length result.now ≡ G.rules.dirs * words_in (lattice self.now).channel.width }
        ensures cells { (x : ℕ) → x < (lattice self.now).channel.width →
            state result.now (words_in (lattice self.now).channel.width) G.rules.dirs x
            ≡ cell (lattice self.now).rows x y };
}

impl<G: Gas> Rows<G> for Lattice<G> {
    ghost lattice = { λ l. l };

    fn size(&self) -> Size {
        self.channel().size()
    }

    fn solid(&self, y: u32) -> &[u64] {
        self.channel().mask(y).words()
    }

    fn states(&self, y: u32) -> &[u64] {
        self.row(y).as_words()
    }
}
