//! What a lattice gas is: its directions, its collisions and its momenta, and the number law: no step
//! makes or loses a particle.

ghost use Rattle.std.specs.Prelude.{◌≡◌, ◌<◌, ◌≤◌, ◌^◌, ℕ, List, Bool, false, slice_index_or};
ghost use Rattle.gas_geom.specs.Moves.{amount};
ghost use Rattle.gas_geom.specs.Gas.{Rules, IsGas, holds};
ghost use Rattle.gas_geom.specs.Channel.{ChannelModel};
ghost use Rattle.gas_geom.specs.Lattice.{IsLattice, next, generation, count};
ghost use Rattle.gas_geom.specs.Backwards.{IsSymmetric};
ghost use Rattle.gas_geom.specs.Planes.{set_in, set_at, ZeroFrom};

use crate::word::Word;

/// A lattice gas. A direction is a number below `DIRS`, and a cell's state is the set of the
/// directions in which a particle moves: bit `i` stands for direction `i`.
pub trait Gas {
    ghost rules: { Rules };

    ghost DIRS: { ℕ };

    ghost USES_CHIRALITY: { Bool };

    /// Which direction comes to each by the least turn of the lattice.
    ghost turn: { ℕ → ℕ };

    /// And by a mirror along its rows.
    ghost mirror: { ℕ → ℕ };

    /// The number of directions, 1 to 8.
    const DIRS: u32;

    /// Whether a collision looks at its random bit. If not, a stage draws none.
    const USES_CHIRALITY: bool;

    /// The direction that leads back.
    fn opposite(i: u32) -> u32
        requires direction { i < rules.dirs }
        ensures value { result ≡ rules.opposite i };

    /// The step in a direction from an even or an odd row: the columns to the east and the rows
    /// downwards, each -1 to 1.
    fn step(i: u32, odd: bool) -> (i32, i32)
        requires direction { i < rules.dirs }
        ensures across { result.0 ≡ amount (rules.step i odd).0 }
        ensures down { result.1 ≡ amount (rules.step i odd).1 };

    /// The state after a collision. If there is a choice, the random bit `chi` decides.
    fn collide(state: u8, chi: bool) -> u8
        requires state { state < 2 ^ rules.dirs }
        ensures value { result ≡ rules.collide state chi };

    /// The states of the cells of a word after a collision. Bit `c` of plane `i` is set if cell `c`
    /// holds a particle in direction `i`, and bit `c` of `chi` is the random bit of cell `c`. The
    /// planes from `DIRS` on are not looked at.
    fn collide_planes<W: Word>(planes: [W; 8], chi: W) -> [W; 8]
        ensures cells { (c : ℕ) → c < W.cells → set_in W.bit W.none rules.dirs result c
            ≡ rules.collide (set_in W.bit W.none rules.dirs planes c) (W.bit chi c) }
        ensures rest { (i : ℕ) → rules.dirs ≤ i → slice_index_or result i W.none ≡ W.none };

    /// The states of 64 cells after a collision. Bit `b` of plane `i` is set if cell `b` holds a
    /// particle in direction `i`, and bit `b` of `chi` is the random bit of cell `b`. The planes
    /// from `DIRS` on are zero.
    #[inline(always)]
    fn collide64(planes: [u64; 8], chi: u64) -> [u64; 8]
        requires rest { ZeroFrom rules.dirs planes }
        ensures cells { (b : ℕ) → b < 64 → set_at rules.dirs result b
            ≡ rules.collide (set_at rules.dirs planes b) (holds chi b) }
        ensures rest { ZeroFrom rules.dirs result }
    {
        Self::collide_planes(planes, chi)
    }

    /// The momentum of a particle in a direction, eastwards and northwards, each -2 to 2.
    fn momentum(i: u32) -> (i32, i32)
        requires direction { i < rules.dirs }
        ensures eastwards { result.0 ≡ (rules.momentum i).0 }
        ensures northwards { result.1 ≡ (rules.momentum i).1 };

    ghost dirs_are: { rules.dirs ≡ DIRS };

    ghost laws: { IsGas rules };

    ghost symmetry: { IsSymmetric rules turn mirror };

    ghost ignores: { USES_CHIRALITY ≡ false →
        (s : ℕ) (chi chi' : Bool) → rules.collide s chi ≡ rules.collide s chi' };
}

/// The next lattice has the same number of particles, for any random bits.
pub fn number_law<G: Gas>()
    ensures kept { (channel : ChannelModel) (chi : ℕ → ℕ → Bool)
        (rows : List (List ℕ)) → IsLattice G.rules channel rows →
        count G.rules (next G.rules channel chi rows) ≡ count G.rules rows }
{}

/// Every generation has the same number of particles, for any random bits.
pub fn number_law_of_runs<G: Gas>()
    ensures kept { (channel : ChannelModel) (chi : ℕ → ℕ → ℕ → Bool) (start : ℕ)
        (rows : List (List ℕ)) → IsLattice G.rules channel rows → (n : ℕ) →
        count G.rules (generation G.rules channel chi start rows n) ≡ count G.rules rows }
{}
