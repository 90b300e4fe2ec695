//! The gas HPP.

ghost use Rattle.std.specs.Prelude.{◌≡◌, ◌<◌, ◌≤◌, ◌^◌, ℕ, false, refl};
ghost use Rattle.gas_geom.specs.Hpp.{hpp, quarter, square_mirror};
ghost use Rattle.gas_geom.specs.Laws.Trials.{IsGas-passed, IsSymmetric-passed};

use crate::gas::Gas;
use crate::word::Word;

/// The gas HPP of Hardy, Pomeau and de Pazzis (1973): the directions E, N, W and S (0 to 3) of the
/// square lattice, head-on collisions. It ignores the random bit. Momentum is in whole units.
#[derive(Clone, Copy)]
pub struct Hpp;

impl Gas for Hpp {
    ghost rules = { hpp };

    ghost DIRS = { 4 };

    ghost USES_CHIRALITY = { false };

    const DIRS: u32 = 4;

    const USES_CHIRALITY: bool = false;

    ghost dirs_are = { refl };

    ghost laws = { IsGas-passed hpp refl };

    ghost turn = { quarter };

    ghost mirror = { square_mirror };

    ghost symmetry = { IsSymmetric-passed hpp quarter square_mirror refl };

    ghost ignores = { λ _ s chi chi'. refl };

    fn opposite(i: u32) -> u32 {
        (i + 2) % 4
    }

    fn step(i: u32, _odd: bool) -> (i32, i32) {
        match i {
            0 => (1, 0),
            1 => (0, -1),
            2 => (-1, 0),
            _ => (0, 1),
        }
    }

    fn collide(state: u8, _chi: bool) -> u8 {
        match state {
            0x05 => 0x0a,
            0x0a => 0x05,
            other => other,
        }
    }

    #[inline(always)]
    fn collide_planes<W: Word>(planes: [W; 8], _chi: W) -> [W; 8] {
        let [e, n, w, s, _, _, _, _] = planes;
        // One head-on pair: both directions of an axis are alike, and the two axes differ.
        let turns = e.xor(n).and(e.xor(w).or(n.xor(s)).not());
        let zero = W::zero();
        [
            e.xor(turns),
            n.xor(turns),
            w.xor(turns),
            s.xor(turns),
            zero,
            zero,
            zero,
            zero,
        ]
    }

    fn momentum(i: u32) -> (i32, i32) {
        match i {
            0 => (1, 0),
            1 => (0, 1),
            2 => (-1, 0),
            _ => (0, -1),
        }
    }
}
