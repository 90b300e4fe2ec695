//! The gas FHP-I.

ghost use Rattle.std.specs.Prelude.{◌≡◌, ◌<◌, ◌≤◌, ◌^◌, ℕ, true, refl};
ghost use Rattle.gas_geom.specs.Fhp1.{fhp1, sixth, hexagon_mirror};
ghost use Rattle.gas_geom.specs.Laws.Trials.{IsGas-passed, IsSymmetric-passed, uses-chirality};

use crate::gas::Gas;
use crate::word::Word;

/// The gas FHP-I of Frisch, Hasslacher and Pomeau (1986): the directions E, NE, NW, W, SW and SE
/// (0 to 5) of the triangular lattice, two-body and three-body collisions, no particle at rest.
/// Momentum is in half units eastwards and in units of half the square root of 3 northwards.
#[derive(Clone, Copy)]
pub struct Fhp1;

impl Gas for Fhp1 {
    ghost rules = { fhp1 };

    ghost DIRS = { 6 };

    ghost USES_CHIRALITY = { true };

    const DIRS: u32 = 6;

    const USES_CHIRALITY: bool = true;

    ghost dirs_are = { refl };

    ghost laws = { IsGas-passed fhp1 refl };

    ghost turn = { sixth };

    ghost mirror = { hexagon_mirror };

    ghost symmetry = { IsSymmetric-passed fhp1 sixth hexagon_mirror refl };

    ghost ignores = { uses-chirality fhp1 };

    fn opposite(i: u32) -> u32 {
        (i + 3) % 6
    }

    fn step(i: u32, odd: bool) -> (i32, i32) {
        match (i, odd) {
            (0, _) => (1, 0),
            (1, false) => (0, -1),
            (1, true) => (1, -1),
            (2, false) => (-1, -1),
            (2, true) => (0, -1),
            (3, _) => (-1, 0),
            (4, false) => (-1, 1),
            (4, true) => (0, 1),
            (_, false) => (0, 1),
            (_, true) => (1, 1),
        }
    }

    fn collide(state: u8, chi: bool) -> u8 {
        match state {
            0x09 => if chi { 0x12 } else { 0x24 },
            0x12 => if chi { 0x24 } else { 0x09 },
            0x24 => if chi { 0x09 } else { 0x12 },
            0x15 => 0x2a,
            0x2a => 0x15,
            other => other,
        }
    }

    #[inline(always)]
    fn collide_planes<W: Word>(planes: [W; 8], chi: W) -> [W; 8] {
        let [e, ne, nw, w, sw, se, _, _] = planes;
        // An axis with one particle has the spectator of a pair; a triple has one on every axis.
        let (one_e, one_ne, one_nw) = (e.xor(w), ne.xor(sw), nw.xor(se));
        let unlike = e.xor(ne);
        let triple = one_e.and(one_ne).and(one_nw).and(unlike).and(ne.xor(nw));
        let more = e.and(ne).or(one_e).or(one_ne).or(one_nw);
        let pair = unlike.xor(nw).and(more.not());
        // A pair leaves its axis for the next one to the left or to the right.
        let right = chi.not();
        let pair_e = pair.and(e.or(nw.xor(right)));
        let pair_ne = pair.and(ne.or(e.xor(right)));
        let along_e = triple.or(pair_e);
        let along_ne = triple.or(pair_ne);
        let along_nw = triple.or(pair_e.xor(pair_ne));
        let zero = W::zero();
        [
            e.xor(along_e),
            ne.xor(along_ne),
            nw.xor(along_nw),
            w.xor(along_e),
            sw.xor(along_ne),
            se.xor(along_nw),
            zero,
            zero,
        ]
    }

    fn momentum(i: u32) -> (i32, i32) {
        match i {
            0 => (2, 0),
            1 => (1, 1),
            2 => (-1, 1),
            3 => (-2, 0),
            4 => (-1, -1),
            _ => (1, -1),
        }
    }
}
