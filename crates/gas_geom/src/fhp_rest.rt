//! The gas fhp-rest: FHP-I's lattice with particles at rest.

ghost use Rattle.std.specs.Prelude.{◌≡◌, ◌<◌, ◌≤◌, ◌^◌, ℕ, true, refl};
ghost use Rattle.gas_geom.specs.Fhp1.{sixth, hexagon_mirror};
ghost use Rattle.gas_geom.specs.FhpRest.{fhp_rest};
ghost use Rattle.gas_geom.specs.Laws.Trials.{IsGas-passed, IsSymmetric-passed, uses-chirality};

use crate::fhp1::Fhp1;
use crate::gas::Gas;
use crate::word::Word;

/// The gas fhp-rest: the directions of FHP-I, 0 to 5, and direction 6, in which a particle rests.
/// FHP-I's collisions take place whether or not a particle rests in the cell. Besides, a moving
/// particle and one at rest become two that leave to its left and its right, at a sixth of a turn
/// from its direction, and two such particles become a moving one and one at rest. These collision
/// rules were published as FHP-II (Frisch and others 1987), but this project claims no more than
/// its own table. Momentum is in FHP-I's units.
#[derive(Clone, Copy)]
pub struct FhpRest;

impl Gas for FhpRest {
    ghost rules = { fhp_rest };

    ghost DIRS = { 7 };

    ghost USES_CHIRALITY = { true };

    const DIRS: u32 = 7;

    const USES_CHIRALITY: bool = true;

    ghost dirs_are = { refl };

    ghost laws = { IsGas-passed fhp_rest refl };

    ghost turn = { sixth };

    ghost mirror = { hexagon_mirror };

    ghost symmetry = { IsSymmetric-passed fhp_rest sixth hexagon_mirror refl };

    ghost ignores = { uses-chirality fhp_rest };

    fn opposite(i: u32) -> u32 {
        if i == 6 { 6 } else { (i + 3) % 6 }
    }

    fn step(i: u32, odd: bool) -> (i32, i32) {
        if i == 6 { (0, 0) } else { Fhp1::step(i, odd) }
    }

    fn collide(state: u8, chi: bool) -> u8 {
        match state {
            0x41 => 0x22,
            0x22 => 0x41,
            0x42 => 0x05,
            0x05 => 0x42,
            0x44 => 0x0a,
            0x0a => 0x44,
            0x48 => 0x14,
            0x14 => 0x48,
            0x50 => 0x28,
            0x28 => 0x50,
            0x60 => 0x11,
            0x11 => 0x60,
            moving if moving < 0x40 => Fhp1::collide(moving, chi),
            beside_rest => 0x40 + Fhp1::collide(beside_rest - 0x40, chi),
        }
    }

    #[inline(always)]
    fn collide_planes<W: Word>(planes: [W; 8], chi: W) -> [W; 8] {
        let [e, ne, nw, w, sw, se, rest, _] = planes;
        let (one_e, one_ne, one_nw) = (e.xor(w), ne.xor(sw), nw.xor(se));
        // E, NW and SW lie at equal angles, and so do NE, W and SE.
        let (first, second) = (e.or(nw).or(sw), ne.or(w).or(se));
        // A single particle beside one at rest, or two of one such triple beside none: each axis
        // that holds one loses it, and each other axis gains one of the other triple.
        let odd = one_e.xor(one_ne).xor(one_nw);
        let unlike = one_e.and(one_ne).and(one_nw).or(odd.xor(rest));
        let exchange = first.xor(second).and(unlike.not());
        let at_e = exchange.and(one_e.xor(second));
        let at_ne = exchange.and(one_ne.xor(first));
        let at_nw = exchange.and(one_nw.xor(second));
        // FHP-I leaves the cells that exchange as they are, and collides the others.
        let [e, ne, nw, w, sw, se, _, _] = Fhp1::collide_planes(planes, chi);
        [
            e.xor(at_e),
            ne.xor(at_ne),
            nw.xor(at_nw),
            w.xor(exchange.xor(at_e)),
            sw.xor(exchange.xor(at_ne)),
            se.xor(exchange.xor(at_nw)),
            rest.xor(exchange),
            W::zero(),
        ]
    }

    fn momentum(i: u32) -> (i32, i32) {
        if i == 6 { (0, 0) } else { Fhp1::momentum(i) }
    }
}
