//! The random bits of collisions, of one row and of one row after another.
ghost use Rattle.std.specs.Prelude.{◌≡◌, ◌<◌, ◌≤◌, ◌+◌, ◌*◌, ℕ, length, map, slice_index_or, false, IfOk};
ghost use Rattle.std.specs.List.{range_with_len};
ghost use Rattle.gas_rows.specs.Chirality.{chirality_bit};
ghost use Rattle.gas_rows.specs.Inner.Key.{IsGeneratorOf, chirality_row};

use crate::key::{generator_of, seek};
use crate::mask::Mask;
use gas_geom::gas::Gas;
use rand_chacha::ChaCha20Rng;
use std::alloc::{AllocError, Global};
use std::marker::Model;

/// The source of the random bits of collisions, one for each generation and cell.
#[derive(Clone, Copy, Debug, PartialEq, Eq)]
pub enum Chirality {
    /// A bit of the key stream under this seed.
    Seeded(u64),
    /// 1 everywhere: a head-on pair of FHP-I turns to the left.
    Left,
    /// 0 everywhere: it turns to the right.
    Right,
}

/// Writes the random bits of row `y` of a channel of that width, for the step from `generation` to
/// the next. The mask has the channel's width.
pub fn chi_row(chirality: Chirality, generation: u64, y: u32, width: u32, out: &mut Mask)
    requires wide { length out.old ≡ width }
    ensures wide { length out.new ≡ width }
    ensures bits { out.new
        ≡ map (λ x. chirality_bit chirality width generation x y) (range_with_len 0 width) }
{
    match chirality {
        Chirality::Seeded(seed) => write_seeded_row(&mut generator_of(seed), generation, y, out),
        Chirality::Left => out.fill(true),
        Chirality::Right => out.fill(false),
    }
}

/// Writes the seeded random bits of row `y`. Each row begins at a key word of its own, so a
/// generator that wrote the row above goes on where it ended.
#[inline(never)]
fn write_seeded_row(generator: &mut ChaCha20Rng, generation: u64, y: u32, out: &mut Mask)
    ensures wide { length out.new ≡ length out.old }
    ensures key { generator.new.key ≡ generator.old.key }
    ensures bits { (chirality : Chirality) → IsGeneratorOf chirality generator.old →
        out.new ≡ chirality_row chirality (length out.old) generation y }
{
    let key_words = out.width().div_ceil(32);
    seek(generator, generation, u64::from(y) * u64::from(key_words));
    out.draw(generator);
}

/// The random bits of the row that was drawn last. Rows cost least when they are drawn from the top
/// down, because each then continues in the block of the key stream where the row above ended.
#[derive(Drop)]
pub struct RandomBits {
    chirality: Chirality,
    bits: Mask,
    // Only seeded bits are drawn; others are the same in every row.
    generator: Option<ChaCha20Rng>,
}

impl Model for RandomBits {
    ghost use Rattle.std.specs.Prelude.{◌≡◌, ℕ, length};
    ghost use Rattle.std.specs.Option.{ForSome, ForNone};
    ghost use Rattle.gas_rows.specs.Chirality.{RandomBitsModel};
    ghost use Rattle.gas_rows.specs.Inner.Key.{IsGeneratorOf, chirality_row};

    ghost Value = { RandomBitsModel };

    ghost view = { λ r. record { chirality = r.chirality; bits = r.bits } };

    ghost invariant = { λ r. record {
      drawn : ForSome r.generator (IsGeneratorOf r.chirality);
      alike : ForNone r.generator ((g y : ℕ) → r.bits ≡ chirality_row r.chirality (length r.bits) g y);
    } };
}

impl RandomBits {
    /// The random bits of rows of 1 to 65536 cells. No row is drawn yet.
    pub fn new(alloc: Global, chirality: Chirality, width: u32) -> Result<Self, AllocError>
        requires some_cells { 1 ≤ width }
        requires few_cells { width ≤ 65536 }
        ensures chirality { IfOk result (λ r. r.chirality ≡ chirality) }
        ensures wide { IfOk result (λ r. length r.bits ≡ width) }
    {
        let mut bits = Mask::blank(alloc, width)?;
        let generator = match chirality {
            Chirality::Seeded(seed) => Some(generator_of(seed)),
            Chirality::Left => {
                bits.fill(true);
                None
            }
            Chirality::Right => None,
        };
        Ok(RandomBits {
            chirality,
            bits,
            generator,
        })
    }

    /// The bits that were drawn last.
    pub fn mask(&self) -> &Mask
        ensures bits { result.now ≡ self.now.bits }
    {
        &self.bits
    }

    /// Draws the random bits of row `y`, for the step from `generation` to the next, if the
    /// collisions of the gas use them.
    #[inline(always)]
    pub fn draw_for<G: Gas>(&mut self, generation: u64, y: u32)
        ensures chirality { self.new.chirality ≡ self.old.chirality }
        ensures wide { length self.new.bits ≡ length self.old.bits }
        ensures collisions { (s x : ℕ) → x < length self.old.bits →
            G.rules.collide s (slice_index_or self.new.bits x false)
            ≡ G.rules.collide s
            (chirality_bit self.old.chirality (length self.old.bits) generation x y) }
    {
        if G::USES_CHIRALITY {
            self.draw(generation, y);
        }
    }

    fn draw(&mut self, generation: u64, y: u32)
        ensures chirality { self.new.chirality ≡ self.old.chirality }
        ensures bits { self.new.bits
            ≡ chirality_row self.old.chirality (length self.old.bits) generation y }
    {
        if let Some(generator) = &mut self.generator {
            write_seeded_row(generator, generation, y, &mut self.bits);
        }
    }
}
