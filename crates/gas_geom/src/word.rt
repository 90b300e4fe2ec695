//! Words of cells: a bit for each of 64 cells, or of 256.

ghost use Rattle.std.specs.Prelude.{◌≡◌, ◌<◌, ◌&&◌, ◌||◌, not, ℕ, Bool, false, replicate};
ghost use Rattle.gas_geom.specs.Gas.{holds};
ghost use Rattle.gas_geom.specs.Lanes.{lanes_hold};
ghost use Rattle.gas_geom.specs.Planes.{differ};

use std::simd::prelude::*;

/// A word of cells: a bit for each of its cells.
pub trait Word: Copy {
    /// The number of its cells.
    ghost cells: { ℕ };

    /// Whether the bit of a cell is set.
    ghost bit: { Self → ℕ → Bool };

    /// The word in which no bit is set.
    ghost none: { Self };

    /// The word in which no bit is set.
    fn zero() -> Self
        ensures none { result ≡ none }
        ensures bits { (c : ℕ) → c < cells → bit result c ≡ false };

    /// The bits that are set in both words.
    fn and(self, other: Self) -> Self
        ensures bits { (c : ℕ) → c < cells → bit result c ≡ (bit self c && bit other c) };

    /// The bits that are set in one of two words, or in both.
    fn or(self, other: Self) -> Self
        ensures bits { (c : ℕ) → c < cells → bit result c ≡ (bit self c || bit other c) };

    /// The bits that are set in just one of two words.
    fn xor(self, other: Self) -> Self
        ensures bits { (c : ℕ) → c < cells → bit result c ≡ differ (bit self c) (bit other c) };

    /// The bits that are not set.
    fn not(self) -> Self
        ensures bits { (c : ℕ) → c < cells → bit result c ≡ not (bit self c) };
}

/// A word of 64 cells.
impl Word for u64 {
    ghost cells = { 64 };

    ghost bit = { holds };

    ghost none = { 0 };

    #[inline(always)]
    fn zero() -> u64 {
        0
    }

    #[inline(always)]
    fn and(self, other: u64) -> u64 {
        self & other
    }

    #[inline(always)]
    fn or(self, other: u64) -> u64 {
        self | other
    }

    #[inline(always)]
    fn xor(self, other: u64) -> u64 {
        self ^ other
    }

    #[inline(always)]
    fn not(self) -> u64 {
        !self
    }
}

/// Four words of 64 cells, the first 64 in the first.
impl Word for u64x4 {
    ghost cells = { 256 };

    ghost bit = { lanes_hold };

    ghost none = { replicate 4 0 };

    #[inline(always)]
    fn zero() -> u64x4 {
        u64x4::splat(0)
    }

    #[inline(always)]
    fn and(self, other: u64x4) -> u64x4 {
        self & other
    }

    #[inline(always)]
    fn or(self, other: u64x4) -> u64x4 {
        self | other
    }

    #[inline(always)]
    fn xor(self, other: u64x4) -> u64x4 {
        self ^ other
    }

    #[inline(always)]
    fn not(self) -> u64x4 {
        !self
    }
}
