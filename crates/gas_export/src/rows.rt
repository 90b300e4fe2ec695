//! Rows of words, one after another.
ghost use Rattle.std.specs.Prelude.{◌≡◌, ◌*◌, ◌<◌, ◌≤◌, length};
ghost use Rattle.gas_bits.specs.Words.{words_in};
ghost use Rattle.gas_export.specs.Planes.{row_words};

use gas_bits::word::words_for;
use gas_geom::gas::Gas;
use gas_geom::size::Size;
use gas_rows::collision::directions;

/// The number of words of a row of a plane.
#[inline(always)]
pub(crate) fn words_each(size: Size) -> usize
    ensures value { result ≡ words_in size.width }
    ensures few { result ≤ 1024 }
{
    words_for(size.width())
}

/// The number of words of a row of the states of a gas.
#[inline(always)]
pub(crate) fn row_length<G: Gas>(size: Size) -> usize
    ensures value { result ≡ G.rules.dirs * words_in size.width }
    ensures few { result ≤ 8192 }
{
    directions::<G>() * words_each(size)
}

/// Row `y` of `rows` rows of `n` words.
#[inline(always)]
pub(crate) fn row_at(words: &[u64], rows: usize, y: usize, n: usize) -> &[u64]
    requires row { y < rows }
    requires rows { length words.now ≡ rows * n }
    ensures part { result.now ≡ row_words n words.now y }
    ensures long { length result.now ≡ n }
{
    let start = y * n;
    &words[start..start + n]
}

/// Row `y` of rows of the states of a gas.
#[inline(always)]
pub(crate) fn states_at<G: Gas>(size: Size, words: &[u64], rows: usize, y: usize) -> &[u64]
    requires row { y < rows }
    requires rows { length words.now ≡ rows * (G.rules.dirs * words_in size.width) }
    ensures part { result.now ≡ row_words (G.rules.dirs * words_in size.width) words.now y }
    ensures long { length result.now ≡ G.rules.dirs * words_in size.width }
{
    row_at(words, rows, y, row_length::<G>(size))
}

/// The solid cells of row `y`.
#[inline(always)]
pub(crate) fn solid_at(size: Size, solid: &[u64], y: u32) -> &[u64]
    requires row { y < size.height }
    requires solid { length solid.now ≡ size.height * words_in size.width }
    ensures part { result.now ≡ row_words (words_in size.width) solid.now y }
    ensures long { length result.now ≡ words_in size.width }
{
    row_at(solid, size.height() as usize, y as usize, words_each(size))
}
