//! The key stream of a seed, by the cipher ChaCha20, and its bits as the words of a mask.
ghost use Rattle.std.specs.Prelude.{◌≡◌, ◌<◌, ◌≤◌, ◌*◌, ◌/◌, ◌%◌, ◌^◌, ◌+◌, ◌&&◌, ℕ, nat_lt, length, slice_index, EachIndex};
ghost use Rattle.gas_geom.specs.Gas.{holds};
ghost use Rattle.gas_bits.specs.Words.{words_in, bit};
ghost use Rattle.rand_chacha.specs.ChaCha.{key_of};
ghost use Rattle.gas_rows.specs.Key.{key_word, key_bytes, drawn_bit};

use gas_bits::plane::clear_past;
use rand_chacha::ChaCha20Rng;
use rand_core::SeedableRng;
use rand_core::utils::{NextWord, next_u64_via_u32};

/// The generator of ChaCha20 (the block function of RFC 8439) under the key of a seed: its 8 bytes,
/// the least first, and 24 zero bytes.
pub fn generator_of(seed: u64) -> ChaCha20Rng
    ensures key { result.key ≡ key_of (key_bytes seed) }
{
    let mut key = [0u8; 32];
    key[..8].copy_from_slice(&seed.to_le_bytes());
    ChaCha20Rng::from_seed(key)
}

/// Sets a generator to a position of a stream. If it is there already, it keeps its buffered block.
#[inline(always)]
pub fn seek(generator: &mut ChaCha20Rng, stream: u64, position: u64)
    ensures sought { generator.new ≡ record generator.old { stream = stream; word_pos = position } }
{
    if generator.get_stream() == stream && generator.get_word_pos() == u128::from(position) {
        return;
    }
    generator.set_word_pos(u128::from(position));
    generator.set_stream(stream);
}

/// Sets `out[j]` to key word `first + j` of a stream: 32 bits of ChaCha20 (the block function of
/// RFC 8439) under the key of the seed, its 8 bytes, the least first, and 24 zero bytes.
#[tactic(auto, unfolding(crate::specs::Key::key_word))]
pub fn key_words(seed: u64, stream: u64, first: u64, out: &mut [u32])
    requires room { first + length out.old < 2 ^ 64 }
    ensures words { EachIndex out.new (λ j. slice_index out.new j
        ≡ key_word seed stream (first + j)) }
{
    let mut generator = generator_of(seed);
    seek(&mut generator, stream, first);
    for word in out.iter_mut() {
        *word = generator.next_word();
    }
}

// Writes words whose halves are the next key words of a generator. A high half that lies past the
// width is 0 and is not drawn.
fn draw_words(words: &mut [u64], width: u32, generator: &mut ChaCha20Rng)
    requires some_cells { 1 ≤ width }
    requires long { length words.old ≡ words_in width }
    requires places { generator.old.word_pos + 2 * length words.old < 2 ^ 68 }
    ensures key { generator.new.key ≡ generator.old.key }
    ensures bits { (x : ℕ) → x < width →
        bit words.new x ≡ drawn_bit generator.old x }
{
    let halves = width.div_ceil(32) as usize;
    let whole = halves / 2;
    for j in 0..whole {
        words[j] = next_u64_via_u32(generator);
    }
    if halves % 2 == 1 {
        words[whole] = u64::from(generator.next_word());
    }
}

/// Writes a bit for each cell of a row from the next key words of a generator, 32 cells each.
pub fn draw(words: &mut [u64], width: u32, generator: &mut ChaCha20Rng)
    requires some_cells { 1 ≤ width }
    requires long { length words.old ≡ words_in width }
    requires places { generator.old.word_pos + 2 * length words.old < 2 ^ 68 }
    ensures key { generator.new.key ≡ generator.old.key }
    ensures bits { (x : ℕ) → bit words.new x ≡ (nat_lt x width && drawn_bit generator.old x) }
{
    draw_words(words, width, generator);
    clear_past(words, width);
}
