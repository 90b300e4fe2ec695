//! The key stream and the random bits that are read from it.

use gas_rows::chirality::{Chirality, chi_row};
use gas_rows::key::key_words;
use gas_rows::mask::Mask;
use std::alloc::Global;
use std::process::Abort;
use std::test::Fail;

// At this place of the stream stand these words.
fn has_words(rt: &impl Abort, seed: u64, stream: u64, place: u32, wanted: [u32; 4]) {
    let mut words = [0u32; 4];
    key_words(seed, stream, u64::from(place), &mut words);
    assert!(rt;
        words == wanted,
        "seed {seed}, stream {stream}, place {place}"
    );
}

// RFC 8439, appendix A.1: test vector 1, at its places 0 and 2; 4, whose key and counter are not
// zero (a block has 16 places); and 5, whose nonce is not, in the upper half of the stream's number.
#[test]
fn the_key_stream_is_that_of_the_standard(rt: HostRuntime) {
    let first = [0xade0_b876, 0x903d_f1a0, 0xe56a_5d40, 0x28bd_8653];
    has_words(&rt, 0, 0, 0, first);
    let later = [0xe56a_5d40, 0x28bd_8653, 0xb819_d2bd, 0x1aed_8da0];
    has_words(&rt, 0, 0, 2, later);
    let fourth = [0xfb4d_d572, 0x4bc4_2ef1, 0xdf92_2636, 0x327f_1394];
    has_words(&rt, 0xff00, 0, 32, fourth);
    let fifth = [0x374d_c6c2, 0x3736_d58c, 0xb904_e24a, 0xcd3f_93ef];
    has_words(&rt, 0, 2 << 56, 0, fifth);
}

// Of the first eight cells of row `y` and of cell 32 these have the random bit 1 at seed 0.
fn bits_are_set(
    rt: &impl Abort,
    alloc: Global,
    y: u32,
    width: u32,
    cells: &[u32],
) -> Result<(), Fail> {
    let width = width.clamp(1, 64);
    let mut bits = Mask::blank(alloc, width)?;
    chi_row(Chirality::Seeded(0), 0, y, width, &mut bits);
    for x in 0..width {
        if x < 8 || x == 32 {
            assert!(rt; bits.get(x) == cells.contains(&x), "cell {x} of row {y}");
        }
    }
    Ok(())
}

#[test]
fn bits_at_seed_0(rt: HostRuntime) -> Result<(), Fail> {
    bits_are_set(&rt, rt.alloc(), 0, 8, &[1, 2, 4, 5, 6])?;
    bits_are_set(&rt, rt.alloc(), 3, 8, &[0, 1, 4, 6])?;
    bits_are_set(&rt, rt.alloc(), 0, 33, &[1, 2, 4, 5, 6])?;
    bits_are_set(&rt, rt.alloc(), 1, 33, &[6, 32])
}
