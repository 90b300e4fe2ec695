//! The printed text of a table of blocks.

use super::helpers::{End, Narrow, assert_got};
use gas_tool::{Block, write_table};

// The block at a place, with these numbers of fluid cells and particles and this momentum.
fn block(place: (u32, u32), fluid: u64, particles: u64, momentum: (i64, i64)) -> Block {
    let ((col, row), (px, py)) = (place, momentum);
    Block {
        col,
        row,
        fluid,
        particles,
        px,
        py,
    }
}

// Numbers that need more places than their columns have.
#[test]
fn table_of_wide_numbers(rt: HostRuntime) {
    let (most, least) = (u64::MAX, i64::MIN);
    let blocks = [
        block((u32::MAX, u32::MAX), most, most, (least, i64::MAX)),
        block(
            (12345, 123456),
            12345678,
            123456789,
            (-100000000, -1000000000),
        ),
        block((0, 0), 4294967296, 34359738368, (-4294967297, 8589934592)),
    ];
    let text = "  col   row    fluid particles         px         py
4294967295 4294967295 18446744073709551615 18446744073709551615 -9223372036854775808 9223372036854775807
12345 123456 12345678 123456789 -100000000 -1000000000
    0     0 4294967296 34359738368 -4294967297 8589934592
";
    let mut out = Narrow::new(rt.alloc(), 1, 1000, End::Error);
    let fault = write_table(&blocks, &mut out).err();
    assert_got(&rt, &out, fault.map(|fault| fault.written), text.as_bytes());
}
