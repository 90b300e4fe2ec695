//! Blank masks, and the words of a row.

use gas_geom::fhp1::Fhp1;
use gas_geom::size::Size;
use gas_rows::channel::Channel;
use gas_rows::mask::Mask;
use gas_rows::row::Row;
use std::process::Abort;
use std::test::Fail;

// Once single cells were set, a mask no longer knows whether it is blank.
#[test]
fn a_blank_mask(rt: HostRuntime) -> Result<(), Fail> {
    let mut mask = Mask::blank(rt.alloc(), 65)?;
    assert!(rt; !mask.get(64));
    assert!(rt; mask.is_blank() && mask.copy(rt.alloc())?.is_blank());
    mask.set(64, true);
    assert!(rt; !mask.is_blank() && !mask.copy(rt.alloc())?.is_blank());
    mask.set(64, false);
    assert!(rt; !mask.is_blank());
    Ok(())
}

#[test]
fn a_blank_row_of_a_channel(rt: HostRuntime) -> Result<(), Fail> {
    let size = Size::new(65, 1).ok_or("a size")?;
    let mut channel = Channel::free(rt.alloc(), size)?;
    assert!(rt; channel.mask(0).is_blank());
    channel.make_solid(64, 0);
    assert!(rt; !channel.mask(0).is_blank());
    channel.set_row(0, &[false; 65]);
    assert!(rt; channel.mask(0).is_blank());
    Ok(())
}

// The last cell of 65 stands alone in the second word of each direction, and bits past it are
// dropped.
#[test]
fn the_last_cell_of_65(rt: HostRuntime) -> Result<(), Fail> {
    let mut row = Row::<Fhp1>::blank(rt.alloc(), 65)?;
    row.set(64, 0x3f);
    let mut words = [7; 12];
    row.words(&mut words);
    assert!(rt; words == [0, 1, 0, 1, 0, 1, 0, 1, 0, 1, 0, 1]);
    row.load_words(&[u64::MAX; 12]);
    assert!(rt; row.count() == 390);
    row.words(&mut words);
    let all = u64::MAX;
    assert!(rt; words == [all, 1, all, 1, all, 1, all, 1, all, 1, all, 1]);
    Ok(())
}
