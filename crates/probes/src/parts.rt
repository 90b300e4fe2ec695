//! Calls that make what a lattice and a line of workers consist of, or copy it.

use crate::probe::{Made, Probe, has_drifted_to, lent};
use gas_belt::belt;
use gas_geom::fhp1::Fhp1;
use gas_geom::size::Size;
use gas_layout::area::Rectangle;
use gas_layout::drawing::Drawing;
use gas_layout::filling::fill;
use gas_pipe::{Feeder, PlainBelt, Worker};
use gas_rows::channel::Channel;
use gas_rows::chirality::{Chirality, RandomBits};
use gas_rows::lattice::Lattice;
use gas_rows::mask::Mask;
use gas_rows::row::Row;
use gas_stage::stage::Stage;
use std::alloc::{AllocError, Global};

fn free_channel(alloc: Global) -> Result<Channel, AllocError> {
    Channel::free(alloc, Size::new(70, 3).ok_or(AllocError)?)
}

// A rectangle that is refused is not in the channel that is drawn.
fn draw(alloc: Global) -> Made {
    let mut drawing = Drawing::new(alloc, Size::new(70, 3).ok_or(AllocError)?)?;
    let added = drawing.add(Rectangle {
        x: 2,
        y: 1,
        width: 66,
        height: 2,
    });
    let solid = drawing.channel(alloc)?.count_solid();
    match added {
        Ok(()) => Ok(solid == 132),
        Err(error) => lent(Err(error), solid == 0),
    }
}

// A lattice that is not filled is as before.
fn fill_wholly(alloc: Global) -> Made {
    let mut lattice = Lattice::<Fhp1>::blank(alloc, free_channel(alloc)?)?;
    match fill(alloc, &mut lattice, 0, 1000) {
        Ok(()) => Ok(lattice.count() == 6 * 210),
        Err(error) => lent(Err(error), lattice.count() == 0),
    }
}

// A belt hands on a row.
fn put_and_take(alloc: Global) -> Made {
    let mut row = Row::<Fhp1>::blank(alloc, 70)?;
    row.set(69, 0x21);
    let (mut tx, mut rx) = belt(alloc, 1, 70)?;
    if tx.try_put(row).is_err() {
        return Ok(false);
    }
    Ok(rx.try_take().is_some_and(|row| row.count() == 2))
}

fn copy_row(alloc: Global, lattice: &Lattice<Fhp1>) -> Made {
    let is_there = lattice.channel().size().height() > 1;
    Ok(is_there && lattice.row(1).copy(alloc)?.count() == 1)
}

pub fn make(probe: &mut Probe) {
    probe.call("row_blank", |alloc| {
        Ok(Row::<Fhp1>::blank(alloc, 70)?.count() == 0)
    });
    probe.call(
        "mask_blank",
        |alloc| Ok(Mask::blank(alloc, 70)?.count() == 0),
    );
    probe.call("mask_copy", |alloc| {
        Ok(Mask::blank(alloc, 70)?.copy(alloc)?.count() == 0)
    });
    probe.call("random_bits", |alloc| {
        RandomBits::new(alloc, Chirality::Left, 70).map(|_| true)
    });
    probe.call("channel_free", |alloc| {
        Ok(free_channel(alloc)?.count_solid() == 0)
    });
    probe.call("lattice_blank", |alloc| {
        Ok(Lattice::<Fhp1>::blank(alloc, free_channel(alloc)?)?.count() == 0)
    });
    probe.call("drawing", draw);
    probe.call("fill", fill_wholly);
    probe.call("belt", put_and_take);
    probe.call("plain_belt", |alloc| {
        PlainBelt::<Fhp1>::new(alloc, 7).map(|_| true)
    });
    probe.lend("row_copy", copy_row);
    probe.lend("channel_copy", |alloc, lattice| {
        Ok(lattice.channel().copy(alloc)?.count_solid() == 0)
    });
    probe.lend("lattice_copy", |alloc, lattice| {
        Ok(has_drifted_to(&lattice.copy(alloc)?, 0))
    });
    probe.lend("stage", |alloc, lattice| {
        Stage::<Fhp1>::new(alloc, lattice.channel(), Chirality::Left).map(|_| true)
    });
    probe.lend("worker", |alloc, lattice| {
        Worker::<Fhp1>::new(alloc, lattice.channel(), Chirality::Left).map(|_| true)
    });
    probe.lend("feeder", |alloc, lattice| {
        Feeder::new(alloc, lattice).map(|_| true)
    });
}
