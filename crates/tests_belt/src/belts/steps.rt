//! The outcomes of one step after another on a belt whose two ends one thread has.

use super::{ends, is_next, put};
use gas_belt::belt;
use gas_belt::rx::Rx;
use gas_belt::tx::Tx;
use gas_geom::fhp1::Fhp1;
use gas_rows::row::Row;
use std::alloc::{AllocError, Global};
use std::process::Abort;
use std::test::Fail;

// A belt, and how many rows were put on it and taken from it, which are their numbers too.
#[derive(Drop)]
struct Belt {
    tx: Tx<Fhp1>,
    rx: Rx<Fhp1>,
    width: u32,
    put: u32,
    taken: u32,
}

impl Belt {
    fn new(alloc: Global, places: u32, width: u32) -> Result<Belt, AllocError> {
        let (tx, rx) = ends(alloc, places, width)?;
        Ok(Belt {
            tx,
            rx,
            width,
            put: 0,
            taken: 0,
        })
    }

    // Puts the next row. Returns whether there was a place.
    fn put_one(&mut self, alloc: Global) -> Result<bool, AllocError> {
        let back = put(alloc, &mut self.tx, self.width, self.put)?;
        self.put = self.put.wrapping_add(u32::from(back.is_none()));
        Ok(back.is_none())
    }

    // Takes the next row and gives it back as a spare row. Returns whether it came.
    fn take_one(&mut self) -> bool {
        let has_come = is_next(&mut self.rx, self.taken);
        self.taken = self.taken.wrapping_add(u32::from(has_come));
        has_come
    }

    // Puts this number of rows. There is no place for another.
    fn fill(&mut self, rt: &impl Abort, alloc: Global, rows: u32) -> Result<(), AllocError> {
        for n in 0..rows {
            assert!(rt; self.put_one(alloc)?, "row {n}");
        }
        assert!(rt; !self.put_one(alloc)?);
        Ok(())
    }

    fn drain(&mut self, rt: &impl Abort, rows: u32) {
        for n in 0..rows {
            assert!(rt; self.take_one(), "row {n}");
        }
    }

    // Takes all rows that are under way.
    fn empty(&mut self, rt: &impl Abort) {
        self.drain(rt, self.put.wrapping_sub(self.taken));
        assert!(rt; self.rx.try_take().is_none());
    }
}

// After any takes exactly as many rows can be put as were taken.
fn refuses_if_full(
    rt: &impl Abort,
    alloc: Global,
    places: u32,
    width: u32,
) -> Result<(), AllocError> {
    let mut belt = Belt::new(alloc, places, width)?;
    belt.fill(rt, alloc, places)?;
    for rows in [1, places / 2] {
        belt.drain(rt, rows);
        belt.fill(rt, alloc, rows)?;
    }
    belt.empty(rt);
    belt.fill(rt, alloc, places)
}

#[test]
fn a_belt_is_full_if_as_many_rows_are_under_way_as_it_has_places(
    rt: HostRuntime,
) -> Result<(), Fail> {
    for (places, width) in [(1, 7), (8, 7), (8, 1000), (9, 65), (33, 256), (1024, 4)] {
        refuses_if_full(&rt, rt.alloc(), places, width)?;
    }
    Ok(())
}

// Takes a row or puts one. A row is refused exactly if as many are under way as the belt has places.
fn make_any(
    rt: &impl Abort,
    alloc: Global,
    belt: &mut Belt,
    places: u32,
    (choice, takes): (u32, u32),
) -> Result<(), AllocError> {
    if choice < takes {
        belt.take_one();
    } else {
        let under_way = belt.put.wrapping_sub(belt.taken);
        let has_place = belt.put_one(alloc)?;
        assert!(rt; has_place == (under_way < places), "{under_way} under way");
    }
    Ok(())
}

// Makes steps in a mixed order, more puts than takes at first and then more takes than puts.
fn refuses_in_any_order(
    rt: &impl Abort,
    alloc: Global,
    places: u32,
    width: u32,
) -> Result<(), AllocError> {
    let mut belt = Belt::new(alloc, places, width)?;
    belt.fill(rt, alloc, places)?;
    let mut mixed = 1_u32;
    for i in 0..3000_u32 {
        mixed = mixed.wrapping_mul(1_664_525).wrapping_add(1_013_904_223);
        make_any(rt, alloc, &mut belt, places, (mixed >> 29, 4 + i / 500 % 2))?;
    }
    belt.empty(rt);
    Ok(())
}

#[test]
fn rows_have_their_places_in_any_order(rt: HostRuntime) -> Result<(), Fail> {
    for (places, width) in [(8, 7), (9, 65), (33, 256), (1024, 4)] {
        refuses_in_any_order(&rt, rt.alloc(), places, width)?;
    }
    Ok(())
}

// Puts a row with this number in its last cell, takes it, and gives it back. Returns the row that was
// put; None if the belt had no place, or if no row came, or another.
fn carry_one(
    tx: &mut Tx<Fhp1>,
    rx: &mut Rx<Fhp1>,
    mut row: Row<Fhp1>,
    n: u32,
) -> Option<Row<Fhp1>> {
    let last = row.width() - 1;
    row.set(last, (n % 64) as u8);
    tx.try_put(row).ok()?;
    let taken = rx.try_take()?;
    let is_same = taken.width() > last && taken.get(last) == (n % 64) as u8;
    rx.give(taken);
    if is_same { tx.spare() } else { None }
}

#[test]
fn a_belt_carries_two_to_the_26_rows(rt: HostRuntime) -> Result<(), Fail> {
    let (mut tx, mut rx) = belt(rt.alloc(), 1, 1)?;
    let mut row = Row::blank(rt.alloc(), 1)?;
    for n in 0..1 << 26 {
        row = carry_one(&mut tx, &mut rx, row, n).ok_or("a row")?;
    }
    Ok(())
}
