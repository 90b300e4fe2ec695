//! A belt whose ends two threads have.

ghost use Rattle.std.specs.Prelude.{◌≡◌, IfOk};

use super::{ends, number, numbered_row};
use gas_belt::carried::meet;
use gas_belt::rx::Rx;
use gas_belt::tx::{Spent, Tx};
use gas_geom::fhp1::Fhp1;
use gas_rows::row::Row;
use std::alloc::{AllocError, Global};
use std::sync::Wait;
use std::test::Fail;
use std::thread;
use std::thread::Threads;

// Puts a row, and waits where the belt is full.
fn put_one(rt: &impl Wait, tx: &mut Tx<Fhp1>, mut row: Row<Fhp1>)
    ensures { tx.new.belt ≡ tx.old.belt }
{
    for _ in rt.forever() {
        match tx.try_put(row) {
            Ok(()) => return,
            Err(back) => row = back,
        }
        thread::yield_now();
    }
    unreachable!()
}

// Puts the rows 0 to 999.
fn put_all(rt: &impl Wait, alloc: Global, mut tx: Tx<Fhp1>) -> Result<Spent<Fhp1>, AllocError>
    ensures { IfOk result (λ s. s.belt ≡ tx.belt) }
{
    for n in 0..1000 {
        put_one(rt, &mut tx, numbered_row(alloc, 4, n)?);
    }
    Ok(tx.close())
}

// Takes a row, and waits until one has come.
fn take_one(rt: &impl Wait, rx: &mut Rx<Fhp1>) -> Row<Fhp1>
    ensures { rx.new.belt ≡ rx.old.belt }
{
    for _ in rt.forever() {
        if let Some(row) = rx.try_take() {
            return row;
        }
        thread::yield_now();
    }
    unreachable!()
}

// Takes 1000 rows. Returns whether they were those put, in their order.
fn take_all(rt: &impl Wait, mut rx: Rx<Fhp1>) -> (Rx<Fhp1>, bool)
    ensures { result.0.belt ≡ rx.belt }
{
    let mut in_order = true;
    for n in 0..1000 {
        let row = take_one(rt, &mut rx);
        in_order &= number(&row) == n;
        rx.give(row);
    }
    (rx, in_order)
}

// Sends 1000 rows through a belt between two threads. Returns how many it carried, and whether they
// came in order; None where its ends do not meet.
fn through_threads<R: Threads + Wait + Sync>(
    rt: &R,
    alloc: Global,
    capacity: u32,
) -> Result<Option<(u64, bool)>, AllocError> {
    let (tx, rx) = ends(alloc, capacity, 4)?;
    let (spent, (rx, in_order)) = thread::join(
        rt,
        move || -> Result<Spent<Fhp1>, AllocError>
            ensures { IfOk result (λ s. s.belt ≡ tx.belt) }
        { put_all(rt, alloc, tx) },
        move || -> (Rx<Fhp1>, bool)
            ensures { result.0.belt ≡ rx.belt }
        { take_all(rt, rx) },
    );
    let Ok(carried) = meet(spent?, rx) else {
        return Ok(None);
    };
    Ok(Some((carried.len(), in_order)))
}

#[test]
fn a_thread_puts_and_a_thread_takes(rt: HostRuntime) -> Result<(), Fail> {
    for capacity in [1, 2, 7, 8, 33] {
        let met = through_threads(&rt, rt.alloc(), capacity)?;
        assert!(rt; met == Some((1000, true)), "{capacity} places");
    }
    Ok(())
}
