//! The places of a belt in a running line.

use super::runs::run_empty;
use gas_pipe::{Gate, Plan};
use std::alloc::Global;
use std::process::Abort;
use std::sync::Wait;
use std::sync::atomic::{AtomicU64, Ordering};
use std::test::Fail;
use std::thread;
use std::thread::Threads;

// A gate in which the second worker looks, before it takes its first row, whether the first one
// enters its second pass: it does only after it has put all rows of its first pass on the belt
// between them.
#[derive(Drop)]
struct SecondLooks {
    looks: u32,
    first_entered: AtomicU64,
    second_entered: AtomicU64,
    seen: AtomicU64,
}

impl SecondLooks {
    fn new(looks: u32) -> Self {
        SecondLooks {
            looks,
            first_entered: AtomicU64::new(0),
            second_entered: AtomicU64::new(0),
            seen: AtomicU64::new(0),
        }
    }

    fn look(&self) -> u64 {
        for _ in 0..self.looks {
            if self.first_entered.load(Ordering::SeqCst) > 1 {
                return 1;
            }
            thread::yield_now();
        }
        0
    }
}

impl Gate for SecondLooks {
    fn enter(&self, who: u32) {
        if who == 1 {
            self.first_entered.fetch_add(1, Ordering::SeqCst);
        } else if self.second_entered.fetch_add(1, Ordering::SeqCst) == 0 {
            self.seen.store(self.look(), Ordering::SeqCst);
        }
    }

    fn leave(&self, _who: u32) {}
}

// Whether all rows of a lattice have places on a belt of a run while none is taken from it.
fn all_rows_have_places<R: Abort + Threads + Wait + Sync>(
    rt: &R,
    alloc: Global,
    rows: u32,
    capacity: u32,
    looks: u32,
) -> Result<bool, Fail> {
    let gate = SecondLooks::new(looks);
    let plan = Plan::new(2, capacity, 4)?;
    let passes = run_empty(rt, alloc, (4, rows), plan, &gate)?;
    assert!(rt; passes == 2);
    Ok(gate.seen.load(Ordering::SeqCst) == 1)
}

#[test]
fn a_belt_of_a_run_has_the_places_of_its_plan(rt: HostRuntime) -> Result<(), Fail> {
    for places in [8, 9, 33] {
        let are_all = all_rows_have_places(&rt, rt.alloc(), places, places, 10_000_000)?;
        assert!(rt; are_all, "{places} places");
        let is_one_more = all_rows_have_places(&rt, rt.alloc(), places + 1, places, 100_000)?;
        assert!(rt; !is_one_more, "{places} places");
    }
    Ok(())
}
