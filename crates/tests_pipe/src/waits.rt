//! How a thread waits, stepped by hand: the phases of its waits, the bans on yields, and wake-ups.
//! The numbers are those that docs/DECISIONS.md states ("How a thread waits").

use gas_pipe::backoff::Phase::{Announce, Park, Spin, Yield};
use gas_pipe::backoff::{Backoff, Phase, YieldBan};
use gas_pipe::wake_ups::WakeUps;
use std::process::Abort;
use std::sync::Wait;
use std::test::Fail;

// The next steps of a wait are in this phase, as often as that.
fn goes_on(rt: &impl Abort, backoff: &mut Backoff, ban: &YieldBan, phase: Phase, times: u32) {
    for step in 0..times {
        let next = backoff.next(false, ban);
        assert!(rt; next == Some(phase), "{phase:?}, step {step}");
    }
}

// The thread parks twice, and before each park it announces it and tries once more; then the wait
// ends.
fn parks(rt: &impl Abort, backoff: &mut Backoff, ban: &YieldBan, was_woken: bool) {
    for _ in 0..2 {
        goes_on(rt, backoff, ban, Announce, 1);
        goes_on(rt, backoff, ban, Park, 1);
        backoff.note_park(was_woken);
    }
    assert!(rt; !backoff.end_wait());
}

// A wait of 128 spins, as it is in a trial and where yields are banned.
fn tries_without_yields(rt: &impl Abort, backoff: &mut Backoff, ban: &YieldBan, was_woken: bool) {
    goes_on(rt, backoff, ban, Spin, 128);
    parks(rt, backoff, ban, was_woken);
}

// A wait of 4 spins and 1,024 yields.
fn yields(rt: &impl Abort, backoff: &mut Backoff, ban: &YieldBan, was_woken: bool) {
    goes_on(rt, backoff, ban, Spin, 4);
    goes_on(rt, backoff, ban, Yield, 1024);
    parks(rt, backoff, ban, was_woken);
}

// The first of so many waits is a trial, and in the others the row comes after one yield.
fn trial_begins(rt: &impl Abort, backoff: &mut Backoff, ban: &YieldBan, waits: u32) {
    tries_without_yields(rt, backoff, ban, true);
    for _ in 1..waits {
        goes_on(rt, backoff, ban, Spin, 4);
        goes_on(rt, backoff, ban, Yield, 1);
        assert!(rt; !backoff.end_wait());
    }
}

// The gap from a trial to the next is 4 waits, then twice as many each time, but at most 1,024.
#[test]
fn trials_come_further_apart(rt: HostRuntime) {
    let (mut backoff, ban) = (Backoff::new(), YieldBan::new());
    for gap in [4, 8, 16, 32, 64, 128, 256, 512, 1024, 1024, 1024] {
        trial_begins(&rt, &mut backoff, &ban, gap);
    }
}

// After a miss the next wait is a trial, and the gaps begin anew.
#[test]
fn a_miss_brings_trials_near_again(rt: HostRuntime) {
    let (mut backoff, ban) = (Backoff::new(), YieldBan::new());
    for gap in [4, 8, 16] {
        trial_begins(&rt, &mut backoff, &ban, gap);
    }
    tries_without_yields(&rt, &mut backoff, &ban, true);
    yields(&rt, &mut backoff, &ban, false);
    for gap in [4, 8, 16] {
        trial_begins(&rt, &mut backoff, &ban, gap);
    }
}

// Two misses are followed by a trial each, the third by a ban of 16,384 waits, in which nothing
// counts as a miss. Then all is as at first.
#[test]
fn three_missed_waits_ban_yields(rt: HostRuntime) {
    let (mut backoff, ban) = (Backoff::new(), YieldBan::new());
    tries_without_yields(&rt, &mut backoff, &ban, true);
    for _ in 0..2 {
        yields(&rt, &mut backoff, &ban, false);
        tries_without_yields(&rt, &mut backoff, &ban, false);
        tries_without_yields(&rt, &mut backoff, &ban, true);
    }
    yields(&rt, &mut backoff, &ban, false);
    tries_without_yields(&rt, &mut backoff, &ban, false);
    tries_without_yields(&rt, &mut backoff, &ban, false);
    for _ in 0..16_384 {
        tries_without_yields(&rt, &mut backoff, &ban, false);
    }
    tries_without_yields(&rt, &mut backoff, &ban, true);
    yields(&rt, &mut backoff, &ban, true);
}

// All threads of a run count a ban down. After it the first wait of each is a trial.
#[test]
fn a_ban_holds_for_all_threads(rt: HostRuntime) {
    let (mut one, mut other, ban) = (Backoff::new(), Backoff::new(), YieldBan::new());
    for _ in 0..3 {
        tries_without_yields(&rt, &mut one, &ban, false);
    }
    for _ in 0..8_192 {
        tries_without_yields(&rt, &mut one, &ban, false);
        tries_without_yields(&rt, &mut other, &ban, false);
    }
    tries_without_yields(&rt, &mut other, &ban, true);
    yields(&rt, &mut other, &ban, true);
    tries_without_yields(&rt, &mut one, &ban, true);
    yields(&rt, &mut one, &ban, true);
}

// The stop flag ends each phase of the first wait, a trial, and of the second, in which it yields.
#[test]
fn the_stop_flag_ends_every_phase(rt: HostRuntime) {
    let (mut backoff, ban) = (Backoff::new(), YieldBan::new());
    for wait in 0..2 {
        for step in 0..1060 {
            assert!(rt;
                backoff.next(true, &ban).is_none(),
                "wait {wait}, step {step}"
            );
            assert!(rt;
                backoff.next(false, &ban).is_some(),
                "wait {wait}, step {step}"
            );
        }
        backoff.end_wait();
    }
}

// A thread takes a row as soon as it finds one; where it finds none it takes a step. Its neighbour
// puts one row between a try and a step. Returns the step after which it found the row; None where
// it parked and was not woken.
fn found_at(rt: &impl Wait, wake_ups: &WakeUps, put_at: u32) -> Option<u32> {
    let (mut backoff, ban) = (Backoff::new(), YieldBan::new());
    for step in 0..2000 {
        if step > put_at {
            if backoff.end_wait() {
                wake_ups.withdraw_park(0);
            }
            return Some(step);
        }
        if step == put_at {
            wake_ups.wake(0);
        }
        match backoff.next(false, &ban)? {
            Spin | Yield => {}
            Announce => wake_ups.announce_park(0),
            Park => {
                let was_woken = wake_ups.park(rt, 0);
                if step == put_at && !was_woken {
                    return None;
                }
            }
        }
    }
    None
}

// Step 128 of the first wait is the announcement, and step 129 the park, counted from 0: a put
// before the announcement is found by the try behind it, and one after it ends the park at once.
#[test]
fn no_put_is_missed(rt: HostRuntime) -> Result<(), Fail> {
    let wake_ups = WakeUps::new(rt.alloc(), 1)?;
    for put_at in 122..134u32 {
        assert_eq!(rt;
            found_at(&rt, &wake_ups, put_at),
            Some(put_at.wrapping_add(1)),
            "{put_at}"
        );
    }
    Ok(())
}
