//! How a thread of a run waits for its neighbours and wakes them.
ghost use Rattle.std.specs.Prelude.{◌≡◌, IsTrue, IsFalse};
ghost use Rattle.gas_pipe.specs.declared.waiter.Turn.TheVariants.{Over};

use crate::backoff::{Backoff, Phase};
use crate::wake_ups::WakeUps;
use std::sync::Wait;
use std::{hint, thread};

/// What a turn of a member of the line came to.
#[derive(Clone, Copy, Debug, PartialEq, Eq)]
pub enum Turn {
    /// A row was taken or put, or the next pass opened.
    Moved,
    /// Neither end was ready.
    Idle,
    /// All passes are over.
    Over,
}

impl Turn {
    /// What this turn and another came to.
    #[inline(always)]
    pub(crate) fn and(self, other: Turn) -> Turn
        ensures over { result ≡ Over → (self ≡ Over) × (other ≡ Over) }
    {
        match (self, other) {
            (Turn::Over, Turn::Over) => Turn::Over,
            (Turn::Moved, _) | (_, Turn::Moved) => Turn::Moved,
            _ => Turn::Idle,
        }
    }
}

/// A thread that waits for its neighbours and wakes them.
#[derive(Drop)]
pub struct Waiter<'a> {
    wake_ups: &'a WakeUps,
    thread: u32,
    backoff: Backoff,
}

impl<'a> Waiter<'a> {
    /// The waiter of a thread. The caller's is number 0.
    pub(crate) fn new(wake_ups: &'a WakeUps, thread: u32) -> Self {
        Waiter {
            wake_ups,
            thread,
            backoff: Backoff::new(),
        }
    }

    /// A row was taken or put, so the wait is over. Wakes the thread at the other end of the belt,
    /// which may wait for the place or for the row.
    #[inline(always)]
    pub(crate) fn note_move(&mut self, other: u32) {
        if self.backoff.end_wait() {
            self.wake_ups.withdraw_park(self.thread as usize);
        }
        self.wake_ups.wake(other as usize);
    }

    /// Takes one step of a wait, after turns in which nothing could be done. Returns whether to go
    /// on: not if the stop flag is raised.
    pub(crate) fn wait<R: Wait>(&mut self, rt: &R, is_stopped: bool) -> bool
        ensures goes_on { IsFalse is_stopped → IsTrue result }
    {
        let Some(phase) = self.backoff.next(is_stopped, self.wake_ups.yield_ban()) else {
            return false;
        };
        match phase {
            Phase::Spin => hint::spin_loop(),
            Phase::Yield => thread::yield_now(),
            Phase::Announce => self.wake_ups.announce_park(self.thread as usize),
            Phase::Park => {
                let was_woken = self.wake_ups.park(rt, self.thread as usize);
                self.backoff.note_park(was_woken);
            }
        }
        true
    }
}
