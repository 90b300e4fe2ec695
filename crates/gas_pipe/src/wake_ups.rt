//! How the threads of a run wake and stop one another. Public for tests only.
//!
//! Parks and wakes have no contracts, because what they do depends on the other threads.
use crate::backoff::{LONGEST_PARK_MILLIS, YieldBan};
use crossbeam_utils::CachePadded;
use std::alloc::{AllocError, Global};
use std::sync::Wait;
use std::sync::atomic::{AtomicBool, AtomicU64, Ordering};
use std::time::Duration;

const AWAKE: u64 = 0;

const PARKING: u64 = 1;

/// The stop flag of a run, and for each of its threads whether it parks or is about to. Threads are
/// counted from the caller's, 0.
#[derive(Drop)]
pub struct WakeUps {
    stop: AtomicBool,
    states: Vec<CachePadded<AtomicU64>>,
    yield_ban: YieldBan,
}

impl WakeUps {
    /// The wake-ups of the caller's thread and of this number of others, all awake.
    pub fn new(alloc: Global, others: u32) -> Result<Self, AllocError> {
        let threads = others as usize + 1;
        let mut states = Vec::with_capacity(alloc, threads)?;
        for _ in 0..threads {
            states.push(CachePadded::new(AtomicU64::new(AWAKE)))?;
        }
        Ok(WakeUps {
            stop: AtomicBool::new(false),
            states,
            yield_ban: YieldBan::new(),
        })
    }

    /// Raises the stop flag.
    pub(crate) fn stop(&self) {
        self.stop.store(true, Ordering::SeqCst);
    }

    /// Whether the stop flag is raised.
    pub(crate) fn is_stopped(&self) -> bool {
        self.stop.load(Ordering::SeqCst)
    }

    /// The ban on yields that all threads share.
    pub(crate) fn yield_ban(&self) -> &YieldBan {
        &self.yield_ban
    }

    fn set(&self, thread: usize, state: u64) {
        if let Some(current) = self.states.get(thread) {
            current.store(state, Ordering::SeqCst);
        }
    }

    /// Announces that a thread parks, so that its neighbours wake it.
    pub fn announce_park(&self, thread: usize) {
        self.set(thread, PARKING);
    }

    /// Withdraws the announcement of a thread that goes on without a park.
    pub fn withdraw_park(&self, thread: usize) {
        self.set(thread, AWAKE);
    }

    /// Parks a thread until it is woken, but not for long, so that it also sees the stop flag.
    /// Returns at once if it was woken since it announced the park. Returns whether it was woken.
    pub fn park<R: Wait>(&self, rt: &R, thread: usize) -> bool {
        let Some(state) = self.states.get(thread) else {
            return true;
        };
        state.park_timeout(
            rt,
            PARKING as u32,
            Duration::from_millis(LONGEST_PARK_MILLIS),
        );
        state.load(Ordering::SeqCst) == AWAKE
    }

    /// Wakes a thread that parks or has announced that it does.
    pub fn wake(&self, thread: usize) {
        if let Some(state) = self.states.get(thread) {
            if state.load(Ordering::SeqCst) == PARKING {
                state.store(AWAKE, Ordering::SeqCst);
                state.wake_one();
            }
        }
    }
}
