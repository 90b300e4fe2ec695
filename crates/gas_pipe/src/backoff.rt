//! When a thread of the line that waits spins, yields and parks. Public for tests only.
ghost use Rattle.std.specs.Prelude.{IsSome, IsFalse};

use crossbeam_utils::CachePadded;
use std::sync::atomic::{AtomicU64, Ordering};

// The numbers of the policy. Their reasons are in docs/DECISIONS.md ("How a thread waits").

// Spins before the first yield: few, because the neighbour that makes the row may need the
// processor.
const SPINS: u32 = 4;

// Yields before the first park: they last longer than a parked thread mostly takes to wake.
const YIELDS: u32 = 1024;

// Spins before the first park of a wait without yields: a park costs as much as many of them.
const SPINS_WITHOUT_YIELDS: u32 = 128;

// The longest park: a lost wake-up costs no more, and the stop flag is seen no later.
pub(crate) const LONGEST_PARK_MILLIS: u64 = 1;

// A trial is a wait without yields: it finds out whether yields are expensive. If they are, all
// threads of a run stop yielding for a while.

// Waits from the first trial to the next: few, so that busy processors are noticed soon.
const FIRST_GAP: u32 = 4;

// The most waits from a trial to the next: many, because a trial may cost a late wake-up.
const LONGEST_GAP: u32 = 1024;

// Late wake-ups in a row that ban yields: one may be a processor that was away for a moment.
const LATE_WAKES: u32 = 3;

// Waits of a ban: many, because it takes long to find out again that yields are expensive.
const WAITS_WITHOUT_YIELDS: u64 = 16_384;

/// What a thread does after a try in which it could neither put nor take a row.
#[derive(Clone, Copy, Debug, PartialEq, Eq)]
pub enum Phase {
    /// It tries again at once.
    Spin,
    /// It yields its processor.
    Yield,
    /// It announces that it parks next. One more try follows, so that a row that was put before the
    /// announcement is found.
    Announce,
    /// It parks, unless a neighbour woke it since the announcement.
    Park,
}

/// The policy by which one thread waits: a value that is stepped after each try that failed.
#[derive(Drop)]
pub struct Backoff {
    // The failed tries of this wait, and whether the last step announced a park.
    tries: u32,
    is_announced: bool,
    trials: Trials,
}

impl Backoff {
    /// The policy before the first wait.
    pub fn new() -> Self {
        Backoff {
            tries: 0,
            is_announced: false,
            trials: Trials::new(),
        }
    }

    // The phase after the failed tries of this wait.
    fn phase(&self) -> Phase {
        let yields = self.trials.mode == Mode::Yielding;
        let spins = if yields { SPINS } else { SPINS_WITHOUT_YIELDS };
        if self.tries < spins {
            Phase::Spin
        } else if yields && self.tries < SPINS + YIELDS {
            Phase::Yield
        } else if self.is_announced {
            Phase::Park
        } else {
            Phase::Announce
        }
    }

    /// The next phase, after a try that failed. None if the stop flag is raised.
    pub fn next(&mut self, is_stopped: bool, ban: &YieldBan) -> Option<Phase>
        ensures goes_on { IsFalse is_stopped → IsSome result }
    {
        if is_stopped {
            return None;
        }
        if self.tries == 0 {
            self.trials.begin_wait(ban);
        }
        let phase = self.phase();
        self.tries = self.tries.saturating_add(1);
        self.is_announced = phase == Phase::Announce;
        Some(phase)
    }

    /// A park ended, by a neighbour or by its time.
    pub fn note_park(&mut self, was_woken: bool) {
        self.trials.note_park(was_woken);
    }

    /// A try succeeded, so the wait is over. Returns whether an announcement must be withdrawn.
    pub fn end_wait(&mut self) -> bool {
        self.tries = 0;
        let was_announced = self.is_announced;
        self.is_announced = false;
        was_announced
    }
}

// How a wait goes before its first park.
#[derive(Clone, Copy, PartialEq, Eq)]
enum Mode {
    // It spins, then yields.
    Yielding,
    // It spins and then parks, to find out whether its neighbours can wake it in time.
    Trial,
    // It spins and then parks, because yields are banned.
    Banned,
}

/// The number of waits to come in which no thread of a run yields. All threads count them down, so
/// the count is not exact.
#[derive(Drop)]
pub struct YieldBan {
    waits: CachePadded<AtomicU64>,
}

impl YieldBan {
    /// Yields are not banned.
    pub fn new() -> Self {
        YieldBan {
            waits: CachePadded::new(AtomicU64::new(0)),
        }
    }

    fn start(&self) {
        self.waits.store(WAITS_WITHOUT_YIELDS, Ordering::Relaxed);
    }

    // Counts a wait, and returns whether yields are banned in it.
    fn is_banned_now(&self) -> bool {
        let left = self.waits.load(Ordering::Relaxed);
        if left > 0 {
            // Threads that count at the same time may count one wait for two.
            self.waits.store(left - 1, Ordering::Relaxed);
        }
        left > 0
    }
}

// The mode of a thread's waits, and when its trials come: further apart after each trial that ended
// without a late wake-up.
#[derive(Drop)]
struct Trials {
    mode: Mode,
    // The waits before the next trial, and from that one to the one after it.
    until_next: u32,
    gap: u32,
    // The waits before this one that ended late, one after another, and whether this one does.
    late_wakes: u32,
    is_late: bool,
}

impl Trials {
    // The first wait is a trial.
    fn new() -> Self {
        Trials {
            mode: Mode::Yielding,
            until_next: 0,
            gap: FIRST_GAP,
            late_wakes: 0,
            is_late: false,
        }
    }

    // The next wait is a trial, and the gaps begin again.
    fn restart(&mut self) {
        self.until_next = 0;
        self.gap = FIRST_GAP;
    }

    // After a late wake-up the next wait is a trial, and the last one of a row bans yields.
    fn note_last_wait(&mut self, ban: &YieldBan) {
        if self.is_late {
            self.late_wakes = self.late_wakes.saturating_add(1);
            self.restart();
        } else {
            self.late_wakes = 0;
            if self.mode == Mode::Trial {
                self.gap = LONGEST_GAP.min(self.gap.saturating_mul(2));
            }
        }
        self.is_late = false;
        if self.late_wakes >= LATE_WAKES {
            ban.start();
        }
    }

    // Counts a wait that begins, and returns whether it is a trial.
    fn is_trial_now(&mut self) -> bool {
        let is_trial = self.until_next == 0;
        if is_trial {
            self.until_next = self.gap;
        }
        self.until_next = self.until_next.saturating_sub(1);
        is_trial
    }

    // Begins a wait, and chooses its mode.
    fn begin_wait(&mut self, ban: &YieldBan) {
        self.note_last_wait(ban);
        self.mode = if ban.is_banned_now() {
            self.late_wakes = 0;
            self.restart();
            Mode::Banned
        } else if self.is_trial_now() {
            Mode::Trial
        } else {
            Mode::Yielding
        };
    }

    // A park ended. The wait ends late if no neighbour ended the park although yields were not banned.
    fn note_park(&mut self, was_woken: bool) {
        self.is_late |= !was_woken && self.mode != Mode::Banned;
    }
}
