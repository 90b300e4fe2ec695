//! What the program says on a terminal: a prompt for the scene, a line of progress, and how to choose
//! threads.

use gas_pipe::Gate;
use gas_tool::{Request, Watch};
use std::rt::Clock;
use std::sync::atomic::{AtomicBool, AtomicU64, Ordering};
use std::time::Instant;

// The fewest milliseconds between two writings of the line.
const LINE_MILLISECONDS: u64 = 100;

// The milliseconds after which a run that was not told its threads says so.
const HINT_MILLISECONDS: u64 = 5000;

const HINT: &str = "fhpgas: --threads T prints the same bytes with T threads (docs/PERFORMANCE.md)";

// Goes back to the start of the line and wipes it.
const WIPE: &str = "\r\x1b[K";

// A run and the passes that its last stage has begun. If it begins one, all before it are over.
#[derive(Drop)]
struct Progress {
    stages: u32,
    generations: u64,
    begun: Instant,
    passes: AtomicU64,
    // The milliseconds at which the line was last written, or 0.
    written: AtomicU64,
    // Whether the hint is still to be said.
    hints: AtomicBool,
}

impl Progress {
    // The run of a request, if it has one: a replay enters no gate.
    fn of<R: Clock>(rt: &R, request: &Request, hints: bool) -> Option<Progress> {
        let (stages, generations, threads) = match request {
            Request::Run {
                stages,
                generations,
                threads,
                ..
            }
            | Request::Coarse {
                stages,
                generations,
                threads,
                ..
            } => (*stages, *generations, *threads),
            Request::Check | Request::Replay { .. } => return None,
        };
        Some(Progress {
            stages,
            generations,
            begun: Instant::now(rt).ok()?,
            passes: AtomicU64::new(0),
            written: AtomicU64::new(0),
            hints: AtomicBool::new(hints && threads.is_none()),
        })
    }

    // The milliseconds since the run began.
    fn milliseconds<R: Clock>(&self, rt: &R) -> Option<u64> {
        let elapsed = self.begun.elapsed(rt).ok()?;
        u64::try_from(elapsed.as_millis()).ok()
    }

    // Counts a pass that begins. If the line is old enough, rewrites it, below the hint if that is due.
    fn begin_pass<R: Clock + Eprint>(&self, rt: &R) {
        let passes = self.passes.fetch_add(1, Ordering::Relaxed);
        let now = self.milliseconds(rt).unwrap_or(0);
        let written = self.written.load(Ordering::Relaxed);
        if now >= written.saturating_add(LINE_MILLISECONDS) {
            self.written.store(now, Ordering::Relaxed);
            self.hint(rt, now);
            self.write(rt, passes.saturating_mul(u64::from(self.stages)));
        }
    }

    // Writes the line, with `done` generations computed.
    fn write<R: Eprint>(&self, rt: &R, done: u64) {
        let generations = self.generations;
        let share = u128::from(done) * 100 / u128::from(generations.max(1));
        let _ = eprint!(rt; "{WIPE}{done} of {generations} generations ({share} %)");
    }

    // Says the hint once, when it is due.
    fn hint<R: Eprint>(&self, rt: &R, now: u64) {
        if now >= HINT_MILLISECONDS && self.hints.load(Ordering::Relaxed) {
            self.hints.store(false, Ordering::Relaxed);
            let _ = eprintln!(rt; "{WIPE}{HINT}");
        }
    }

    // Wipes the line, if there is one. Says the hint if it became due in the last pass.
    fn end<R: Clock + Eprint>(&self, rt: &R) {
        if self.written.load(Ordering::Relaxed) > 0 {
            let _ = eprint!(rt; "{WIPE}");
        }
        self.hint(rt, self.milliseconds(rt).unwrap_or(0));
    }
}

/// Prompts for a scene if it `prompts`. If it `reports`, it says how many generations of a run are
/// computed, and their share of all, in a line that is wiped when the last stage leaves. If it
/// `hints` too, a run of five seconds that was not told its threads also says once that it can be. All
/// goes to standard error, and a failure to print is ignored.
#[derive(Drop)]
pub(crate) struct Terminal<'a, R> {
    rt: &'a R,
    prompts: bool,
    reports: bool,
    hints: bool,
    run: Option<Progress>,
}

impl<'a, R> Terminal<'a, R> {
    pub(crate) fn new(rt: &'a R, prompts: bool, reports: bool, hints: bool) -> Self {
        Terminal {
            rt,
            prompts,
            reports,
            hints,
            run: None,
        }
    }

    // The run, if `who` is its last stage.
    fn run_of(&self, who: u32) -> Option<&Progress> {
        self.run.as_ref().filter(|run| who == run.stages)
    }
}

impl<R: Clock + Eprint> Gate for Terminal<'_, R> {
    fn enter(&self, who: u32) {
        if let Some(run) = self.run_of(who) {
            run.begin_pass(self.rt);
        }
    }

    fn leave(&self, who: u32) {
        if let Some(run) = self.run_of(who) {
            run.end(self.rt);
        }
    }
}

impl<R: Clock + Eprint> Watch for Terminal<'_, R> {
    fn before_input(&mut self) {
        if self.prompts {
            let _ = eprintln!(self.rt;
                "fhpgas: type a scene, and end it by Ctrl-D on a line of its own"
            );
        }
    }

    fn before_request(&mut self, request: &Request) {
        if self.reports {
            self.run = Progress::of(self.rt, request, self.hints);
        }
    }
}
