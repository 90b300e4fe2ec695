//! A gate in which the workers of a run wait for one another: that they run at the same time.

ghost use Rattle.gas_tool_cli.specs.Requests.{IsAllowed};

use gas_geom::fhp1::Fhp1;
use gas_geom::size::Size;
use gas_pipe::{Gate, Plan, Run, run};
use gas_rows::channel::Channel;
use gas_rows::chirality::Chirality;
use gas_rows::lattice::Lattice;
use gas_tool::perform;
use gas_tool_cli::words::Request;
use std::alloc::{AllocError, Global};
use std::process::Abort;
use std::sync::Wait;
use std::sync::atomic::{AtomicU64, Ordering};
use std::test::Fail;
use std::thread;
use std::thread::Threads;

// A gate in which each worker of `stages` stages waits with its first one until all have entered as often
// as it has. It counts those for whom the others never came.
#[derive(Drop)]
struct Meeting {
    stages: u32,
    entered: Vec<AtomicU64>,
    left: AtomicU64,
    missed: AtomicU64,
}

impl Meeting {
    fn of(alloc: Global, workers: usize, stages: u32) -> Result<Meeting, AllocError> {
        let mut entered = Vec::with_capacity(alloc, workers)?;
        for _ in 0..workers {
            entered.push(AtomicU64::new(0))?;
        }
        Ok(Meeting {
            stages,
            entered,
            left: AtomicU64::new(0),
            missed: AtomicU64::new(0),
        })
    }

    fn have_all_entered(&self, times: u64) -> bool {
        self.entered
            .iter()
            .all(|others| others.load(Ordering::SeqCst) >= times)
    }

    fn waits(&self, who: u32) -> bool {
        let before = who.wrapping_sub(1);
        if before % self.stages.max(1) != 0 {
            return true;
        }
        let Some(mine) = self.entered.get((before / self.stages.max(1)) as usize) else {
            return false;
        };
        let times = mine.fetch_add(1, Ordering::SeqCst).wrapping_add(1);
        for _ in 0..10_000_000 {
            if self.have_all_entered(times) {
                return true;
            }
            thread::yield_now();
        }
        false
    }

    // Asserts that no worker waited in vain, and how many stages left.
    fn was_kept(&self, rt: &impl Abort, stages: u64) {
        assert_eq!(rt; self.missed.load(Ordering::SeqCst), 0);
        assert_eq!(rt; self.left.load(Ordering::SeqCst), stages);
    }
}

impl Gate for Meeting {
    fn enter(&self, who: u32) {
        if !self.waits(who) {
            self.missed.fetch_add(1, Ordering::SeqCst);
        }
    }

    fn leave(&self, _who: u32) {
        self.left.fetch_add(1, Ordering::SeqCst);
    }
}

const SCENE: &[u8] =
    b"gas = \"fhp1\"\nchirality = \"left\"\nwidth = 7\nheight = 3\nparticles = [[0, 1, 1]]\n";

// What a request on the scene prints, with four stages in two passes, so many of them to a worker.
fn assert_prints<R: Abort + Threads + Wait + Sync>(
    rt: &R,
    alloc: Global,
    request: &Request,
    stages: u32,
    wanted: &str,
) -> Result<(), Fail>
    requires { IsAllowed request.now }
{
    let gate = Meeting::of(alloc, (4 / stages.max(1)) as usize, stages)?;
    let mut out = Vec::new(alloc);
    perform(rt, alloc, SCENE, request, &gate, &mut out)?;
    assert!(rt; out.as_slice() == wanted.as_bytes());
    gate.was_kept(rt, 4);
    Ok(())
}

// One particle on seven columns and three rows.
fn drifting_lattice(alloc: Global) -> Result<Lattice<Fhp1>, Fail> {
    let size = Size::new(7, 3).ok_or("a size")?;
    let mut lattice = Lattice::blank(alloc, Channel::free(alloc, size)?)?;
    lattice.set_cell(0, 1, 0x01);
    Ok(lattice)
}

// A run of so many stages on so many threads for five generations. It promises nothing, so that no test
// carries the promises of `run`.
fn run_through<R: Threads + Wait + Sync>(
    rt: &R,
    alloc: Global,
    lattice: &Lattice<Fhp1>,
    (stages, threads, capacity): (u32, u32, u32),
    gate: &Meeting,
) -> Result<Run<Fhp1>, Fail> {
    let plan = Plan::new(stages, capacity, 5)?.on(threads)?;
    Ok(run(rt, alloc, lattice, Chirality::Left, 0, plan, gate)?)
}

// The particle has drifted five columns, and no other came.
fn has_drifted(rt: &impl Abort, lattice: &Lattice<Fhp1>) {
    let size = lattice.channel().size();
    assert!(rt; size.width() == 7 && size.height() == 3);
    assert!(rt; lattice.cell(5, 1) == 0x01);
    assert!(rt; lattice.count() == 1);
}

// The workers of a run meet before each pass, in which each waits for a stage of each other thread: on
// fewer threads one of them waits in vain.
fn workers_meet<R: Abort + Threads + Wait + Sync>(
    rt: &R,
    alloc: Global,
    plan: (u32, u32, u32),
    stages: u32,
) -> Result<(), Fail> {
    let lattice = drifting_lattice(alloc)?;
    let gate = Meeting::of(alloc, plan.1 as usize, stages)?;
    let run = run_through(rt, alloc, &lattice, plan, &gate)?;
    gate.was_kept(rt, u64::from(plan.0));
    has_drifted(rt, run.lattice());
    Ok(())
}

#[test]
fn all_workers_of_a_run_meet(rt: HostRuntime) -> Result<(), Fail> {
    workers_meet(&rt, rt.alloc(), (4, 4, 1), 1)?;
    workers_meet(&rt, rt.alloc(), (4, 4, 32), 1)
}

// The belts have places for all rows of a pass, since a worker that waits may keep others from theirs.
#[test]
fn all_workers_of_several_stages_meet(rt: HostRuntime) -> Result<(), Fail> {
    workers_meet(&rt, rt.alloc(), (4, 2, 32), 2)?;
    workers_meet(&rt, rt.alloc(), (6, 3, 32), 2)
}

const CELLS: &str = "generation 5 particles 1
..............
..........01..
..............
";

#[test]
fn all_workers_of_a_request_meet(rt: HostRuntime) -> Result<(), Fail> {
    let request = Request::Run {
        stages: 4,
        capacity: 1,
        generations: 5,
        threads: None,
    };
    assert_prints(&rt, rt.alloc(), &request, 1, CELLS)?;
    let request = Request::Coarse {
        stages: 4,
        capacity: 1,
        generations: 5,
        threads: None,
        block_width: 8,
        block_height: 8,
    };
    let table = "  col   row    fluid particles         px         py
    0     0       21         1          2          0
";
    assert_prints(&rt, rt.alloc(), &request, 1, table)
}

#[test]
fn both_workers_of_a_request_on_two_threads_meet(rt: HostRuntime) -> Result<(), Fail> {
    let request = Request::Run {
        stages: 4,
        capacity: 32,
        generations: 5,
        threads: Some(2),
    };
    assert_prints(&rt, rt.alloc(), &request, 2, CELLS)
}
