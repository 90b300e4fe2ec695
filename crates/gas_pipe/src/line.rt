//! The line of workers of a run: how it is made, started, run to its end and joined.
ghost use Rattle.std.specs.Prelude.{◌≡◌, ◌<◌, ◌≤◌, ◌+◌, ◌++◌, ◌∷◌, List, [], length, map, vec_len, vec_capacity, IfOk, IfSome};
ghost use Rattle.std.specs.Option.{option_to_list};
ghost use Rattle.gas_pipe_model.specs.Pass.{RunInputModel};
ghost use Rattle.gas_pipe.specs.Inner.Worker.{Job, job_of, job_in, IsUnused, HasCome, HasFinished, HasEnded};
ghost use Rattle.gas_pipe.specs.Inner.Feeder.{LineFeederModel, belts_of, HasBegun, HasFed};
ghost use Rattle.gas_pipe.specs.Inner.Links.{AllHaveCome, IsLinked, worker_of, jobs_of, HaveMet, IsRunOf};

use crate::Gate;
use crate::crew::{Crew, LineFeeder};
use crate::finished::Run;
use crate::job::{JobPromise, Shared, start_job};
use crate::line_worker::{Ended, LineWorker};
use crate::share::{Share, has_own_worker};
use crate::wake_ups::WakeUps;
use gas_belt::belt;
use gas_belt::carried::{Carried, meet};
use gas_belt::rx::Rx;
use gas_belt::tx::{Spent, Tx};
use gas_geom::gas::Gas;
use gas_pipe_members::feeder::Feeder;
use gas_pipe_members::plan::{Plan, RunInput};
use std::alloc::{AllocError, Global};
use std::sync::Wait;
use std::thread;
use std::thread::{PromisedHandle, Scope, Threads};

// A belt for rows of the input's lattice.
fn make_belt<G: Gas>(alloc: Global, input: &RunInput<'_, G>) -> Result<(Tx<G>, Rx<G>), AllocError>
    ensures one_belt { IfOk result (λ r. r.0.belt ≡ r.1.belt) }
    ensures unused { IfOk result (λ r. IsUnused input.now r.1) }
    ensures capacity { IfOk result (λ r. r.1.belt.capacity ≡ input.now.plan.capacity) }
    ensures nothing_put { IfOk result (λ r. r.0.put ≡ []) }
{
    let width = input.lattice.channel().size().width();
    belt(alloc, input.span.plan.capacity(), width)
}

// The worker of that number, which takes from an end, and the end of the belt behind it.
fn make_worker<'e, G: Gas>(
    alloc: Global,
    input: &RunInput<'e, G>,
    number: u32,
    rx: Rx<G>,
) -> Result<(LineWorker<'e, G>, Rx<G>), AllocError>
    requires one_of { number < input.now.plan.threads }
    requires some { 0 < input.now.plan.generations }
    requires unused { IsUnused input.now rx }
    ensures job { IfOk result (λ r. job_of r.0 ≡ job_in input.now number rx.belt r.1.belt) }
    ensures come { IfOk result (λ r. HasCome G.rules r.0) }
    ensures unused { IfOk result (λ r. IsUnused input.now r.1) }
{
    let (tx, next) = make_belt(alloc, input)?;
    let worker = LineWorker::new(alloc, input, Share::of(input.span.plan, number), rx, tx)?;
    Ok((worker, next))
}

// Takes the first worker from them, if it is on the caller's thread.
#[tactic(auto, using(crate::proofs::Meetings::removed))]
fn take_own<'e, G: Gas>(
    plan: Plan,
    workers: &mut Vec<LineWorker<'e, G>>,
) -> Option<LineWorker<'e, G>>
    requires some { 0 < vec_len workers.old }
    ensures all { option_to_list result ++ workers.new.items ≡ workers.old.items }
{
    if has_own_worker(plan) {
        Some(workers.remove(0))
    } else {
        None
    }
}

// A line: the feeder, the worker of the caller's thread, and the workers of the threads to start.
fn make_line<'e, G: Gas>(
    alloc: Global,
    input: &RunInput<'e, G>,
    feeder: Feeder<G>,
) -> Result<
    (
        LineFeeder<G>,
        Option<LineWorker<'e, G>>,
        Vec<LineWorker<'e, G>>,
    ),
    AllocError,
>
    requires begun { HasBegun G.rules input.now feeder }
    ensures linked { IfOk result (λ r.
        IsLinked input.now (belts_of r.0) (map job_of (option_to_list r.1 ++ r.2.items))) }
    ensures fed { IfOk result (λ r. HasFed G.rules input.now r.0) }
    ensures come { IfOk result (λ r. AllHaveCome G.rules (option_to_list r.1 ++ r.2.items)) }
{
    let plan = input.span.plan;
    let mut workers = Vec::with_capacity(alloc, plan.threads() as usize)?;
    let (tx, mut last) = make_belt(alloc, input)?;
    for number in 0..plan.threads() {
        let (worker, next) = make_worker(alloc, input, number, last)?;
        workers.push(worker)?;
        last = next;
    }
    let own = take_own(plan, &mut workers);
    let feeder = LineFeeder {
        feeder,
        tx,
        rx: last,
        thread_behind: u32::from(own.is_none()),
        thread_before: workers.len() as u32,
    };
    Ok((feeder, own, workers))
}

// A thread of a run beside the caller's.
type LineThread<'e, G> = PromisedHandle<Option<Ended<G>>, JobPromise<LineWorker<'e, G>>>;

// Raises the stop flag, and joins the threads.
fn give_up<G: Gas, H: Gate, R: Threads + Wait>(
    shared: &Shared<'_, H, R>,
    threads: Vec<LineThread<'_, G>>,
) {
    shared.wake_ups.stop();
    for thread in threads {
        drop(thread.join(shared.rt));
    }
}

// Starts a thread for each worker. None if memory or a start was refused. The threads that were started
// are then joined.
fn start_threads<'s, 'e: 's, G: Gas + Send + 'e, H: Gate + Sync, R: Threads + Wait + Sync>(
    scope: &'s Scope<'s, &'e ()>,
    alloc: Global,
    shared: &'e Shared<'e, H, R>,
    workers: Vec<LineWorker<'e, G>>,
) -> Option<Vec<LineThread<'e, G>>>
    requires { AllHaveCome G.rules workers.items }
    ensures { IfSome result (λ threads. map worker_of threads.items ≡ workers.entry.items) }
{
    let mut threads = Vec::with_capacity(alloc, workers.len()).ok()?;
    for worker in workers {
        let Some(thread) = start_job(scope, shared, worker) else {
            give_up(shared, threads);
            return None;
        };
        threads.push_reserved(thread);
    }
    Some(threads)
}

// Lets the two ends of the belt before a worker meet: `carried` gets what it carried. Returns the
// closed end of the belt behind the worker.
fn meet_before<G: Gas>(spent: Spent<G>, ended: Ended<G>, carried: &mut Vec<Carried<G>>) -> Spent<G>
    requires met { (input : RunInputModel) × (f : LineFeederModel) × (j : Job) × (others : List Job)
        × HaveMet G.rules input f (j ∷ others) spent carried.old.items × HasEnded G.rules j ended }
    requires room { vec_len carried.old < vec_capacity carried.old }
    ensures met { (input : RunInputModel) (f : LineFeederModel) (j : Job) (others : List Job) →
        HaveMet G.rules input f (j ∷ others) spent carried.old.items → HasEnded G.rules j ended →
        HaveMet G.rules input f others result carried.new.items }
    ensures len { vec_len carried.new ≡ vec_len carried.old + 1 }
    ensures capacity { vec_capacity carried.new ≡ vec_capacity carried.old }
{
    let Ended { rx, spent: next } = ended;
    let Ok(before) = meet(spent, rx) else {
        unreachable!()
    };
    carried.push_reserved(before);
    next
}

// The same for the worker of the caller's thread, if there is one.
fn meet_own<G: Gas>(
    spent: Spent<G>,
    worker: Option<LineWorker<'_, G>>,
    carried: &mut Vec<Carried<G>>,
) -> Spent<G>
    requires over { IfSome worker (λ w. HasFinished G.rules (job_of w) w.rx.taken w.tx.put) }
    requires met { (input : RunInputModel) × (f : LineFeederModel) × (others : List Job)
        × HaveMet G.rules input f (map job_of (option_to_list worker) ++ others) spent carried.old.items }
    requires room { vec_len carried.old < vec_capacity carried.old }
    ensures met { (input : RunInputModel) (f : LineFeederModel) (others : List Job) →
        HaveMet G.rules input f (map job_of (option_to_list worker.entry) ++ others) spent carried.old.items →
        HaveMet G.rules input f others result carried.new.items }
    ensures capacity { vec_capacity carried.new ≡ vec_capacity carried.old }
{
    match worker {
        None => spent,
        Some(worker) => meet_before(spent, worker.end(), carried),
    }
}

// Joins the threads in order, and lets the two ends of the belt before each meet. Returns the closed
// end that the last thread put on. None if a thread stopped early.
fn join_threads<G: Gas, R: Threads>(
    rt: &R,
    first: Spent<G>,
    threads: Vec<LineThread<'_, G>>,
    carried: &mut Vec<Carried<G>>,
) -> Option<Spent<G>>
    requires met { (input : RunInputModel) × (f : LineFeederModel)
        × HaveMet G.rules input f (jobs_of threads.items) first carried.old.items }
    requires room { vec_len carried.old + length threads.items ≤ vec_capacity carried.old }
    ensures met { IfSome result (λ s. (input : RunInputModel) (f : LineFeederModel) →
        HaveMet G.rules input f (jobs_of threads.entry.items) first carried.old.items →
        HaveMet G.rules input f [] s carried.new.items) }
    ensures capacity { vec_capacity carried.new ≡ vec_capacity carried.old }
{
    let mut spent = first;
    for thread in threads {
        let ended = thread.join(rt)?;
        spent = meet_before(spent, ended, carried);
    }
    Some(spent)
}

// Joins the threads of a line whose feeder and own worker are over, and lets the two ends of each belt
// meet: `belts` gets what they carried. None if a worker stopped early.
fn join_and_meet<G: Gas, R: Threads>(
    rt: &R,
    input: &RunInput<'_, G>,
    feeder: LineFeeder<G>,
    own: Option<LineWorker<'_, G>>,
    threads: Vec<LineThread<'_, G>>,
    mut belts: Vec<Carried<G>>,
) -> Option<Run<G>>
    requires linked { IsLinked input.now (belts_of feeder)
        (map job_of (option_to_list own) ++ jobs_of threads.items) }
    requires fed { HasFed G.rules input.now feeder }
    requires over { feeder.feeder.to_take ≡ 0 }
    requires own_over { IfSome own (λ w. HasFinished G.rules (job_of w) w.rx.taken w.tx.put) }
    requires none { belts.items ≡ [] }
    requires room { input.now.plan.threads < vec_capacity belts }
    ensures { IfSome result (λ run. IsRunOf G.rules input.now run) }
{
    let LineFeeder { feeder, tx, rx, .. } = feeder;
    let first = meet_own(tx.close(), own, &mut belts);
    let spent = join_threads(rt, first, threads, &mut belts)?;
    let Ok(last) = meet(spent, rx) else {
        unreachable!()
    };
    belts.push_reserved(last);
    Some(Run {
        lattice: feeder.finish(),
        plan: input.span.plan,
        belts,
    })
}

// Makes a line, and runs it to its end. None if memory or a start was refused.
fn run_in_scope<'s, 'e: 's, G: Gas + Send + 'e, H: Gate + Sync, R: Threads + Wait + Sync>(
    scope: &'s Scope<'s, &'e ()>,
    alloc: Global,
    shared: &'e Shared<'e, H, R>,
    input: &'e RunInput<'e, G>,
    feeder: Feeder<G>,
) -> Option<Run<G>>
    requires begun { HasBegun G.rules input.now feeder }
    ensures { IfSome result (λ run. IsRunOf G.rules input.now run) }
{
    let Ok((feeder, own, workers)) = make_line(alloc, input, feeder) else {
        return None;
    };
    let most_belts = input.span.plan.threads() as usize + 1;
    let Ok(belts) = Vec::with_capacity(alloc, most_belts) else {
        return None;
    };
    let threads = start_threads(scope, alloc, shared, workers)?;
    let mut crew = Crew {
        feeder: Some(feeder),
        worker: own,
    };
    if !crew.run(shared) {
        give_up(shared, threads);
        return None;
    }
    let Crew { feeder, worker } = crew;
    let Some(feeder) = feeder else { unreachable!() };
    join_and_meet(shared.rt, input, feeder, worker, threads, belts)
}

/// Makes all passes of a plan over the feeder's rows. Every thread that was started is over before it
/// returns. The error means that memory, or the start of a thread, was refused.
pub(crate) fn run_line<G: Gas + Send, H: Gate + Sync, R: Threads + Wait + Sync>(
    rt: &R,
    alloc: Global,
    gate: &H,
    input: &RunInput<'_, G>,
    feeder: Feeder<G>,
) -> Result<Run<G>, AllocError>
    requires begun { HasBegun G.rules input.now feeder }
    ensures { IfOk result (λ run. IsRunOf G.rules input.now run) }
{
    let plan = input.span.plan;
    let wake_ups = WakeUps::new(alloc, plan.threads() - u32::from(has_own_worker(plan)))?;
    let shared = &Shared {
        rt,
        wake_ups: &wake_ups,
        gate,
    };
    let run = thread::scope(
        thread::scope_env(),
        rt,
        move |scope| -> Option<Run<G>>
            requires { HasBegun G.rules input.now feeder }
            ensures { IfSome result (λ run. IsRunOf G.rules input.entry.now run) }
        { run_in_scope(scope, alloc, shared, input, feeder) },
    );
    run.ok_or(AllocError)
}
