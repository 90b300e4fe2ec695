//! The answer to a request on a scene, and runs in two parts.

ghost use Rattle.std.specs.Prelude.{◌≡◌, ℕ, ◌+◌, List, Option, None, Some, Ok, IfOk, IfErr, unwrap_or};
ghost use Rattle.gas_stage.specs.Evolution.{lattice_after};
ghost use Rattle.gas_scene.specs.Catalog.{rules_of};
ghost use Rattle.gas_scene.specs.Scene.{SceneModel, scene_of_text};
ghost use Rattle.gas_tool_cli.specs.Requests.{IsAllowed};
ghost use Rattle.gas_tool_cli.specs.declared.words.Request.TheVariants as request_of;
ghost use Rattle.gas_tool.specs.Outcome.{Performs, gas_outcome, outcome, run_refusal, scene_after};

use crate::faults::ToolError;
use gas_blocks::blocks::coarse;
use gas_geom::gas::Gas;
use gas_pipe::{Gate, Plan, PlanError, Run, RunError, replay, run};
use gas_rows::lattice::Lattice;
use gas_scene::scene::{Scene, read};
use gas_scene::with_lattice;
use gas_tool_cli::words::Request;
use gas_tool_io::replay::write_replay;
use gas_tool_io::text::{write_cells, write_summary, write_table};
use std::alloc::Global;
use std::io::Write;
use std::sync::Wait;
use std::thread::Threads;

/// Writes the answer to a request on the scene of a text, or returns the first fault. The order of
/// faults is: of the scene, of the plan, of the passes of a replay, of the work. Nothing is written
/// before the answer is whole.
///
/// The fault may be `Memory` for any request. It is tested that it comes if memory is refused, also
/// while the scene is read, and if a thread cannot be started, and that the writer is flushed once,
/// after the last byte. The stages of a run go through the gate.
pub fn perform<W: Write, H: Gate + Sync, R: Threads + Wait + Sync>(
    rt: &R,
    alloc: Global,
    text: &[u8],
    request: &Request,
    gate: &H,
    out: &mut W,
) -> Result<(), ToolError>
    requires allowed { IsAllowed request.now }
    ensures performed { Performs (outcome text.now request.now)
        (W.contents out.old) (W.contents out.new) result }
{
    let scene = read(alloc, text)?;
    with_lattice!(
        scene.lattice(),
        lattice => perform_on(rt, alloc, &scene, lattice, request, gate, out)
    )
}

// Writes the answer to a request on the lattice of a scene.
fn perform_on<G: Gas + Send, W: Write, H: Gate + Sync, R: Threads + Wait + Sync>(
    rt: &R,
    alloc: Global,
    scene: &Scene,
    lattice: &Lattice<G>,
    request: &Request,
    gate: &H,
    out: &mut W,
) -> Result<(), ToolError>
    requires allowed { IsAllowed request.now }
    requires gas { rules_of scene.now.lattice.gas ≡ G.rules }
    ensures { Performs
        (gas_outcome G.rules lattice.now scene.now.chirality scene.now.generation request.now)
        (W.contents out.old) (W.contents out.new) result }
{
    match request {
        Request::Check => Ok(write_summary(scene.lattice().gas().name(), lattice, out)?),
        Request::Run {
            stages,
            capacity,
            generations,
            threads,
        } => {
            let plan = plan_of_run(*stages, *capacity, *generations, *threads)?;
            let run = run_scene(rt, alloc, scene, lattice, plan, gate)?;
            let last = scene.generation() + plan.generations();
            Ok(write_cells(run.lattice(), last, out)?)
        }
        Request::Coarse {
            stages,
            capacity,
            generations,
            threads,
            block_width,
            block_height,
        } => {
            let plan = plan_of_run(*stages, *capacity, *generations, *threads)?;
            let ended = run_scene(rt, alloc, scene, lattice, plan, gate)?;
            let blocks = coarse(alloc, ended.lattice(), *block_width, *block_height)?;
            Ok(write_table(blocks.as_slice(), out)?)
        }
        Request::Replay {
            stages,
            capacity,
            generations,
            turns,
        } => {
            let plan = Plan::new(*stages, *capacity, *generations)?;
            let first = scene.generation();
            let turns = turns.as_slice();
            let replay = replay(alloc, lattice, scene.chirality(), first, plan, turns)?;
            Ok(write_replay(&replay, first + plan.generations(), out)?)
        }
    }
}

// The plan of a run on the threads that are asked for, or on one per stage.
fn plan_of_run(
    stages: u32,
    capacity: u32,
    generations: u64,
    threads: Option<u32>,
) -> Result<Plan, PlanError>
    ensures refused { IfErr result (λ e. run_refusal stages capacity generations threads ≡ Some e) }
    ensures accepted { IfOk result (λ _. run_refusal stages capacity generations threads ≡ None) }
    ensures made { IfOk result (λ plan. plan ≡ record {
      stages = stages;
      capacity = capacity;
      generations = generations;
      threads = unwrap_or threads stages;
    }) }
{
    let plan = Plan::new(stages, capacity, generations)?;
    match threads {
        Some(threads) => plan.on(threads),
        None => Ok(plan),
    }
}

// Computes the generations of a plan over the lattice of a scene, by threads.
fn run_scene<G: Gas + Send, H: Gate + Sync, R: Threads + Wait + Sync>(
    rt: &R,
    alloc: Global,
    scene: &Scene,
    lattice: &Lattice<G>,
    plan: Plan,
    gate: &H,
) -> Result<Run<G>, RunError>
    ensures lattice { IfOk result (λ r. r.lattice ≡ lattice_after G.rules
        scene.now.chirality scene.now.generation lattice.now plan.generations) }
    ensures refused { IfErr result (λ e. e ≡ RunError.Memory) }
{
    run(
        rt,
        alloc,
        lattice,
        scene.chirality(),
        scene.generation(),
        plan,
        gate,
    )
}

/// A run in two parts prints what one run prints, for any stages, capacities and threads of plans
/// that are accepted. Let a later text be the scene of a first text's lattice after m generations.
/// Then n generations of the later text lead to the same answer as m + n generations of the first.
pub fn resumed_runs()
    ensures cells { (text later : List ℕ) (scene : SceneModel)
        (m n stages capacity stages2 capacity2 : ℕ) (threads threads2 : Option ℕ) →
        scene_of_text text ≡ Ok scene → scene_of_text later ≡ Ok (scene_after scene m) →
        run_refusal stages capacity (m + n) threads ≡ None →
        run_refusal stages2 capacity2 n threads2 ≡ None →
        outcome later (request_of.Run stages2 capacity2 n threads2)
        ≡ outcome text (request_of.Run stages capacity (m + n) threads) }
    ensures table { (text later : List ℕ) (scene : SceneModel)
        (m n stages capacity stages2 capacity2 width height : ℕ) (threads threads2 : Option ℕ) →
        scene_of_text text ≡ Ok scene → scene_of_text later ≡ Ok (scene_after scene m) →
        run_refusal stages capacity (m + n) threads ≡ None →
        run_refusal stages2 capacity2 n threads2 ≡ None →
        outcome later (request_of.Coarse stages2 capacity2 n threads2 width height)
        ≡ outcome text (request_of.Coarse stages capacity (m + n) threads width height) }
{}
