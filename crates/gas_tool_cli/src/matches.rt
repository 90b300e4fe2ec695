//! The request in the matches of `clap`: the subcommand, and the values of its options.

ghost use Rattle.std.specs.Prelude.{◌≡◌, ◌≤◌, IfOk, IfSome, Some, map, codes};
ghost use Rattle.std.specs.List.{AllZip};
ghost use Rattle.clap.specs.Words.{found_of, rows_of, subcommand_rows_of};
ghost use Rattle.gas_tool_cli.specs.Requests.{AreTurnsAt, IsGivenAt, IsNumber, IsPlanAt, IsRequestOf};
ghost use Rattle.gas_tool_cli.specs.Requests.{IsSideAt, default_capacity, default_stages, even_stages};

use crate::command::MOST_BLOCK_SIDE;
use crate::words::{Request, Turns};
use clap::ArgMatches;
use std::alloc::{AllocError, Global};

// The request of the matches, or None if they are no request.
pub(crate) fn request_of(alloc: Global, matches: &ArgMatches) -> Result<Option<Request>, AllocError>
    ensures { IfOk result (λ r. IfSome r (IsRequestOf (subcommand_rows_of matches.now))) }
{
    let Some((command, options)) = matches.subcommand() else {
        return Ok(None);
    };
    match command {
        "check" => Ok(Some(Request::Check)),
        "run" => Ok(run_request(options)),
        "coarse" => Ok(coarse_request(options)),
        "replay" => replay_request(alloc, options),
        _ => Ok(None),
    }
}

// The numbers of a plan.
#[derive(Clone, Copy)]
struct PlanNumbers {
    stages: u32,
    capacity: u32,
    generations: u64,
}

// The stages of passes of equal length, as few as 64 stages allow. A thread has at least one.
fn even_stages(threads: u32, generations: u64) -> u32
    requires some_threads { 1 ≤ threads }
    requires few_threads { threads ≤ 64 }
    requires some_generations { 1 ≤ generations }
    ensures { result ≡ even_stages threads generations }
{
    let passes = generations.div_ceil(64);
    threads.max(generations.div_ceil(passes) as u32)
}

// The number of stages if none is given.
fn default_stages(threads: Option<u32>, generations: u64) -> u32
    ensures { result ≡ default_stages threads generations }
{
    match threads {
        Some(threads) => even_stages(threads.clamp(1, 64), generations.max(1)),
        None => 4,
    }
}

// The capacity if none is given.
fn default_capacity(threads: Option<u32>) -> u32
    ensures { result ≡ default_capacity threads }
{
    match threads {
        Some(_) => 128,
        None => 2,
    }
}

// The number of an option, if it is given. None if its word is no number. `clap` refuses such
// words, but that is not proved.
fn given(options: &ArgMatches, name: &str) -> Option<Option<u32>>
    ensures { IfSome result (IsGivenAt (rows_of (found_of options.now)) name.now) }
{
    options.try_get_one::<u32>(name).ok()
}

// The plan on this number of threads, if one is given.
fn plan_of(options: &ArgMatches, threads: Option<u32>) -> Option<PlanNumbers>
    ensures { IfSome result (λ p. IsPlanAt (rows_of (found_of options.now)) threads
        p.stages p.capacity p.generations) }
{
    let stages = given(options, "stages")?;
    let capacity = given(options, "capacity")?;
    let generations = options.get_one::<u64>("generations")?;
    Some(PlanNumbers {
        stages: stages.unwrap_or(default_stages(threads, generations)),
        capacity: capacity.unwrap_or(default_capacity(threads)),
        generations,
    })
}

// The width or the height of blocks, or None if it is missing or out of range.
fn side_of(options: &ArgMatches, name: &str) -> Option<u32>
    ensures { IfSome result (IsSideAt (rows_of (found_of options.now)) name.now) }
{
    let side = options.get_one::<u32>(name)?;
    if 1 <= side && side <= MOST_BLOCK_SIDE {
        Some(side)
    } else {
        None
    }
}

fn run_request(options: &ArgMatches) -> Option<Request>
    ensures { IfSome result (IsRequestOf (Some (codes "run", rows_of (found_of options.now)))) }
{
    let threads = given(options, "threads")?;
    let plan = plan_of(options, threads)?;
    Some(Request::Run {
        stages: plan.stages,
        capacity: plan.capacity,
        generations: plan.generations,
        threads,
    })
}

fn coarse_request(options: &ArgMatches) -> Option<Request>
    ensures { IfSome result (IsRequestOf (Some (codes "coarse", rows_of (found_of options.now)))) }
{
    let threads = given(options, "threads")?;
    let plan = plan_of(options, threads)?;
    let block_width = side_of(options, "block-width")?;
    let block_height = side_of(options, "block-height")?;
    Some(Request::Coarse {
        stages: plan.stages,
        capacity: plan.capacity,
        generations: plan.generations,
        threads,
        block_width,
        block_height,
    })
}

// The words as numbers, or None if a word is no number.
fn parse_numbers(alloc: Global, words: &[&str]) -> Result<Option<Vec<u32>>, AllocError>
    ensures { IfOk result (λ r. IfSome r
        (λ numbers. AllZip (IsNumber 32) (map (λ w. w.now) words.now) numbers.items)) }
{
    let mut numbers = Vec::with_capacity(alloc, words.len())?;
    for word in words {
        let Ok(number) = word.parse::<u32>() else {
            return Ok(None);
        };
        numbers.push(number)?;
    }
    Ok(Some(numbers))
}

// The turns, or None if a word is no number. `clap` refuses such words, but that is not proved.
fn turns_of(alloc: Global, options: &ArgMatches) -> Result<Option<Turns>, AllocError>
    ensures { IfOk result (λ r. IfSome r (AreTurnsAt (rows_of (found_of options.now)))) }
{
    let Some(words) = options.get_raw("turns") else {
        return Ok(Some(Turns::new(Vec::new(alloc))));
    };
    match parse_numbers(alloc, words)? {
        Some(turns) => Ok(Some(Turns::new(turns))),
        None => Ok(None),
    }
}

fn replay_request(alloc: Global, options: &ArgMatches) -> Result<Option<Request>, AllocError>
    ensures { IfOk result (λ r. IfSome r
        (IsRequestOf (Some (codes "replay", rows_of (found_of options.now))))) }
{
    let Some(plan) = plan_of(options, None) else {
        return Ok(None);
    };
    let Some(turns) = turns_of(alloc, options)? else {
        return Ok(None);
    };
    Ok(Some(Request::Replay {
        stages: plan.stages,
        capacity: plan.capacity,
        generations: plan.generations,
        turns,
    }))
}
