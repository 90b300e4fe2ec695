//! The laws of the line of a pass over a lattice, for every list of turns, and of all passes of a
//! plan.
ghost use Rattle.std.specs.Prelude.{◌≡◌, ℕ, true, false, ◌+◌, ◌*◌, ◌<◌, ◌≤◌, List, [], ◌∷◌, ◌++◌, length, take, drop};
ghost use mathlib.Core.List.{IsPrefix};
ghost use Rattle.gas_rows.specs.Row.{RowModel};
ghost use Rattle.gas_pipe_model.specs.Line.{start, moves, events, is_done, HasRounds};
ghost use Rattle.gas_geom.specs.Gas.{Rules};
ghost use Rattle.gas_pipe_model.specs.Plan.{PlanModel, before};
ghost use Rattle.gas_pipe_model.specs.Pass.{RunInputModel, IsRunInput, line_of, after, rows_on, carried_on};
ghost use Rattle.gas_stage.specs.Evolution.{lattice_after};

/// No stage is in front of the first belt, all are in front of the last, and with a worker for each
/// stage one more is in front of each belt.
pub fn stages_in_order()
    ensures first { (plan : PlanModel) → 0 < plan.threads → before plan 0 ≡ 0 }
    ensures next { (plan : PlanModel) (k : ℕ) → before plan k ≤ before plan (k + 1) }
    ensures last { (plan : PlanModel) → 0 < plan.threads →
        before plan plan.threads ≡ plan.stages }
    ensures each { (plan : PlanModel) (k : ℕ) → 0 < plan.threads → plan.threads ≡ plan.stages →
        k ≤ plan.stages → before plan k ≡ k }
{}

/// Each belt carries one row for each row of the lattice. For all rows of a belt the worker after
/// it owes the rows of the next belt. What a worker owes only grows at its end as rows come. It is
/// complete when all have come, and is never more than came.
pub fn owed_in_order()
    ensures whole { (gas : Rules) (input : RunInputModel) (n k : ℕ) → IsRunInput gas input →
        length (rows_on gas input n k) ≡ input.lattice.channel.height }
    ensures next { (gas : Rules) (input : RunInputModel) (n k : ℕ) → IsRunInput gas input →
        (line_of gas input n).owe (k + 1) (rows_on gas input n k) ≡ rows_on gas input n (k + 1) }
    ensures grows { (gas : Rules) (input : RunInputModel) (n k : ℕ) (took more : List RowModel) →
        IsRunInput gas input → length (took ++ more) ≤ input.lattice.channel.height →
        IsPrefix ((line_of gas input n).owe k took) ((line_of gas input n).owe k (took ++ more)) }
    ensures all { (gas : Rules) (input : RunInputModel) (n k : ℕ) (took : List RowModel) →
        IsRunInput gas input → length took ≡ input.lattice.channel.height →
        length ((line_of gas input n).owe k took) ≡ input.lattice.channel.height }
    ensures no_more { (gas : Rules) (input : RunInputModel) (n k : ℕ) (took : List RowModel) →
        IsRunInput gas input → length ((line_of gas input n).owe k took) ≤ length took }
{}

/// On each belt, what was taken is the beginning of what was put, and what was put is the beginning
/// of the rows of one generation.
pub fn pass_in_order()
    ensures taken { (gas : Rules) (input : RunInputModel) (n : ℕ) (turns : List ℕ) (k : ℕ) →
        IsRunInput gas input →
        IsPrefix ((after gas input n turns).taken k) ((after gas input n turns).put k) }
    ensures put { (gas : Rules) (input : RunInputModel) (n : ℕ) (turns : List ℕ) (k : ℕ) →
        IsRunInput gas input → k ≤ input.plan.threads →
        IsPrefix ((after gas input n turns).put k) (rows_on gas input n k) }
{}

/// No belt ever has more rows under way than its capacity.
pub fn pass_under_way()
    ensures room { (gas : Rules) (input : RunInputModel) (n : ℕ) (turns : List ℕ) (k : ℕ) →
        IsRunInput gas input → length ((after gas input n turns).put k)
        ≤ length ((after gas input n turns).taken k) + input.plan.capacity }
{}

/// If the pass is not done, some member's turn is an event.
pub fn pass_never_stuck()
    ensures mover { (gas : Rules) (input : RunInputModel) (n : ℕ) (turns : List ℕ) →
        IsRunInput gas input → is_done (line_of gas input n) (after gas input n turns) ≡ false →
        (m : ℕ) × ((m ≤ input.plan.threads)
        × (moves (line_of gas input n) (after gas input n turns) m ≡ true)) }
{}

/// If the pass is done, each belt has carried the rows of one generation, by one event for each put
/// and each take. If there are stages enough, the last belt has carried the last generation.
pub fn pass_at_the_end()
    ensures put { (gas : Rules) (input : RunInputModel) (n : ℕ) (turns : List ℕ) (k : ℕ) →
        IsRunInput gas input → is_done (line_of gas input n) (after gas input n turns) ≡ true →
        k ≤ input.plan.threads → (after gas input n turns).put k ≡ rows_on gas input n k }
    ensures taken { (gas : Rules) (input : RunInputModel) (n : ℕ) (turns : List ℕ) (k : ℕ) →
        IsRunInput gas input → is_done (line_of gas input n) (after gas input n turns) ≡ true →
        k ≤ input.plan.threads → (after gas input n turns).taken k ≡ rows_on gas input n k }
    ensures last { (gas : Rules) (input : RunInputModel) (n : ℕ) (turns : List ℕ) →
        IsRunInput gas input → is_done (line_of gas input n) (after gas input n turns) ≡ true →
        input.plan.generations ≤ (n + 1) * input.plan.stages →
        (after gas input n turns).taken input.plan.threads
        ≡ (lattice_after gas input.chirality input.first input.lattice
        input.plan.generations).rows }
    ensures count { (gas : Rules) (input : RunInputModel) (n : ℕ) (turns : List ℕ) →
        IsRunInput gas input → is_done (line_of gas input n) (after gas input n turns) ≡ true →
        events (line_of gas input n) turns start
        ≡ 2 * input.lattice.channel.height * (input.plan.threads + 1) }
{}

/// The pass is done after any turns that can be cut into rounds, each with a turn of every member,
/// one round for each event of the pass, for any capacity.
pub fn pass_done_in_rounds()
    ensures done { (gas : Rules) (input : RunInputModel) (n : ℕ) (turns : List ℕ) →
        IsRunInput gas input →
        HasRounds input.plan.threads
        (2 * input.lattice.channel.height * (input.plan.threads + 1))
        turns → is_done (line_of gas input n) (after gas input n turns) ≡ true }
{}

/// Two rounds of the feeder and one worker, as a worked example. In each both have a turn, in either
/// order.
pub fn two_rounds()
    ensures rounds { HasRounds 1 2 (0 ∷ 1 ∷ 1 ∷ 0 ∷ []) }
{}

/// The first pass of a plan begins with the rows of its lattice. Each later pass begins with the
/// rows that the pass before it ended with.
pub fn passes_in_order()
    ensures first { (gas : Rules) (input : RunInputModel) → IsRunInput gas input →
        rows_on gas input 0 0 ≡ input.lattice.rows }
    ensures next { (gas : Rules) (input : RunInputModel) (n : ℕ) → IsRunInput gas input →
        rows_on gas input n input.plan.threads ≡ rows_on gas input (n + 1) 0 }
{}

/// In all passes of a plan but the last, the rows that come back on the last belt are the rows that
/// follow the lattice's own on the first.
pub fn rows_return()
    ensures round { (gas : Rules) (input : RunInputModel) (n : ℕ) → IsRunInput gas input →
        take (n * input.lattice.channel.height) (carried_on gas input (n + 1) input.plan.threads)
        ≡ drop input.lattice.channel.height (carried_on gas input (n + 1) 0) }
{}
