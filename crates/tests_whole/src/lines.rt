//! Replayed turns beside a plain machine: the line as the lengths of its histories.

ghost use Rattle.std.specs.Prelude.{◌≡◌, ◌≤◌};

use super::helpers::{assert_same, random_lattice};
use super::reference::lattice_after;
use gas_geom::fhp1::Fhp1;
use gas_geom::size::Size;
use gas_pipe::{Plan, Replay, replay};
use gas_rows::chirality::Chirality;
use gas_rows::lattice::Lattice;
use rand_core::utils::NextWord;
use rand_pcg::Pcg32;
use std::alloc::{AllocError, Global};
use std::process::Abort;
use std::test::Fail;

// How many rows were put on each belt and taken from it. The feeder is member 0 and owes all rows;
// a worker that computes owes one row fewer than came, and all of them once all came; behind the
// generations a worker owes what came.
#[derive(Drop)]
struct Lengths {
    rows: u32,
    workers: u32,
    capacity: u32,
    generations: u32,
    put: [u32; 8],
    taken: [u32; 8],
}

// The length at a place of a list, 0 past its end.
fn at(lengths: &[u32], place: u32) -> u32 {
    lengths.get(place as usize).copied().unwrap_or(0)
}

// Makes the length at a place one more.
fn count(lengths: &mut [u32], place: u32) {
    if let Some(length) = lengths.get_mut(place as usize) {
        *length = length.wrapping_add(1);
    }
}

impl Lengths {
    fn owed_rows(&self, member: u32) -> u32 {
        if member == 0 {
            return self.rows;
        }
        let came = at(&self.taken, member - 1);
        if member > self.generations || came == self.rows {
            came
        } else {
            came.saturating_sub(1)
        }
    }

    fn turn(&mut self, member: u32) {
        if member > self.workers {
            return;
        }
        let put = at(&self.put, member);
        let owed = self.owed_rows(member);
        if put < owed && put < at(&self.taken, member).saturating_add(self.capacity) {
            count(&mut self.put, member);
            return;
        }
        let source = member.checked_sub(1).unwrap_or(self.workers);
        let some = at(&self.taken, source) < at(&self.put, source);
        if some && (member == 0 || put == owed) {
            count(&mut self.taken, source);
        }
    }

    fn is_done(&self) -> bool {
        at(&self.put, 0) == self.rows && at(&self.taken, self.workers) == self.rows
    }
}

fn assert_stands(rt: &impl Abort, replay: &Replay<Fhp1>, lengths: &Lengths) {
    assert!(rt; replay.done() == lengths.is_done());
    assert!(rt; replay.belts() == lengths.workers.wrapping_add(1));
    for belt in 0..replay.belts() {
        assert!(rt;
            replay.put(belt) == Some(at(&lengths.put, belt)),
            "put on belt {belt}"
        );
        assert!(rt;
            replay.taken(belt) == Some(at(&lengths.taken, belt)),
            "taken from belt {belt}"
        );
    }
    let past = replay.belts();
    assert!(rt; replay.put(past).is_none(), "put on belt {past}");
    assert!(rt; replay.taken(past).is_none(), "taken from belt {past}");
}

// Turns of random members; one number in `workers + 2` is that of no member.
fn random_turns(
    alloc: Global,
    count: usize,
    workers: u32,
    random: &mut Pcg32,
) -> Result<Vec<u32>, AllocError>
    requires { workers ≤ 7 }
{
    let mut turns = Vec::with_capacity(alloc, count)?;
    for _ in 0..count {
        turns.push(random.next_word() % (workers + 2))?;
    }
    Ok(turns)
}

// The generation from which all replays start, and their random bits.
const FIRST: u64 = 1_000_000;

const CHIRALITY: Chirality = Chirality::Seeded(11);

// A replay of turns. It promises nothing, so that no test carries the promises of `replay`.
fn replay_of(
    alloc: Global,
    lattice: &Lattice<Fhp1>,
    plan: Plan,
    turns: &[u32],
) -> Result<Replay<Fhp1>, Fail> {
    Ok(replay(alloc, lattice, CHIRALITY, FIRST, plan, turns)?)
}

// Where the plan leads, cell by cell.
fn plain_lattice(
    alloc: Global,
    lattice: &Lattice<Fhp1>,
    plan: Plan,
) -> Result<Lattice<Fhp1>, Fail> {
    Ok(lattice_after(alloc, lattice, CHIRALITY, FIRST, plan.generations())?)
}

// A replay of random turns beside the plain machine, and beside the plain lattice where it is done.
fn compare(
    rt: &impl Abort,
    alloc: Global,
    lattice: &Lattice<Fhp1>,
    plan: Plan,
    turns: &[u32],
) -> Result<bool, Fail> {
    let mut lengths = Lengths {
        rows: lattice.channel().size().height(),
        workers: plan.stages(),
        capacity: plan.capacity(),
        generations: plan.generations() as u32,
        put: [0; 8],
        taken: [0; 8],
    };
    for member in turns {
        lengths.turn(*member);
    }
    let replay = replay_of(alloc, lattice, plan, turns)?;
    assert_stands(rt, &replay, &lengths);
    if let Some(found) = replay.lattice() {
        assert_same(rt, found, &plain_lattice(alloc, lattice, plan)?);
    }
    Ok(replay.done())
}

// A replay of `count` turns of a random line with `workers` workers over `height` rows. Returns
// whether the line is done.
fn compare_random(
    rt: &impl Abort,
    alloc: Global,
    workers: u32,
    height: u32,
    count: usize,
    random: &mut Pcg32,
) -> Result<bool, Fail>
    requires some { 1 ≤ workers }
    requires few { workers ≤ 7 }
{
    let size = Size::new(5, height).ok_or("a size")?;
    let lattice = random_lattice::<Fhp1>(alloc, size, random)?;
    let capacity = random.next_word() % 3 + 1;
    let generations = random.next_word() % workers + 1;
    let plan = Plan::new(workers, capacity, u64::from(generations))?;
    let turns = random_turns(alloc, count, workers, random)?;
    compare(rt, alloc, &lattice, plan, &turns)
}

#[test]
fn random_turns_of_small_lines(rt: HostRuntime) -> Result<(), Fail> {
    let mut random = Pcg32::new(42, 54);
    let mut done = 0u32;
    for workers in 1..5 {
        for height in 1..5 {
            for count in [5, 20, 60, 400] {
                if compare_random(&rt, rt.alloc(), workers, height, count, &mut random)? {
                    done = done.wrapping_add(1);
                }
            }
        }
    }
    assert!(rt; done > 16, "done {done} of 64");
    assert!(rt; done < 64, "done {done} of 64");
    Ok(())
}
