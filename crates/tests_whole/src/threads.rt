//! Runs by threads beside the reference, which goes cell by cell, with one place in each belt, two,
//! and more than a low lattice has rows.

ghost use Rattle.std.specs.Prelude.{◌<◌, ◌^◌};

use super::helpers::{assert_same, random_lattice};
use super::reference::lattice_after;
use gas_geom::fhp_rest::FhpRest;
use gas_geom::fhp1::Fhp1;
use gas_geom::gas::Gas;
use gas_geom::hpp::Hpp;
use gas_geom::size::Size;
use gas_pipe::{NoGate, Plan, Run, run};
use gas_rows::chirality::Chirality;
use gas_rows::lattice::Lattice;
use rand_core::Rng;
use rand_core::utils::NextWord;
use rand_pcg::Pcg32;
use std::alloc::Global;
use std::process::Abort;
use std::sync::Wait;
use std::test::Fail;
use std::thread::Threads;

// It promises nothing, so that no test carries the promises of `run`.
fn run_from<G: Gas + Send, R: Threads + Wait + Sync>(
    rt: &R,
    alloc: Global,
    lattice: &Lattice<G>,
    chirality: Chirality,
    first: u64,
    plan: Plan,
) -> Result<Run<G>, Fail>
    requires { first < 2 ^ 63 }
{
    Ok(run(rt, alloc, lattice, chirality, first, plan, &NoGate)?)
}

// Asserts that a run comes to the lattice that is computed cell by cell, that no particle is made
// or lost, and that each belt carried all rows of all passes.
fn compare<G: Gas + Send, R: Abort + Threads + Wait + Sync>(
    rt: &R,
    alloc: Global,
    lattice: &Lattice<G>,
    chirality: Chirality,
    first: u64,
    plan: Plan,
) -> Result<(), Fail>
    requires { first < 2 ^ 63 }
{
    let wanted = lattice_after(alloc, lattice, chirality, first, plan.generations())?;
    let run = run_from(rt, alloc, lattice, chirality, first, plan)?;
    assert_same(rt, run.lattice(), &wanted);
    assert_eq!(rt; run.lattice().count(), lattice.count());
    let height = lattice.channel().size().height();
    let rows = plan
        .generations()
        .div_ceil(u64::from(plan.stages().max(1)))
        .wrapping_mul(u64::from(height));
    for carried in run.belts() {
        assert_eq!(rt; carried.len(), rows);
    }
    Ok(())
}

// A run of a random lattice of a random generation, of up to `most_rows` rows, for a random number
// of generations.
fn compare_random<G: Gas + Send, R: Abort + Threads + Wait + Sync>(
    rt: &R,
    alloc: Global,
    (stages, threads, capacity): (u32, u32, u32),
    most_rows: u32,
    random: &mut Pcg32,
) -> Result<(), Fail> {
    let width = random.next_word() % 70 + 1;
    let height = random.next_word() % most_rows.max(1) + 1;
    let generations = u64::from(random.next_word() % 41);
    let chirality = Chirality::Seeded(random.next_u64());
    let first = random.next_u64() % 1_000_000_000_000;
    let size = Size::new(width, height).ok_or("a size")?;
    let plan = Plan::new(stages, capacity, generations)?.on(threads)?;
    let lattice = random_lattice::<G>(alloc, size, random)?;
    compare(rt, alloc, &lattice, chirality, first, plan)
}

// Random runs of a gas through lines of all lengths up to 8 on any number of threads: of low lattices,
// and of a higher one. Each comes to its end.
fn soak<G: Gas + Send, R: Abort + Threads + Wait + Sync>(
    rt: &R,
    alloc: Global,
    capacity: u32,
) -> Result<(), Fail> {
    let mut random = Pcg32::new(42, u64::from(capacity));
    for most_rows in [3, 3, 3, 3, 20] {
        for stages in 1..=8 {
            for threads in 1..=stages {
                let line = (stages, threads, capacity);
                compare_random::<G, _>(rt, alloc, line, most_rows, &mut random)?;
            }
        }
    }
    Ok(())
}

// Each number of places is a test of its own, so that none takes long where other programs keep the
// machine busy.
fn soak_gases<R: Abort + Threads + Wait + Sync>(
    rt: &R,
    alloc: Global,
    capacity: u32,
) -> Result<(), Fail> {
    soak::<Fhp1, _>(rt, alloc, capacity)?;
    soak::<Hpp, _>(rt, alloc, capacity)?;
    soak::<FhpRest, _>(rt, alloc, capacity)
}

#[test]
fn through_one_place(rt: HostRuntime) -> Result<(), Fail> {
    soak_gases(&rt, rt.alloc(), 1)
}

#[test]
fn through_two_places(rt: HostRuntime) -> Result<(), Fail> {
    soak_gases(&rt, rt.alloc(), 2)
}

#[test]
fn through_nine_places(rt: HostRuntime) -> Result<(), Fail> {
    soak_gases(&rt, rt.alloc(), 9)
}

#[test]
fn through_33_places(rt: HostRuntime) -> Result<(), Fail> {
    soak_gases(&rt, rt.alloc(), 33)
}

// Belts of one place within the threads, and belts that never hold all rows of a pass.
#[test]
fn sixteen_workers_on_three_threads(rt: HostRuntime) -> Result<(), Fail> {
    let mut random = Pcg32::new(42, 16);
    for capacity in [1, 2, 33] {
        let size = Size::new(70, 20).ok_or("a size")?;
        let lattice = random_lattice::<Fhp1>(rt.alloc(), size, &mut random)?;
        let plan = Plan::new(16, capacity, 100)?.on(3)?;
        compare(&rt, rt.alloc(), &lattice, Chirality::Seeded(7), 5, plan)?;
    }
    Ok(())
}
