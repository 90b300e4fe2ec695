//! Reads a scene from standard input, computes twelve generations by threads, and prints how many
//! particles each column has then, and which has the most. `docs/LIBRARY.md` shows two of its loops.
#![tactic(auto)]

ghost use Rattle.std.specs.Prelude.{◌<◌, ◌≤◌, ◌*◌};

use anyhow::Result;
use gas_geom::gas::Gas;
use gas_pipe::{NoGate, Plan, run};
use gas_rows::lattice::Lattice;
use gas_scene::scene::{Scene, read};
use gas_scene::with_lattice;
use gas_tool::slurp;
use std::alloc::Global;
use std::sync::Wait;
use std::thread::Threads;

/// The particles in column `x`, at most eight per cell.
fn in_column<G: Gas>(lattice: &Lattice<G>, x: u32) -> u64
    requires column { x < lattice.now.channel.width }
    ensures most { result ≤ 8 * lattice.now.channel.height }
{
    let mut total = 0;
    for y in 0..lattice.channel().size().height() {
        total += u64::from(lattice.cell(x, y).count_ones());
    }
    total
}

/// The column with the most particles, the first of several, and how many these are.
fn fullest<G: Gas>(lattice: &Lattice<G>) -> (u32, u64)
    ensures column { result.0 < lattice.now.channel.width }
    ensures most { result.1 ≤ 8 * lattice.now.channel.height }
{
    let (mut column, mut most) = (0, 0);
    for x in 0..lattice.channel().size().width() {
        let number = in_column(lattice, x);
        if number > most {
            (column, most) = (x, number);
        }
    }
    (column, most)
}

/// Prints the particles of each column, and the fullest, twelve generations after the scene's.
fn print_columns<G: Gas + Send, R: Print + Threads + Wait + Sync>(
    rt: &R,
    alloc: Global,
    scene: &Scene,
    lattice: &Lattice<G>,
) -> Result<()> {
    let plan = Plan::new(4, 8, 12)?;
    let (chirality, first) = (scene.chirality(), scene.generation());
    let ended = run(rt, alloc, lattice, chirality, first, plan, &NoGate)?;
    let (before, after) = (lattice.count(), ended.lattice().count());
    prove!(after == before);
    println!(rt; "generation {}: {after} particles", first + 12)?;
    for x in 0..ended.lattice().channel().size().width() {
        println!(rt; "column {x}: {}", in_column(ended.lattice(), x))?;
    }
    let (column, most) = fullest(ended.lattice());
    println!(rt; "the fullest is column {column}, with {most}")?;
    Ok(())
}

fn main(rt: HostRuntime) -> Result<()> {
    let alloc = rt.alloc();
    let text = slurp(alloc, &mut rt.reader())?;
    let scene = read(alloc, text.as_slice())?;
    with_lattice!(scene.lattice(), lattice => print_columns(&rt, alloc, &scene, lattice))
}
