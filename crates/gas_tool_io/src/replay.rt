//! The printed text of a replay.

ghost use Rattle.std.specs.Prelude.{◌<◌, ◌++◌, ◌↔◌, [], codes, length, is_some, if◌then◌else◌, IsTrue, IsSome, Option};
ghost use Rattle.gas_geom.specs.Lattice.{LatticeModel};
ghost use Rattle.std.specs.List.{flat_map, range_with_len};
ghost use Rattle.std.specs.Option.{option_map_or};
ghost use Rattle.gas_tool_io.specs.Output.{Writes};
ghost use Rattle.gas_tool_io.specs.Inner.Sink.{Adds};
ghost use Rattle.gas_tool_io.specs.Text.{cells_text, line_feed};
ghost use Rattle.gas_tool_io.specs.Replay.{belt_line, replay_text};

use crate::output::{Sink, put_line};
use crate::text::{WriteFault, put_cells};
use gas_geom::gas::Gas;
use gas_pipe_replay::pass::Replay;
use std::io::Write;

fn put_done<W: Write>(sink: &mut Sink, out: &mut W, done: bool)
    ensures { (lattice : Option LatticeModel) → (IsTrue done ↔ IsSome lattice) →
        Adds (W.contents out.old) (W.contents out.new) sink.old sink.new
        ((if is_some lattice then codes "done" else codes "not done") ++ line_feed) }
{
    if done {
        sink.push(out, b"done\n");
    } else {
        sink.push(out, b"not done\n");
    }
}

#[tactic(auto, unfolding(crate::specs::Replay::belt_line))]
fn put_belt<G: Gas, W: Write>(sink: &mut Sink, out: &mut W, replay: &Replay<G>, belt: u32)
    requires { belt < length replay.now.belts }
    ensures { Adds (W.contents out.old) (W.contents out.new) sink.old sink.new
        (belt_line replay.now.belts belt) }
{
    let (Some(put), Some(taken)) = (replay.put(belt), replay.taken(belt)) else {
        unreachable!()
    };
    put_line(
        sink,
        out,
        format_args!("belt {belt} put {put} taken {taken}"),
    );
}

fn put_belts<G: Gas, W: Write>(sink: &mut Sink, out: &mut W, replay: &Replay<G>)
    ensures { Adds (W.contents out.old) (W.contents out.new) sink.old sink.new
        (flat_map (belt_line replay.now.belts) (range_with_len 0 (length replay.now.belts))) }
{
    for belt in 0..replay.belts() {
        put_belt(sink, out, replay, belt);
    }
}

// Adds the cells of the lattice if the pass is done.
fn put_end<G: Gas, W: Write>(sink: &mut Sink, out: &mut W, replay: &Replay<G>, generation: u64)
    ensures { Adds (W.contents out.old) (W.contents out.new) sink.old sink.new
        (option_map_or (λ l. cells_text G.rules l generation) replay.now.lattice []) }
{
    if let Some(lattice) = replay.lattice() {
        put_cells(sink, out, lattice, generation);
    }
}

/// Writes the state of a replayed pass: `done` or `not done`, then a line per belt. If the pass is
/// done, the cells of its lattice follow, which is of this generation. Flush and faults are as in
/// `write_cells`.
pub fn write_replay<G: Gas, W: Write>(
    replay: &Replay<G>,
    generation: u64,
    out: &mut W,
) -> Result<(), WriteFault>
    ensures written { Writes (W.contents out.old) (W.contents out.new)
        (replay_text G.rules replay.now generation) result }
{
    let mut sink = Sink::new();
    put_done(&mut sink, out, replay.done());
    put_belts(&mut sink, out, replay);
    put_end(&mut sink, out, replay, generation);
    sink.finish(out)
}
