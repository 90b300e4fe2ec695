//! The printed texts of a lattice: its cells, its summary, and a table of its blocks.

ghost use Rattle.std.specs.Prelude.{◌<◌, ◌++◌};
ghost use Rattle.std.specs.List.{flat_map, range_with_len};
ghost use Rattle.gas_cells.specs.Cells.{row_cells};
ghost use Rattle.gas_tool_io.specs.Output.{Writes};
ghost use Rattle.gas_tool_io.specs.Inner.Sink.{Adds};
ghost use Rattle.gas_tool_io.specs.Table.{block_line, table_text};
ghost use Rattle.gas_tool_io.specs.Text.{cells_text, check_text, line_feed};

use crate::output::{Sink, put_line};
use gas_blocks::blocks::Block;
use gas_cells::cells::{row_part, row_parts};
use gas_geom::gas::Gas;
use gas_rows::lattice::Lattice;
use std::io::Write;
use thiserror::Error;

/// A writer failed, or took nothing, after the first `written` bytes of a text.
#[derive(Debug, Drop, Error)]
#[error("write: failed after {written} bytes")]
pub struct WriteFault {
    pub written: u64,
}

fn put_row<G: Gas, W: Write>(sink: &mut Sink, out: &mut W, lattice: &Lattice<G>, y: u32)
    requires { y < lattice.now.channel.height }
    ensures { Adds (W.contents out.old) (W.contents out.new) sink.old sink.new
        (row_cells lattice.now.channel lattice.now.rows y ++ line_feed) }
{
    for j in 0..row_parts(lattice) {
        sink.push(out, row_part(lattice, y, j).as_bytes());
    }
    sink.push(out, b"\n");
}

fn put_rows<G: Gas, W: Write>(sink: &mut Sink, out: &mut W, lattice: &Lattice<G>)
    ensures { Adds (W.contents out.old) (W.contents out.new) sink.old sink.new
        (flat_map (λ y. row_cells lattice.now.channel lattice.now.rows y ++ line_feed)
        (range_with_len 0 lattice.now.channel.height)) }
{
    for y in 0..lattice.channel().size().height() {
        put_row(sink, out, lattice, y);
    }
}

// Adds the cells of a lattice: the line of its generation and its particles, then its rows from the
// top.
pub(crate) fn put_cells<G: Gas, W: Write>(
    sink: &mut Sink,
    out: &mut W,
    lattice: &Lattice<G>,
    generation: u64,
)
    ensures { Adds (W.contents out.old) (W.contents out.new) sink.old sink.new
        (cells_text G.rules lattice.now generation) }
{
    let particles = lattice.count();
    put_line(
        sink,
        out,
        format_args!("generation {generation} particles {particles}"),
    );
    put_rows(sink, out, lattice);
}

/// Writes the cells of a lattice: the line of its generation and its particles, then its rows from
/// the top, two characters per cell. It is tested that the writer is then flushed once, and that an
/// error of the writer and a write of 0 bytes are faults.
pub fn write_cells<G: Gas, W: Write>(
    lattice: &Lattice<G>,
    generation: u64,
    out: &mut W,
) -> Result<(), WriteFault>
    ensures written { Writes (W.contents out.old) (W.contents out.new)
        (cells_text G.rules lattice.now generation) result }
{
    let mut sink = Sink::new();
    put_cells(&mut sink, out, lattice, generation);
    sink.finish(out)
}

/// Writes the summary of a lattice, a line. It has this name of its gas, the width and the height in
/// cells, and the numbers of solid cells and of particles. Flush and faults are as in `write_cells`.
/// A line of more than 128 bytes is a fault too, before its first byte.
pub fn write_summary<G: Gas, W: Write>(
    gas: &str,
    lattice: &Lattice<G>,
    out: &mut W,
) -> Result<(), WriteFault>
    ensures written { Writes (W.contents out.old) (W.contents out.new)
        (check_text gas.now G.rules lattice.now) result }
{
    let channel = lattice.channel();
    let (width, height) = (channel.size().width(), channel.size().height());
    let (solid, particles) = (channel.count_solid(), lattice.count());
    let mut sink = Sink::new();
    put_line(
        &mut sink,
        out,
        format_args!("gas {gas} width {width} height {height} solid {solid} particles {particles}"),
    );
    sink.finish(out)
}

fn put_block<W: Write>(sink: &mut Sink, out: &mut W, block: Block)
    ensures { Adds (W.contents out.old) (W.contents out.new) sink.old sink.new (block_line block) }
{
    let Block {
        col,
        row,
        fluid,
        particles,
        px,
        py,
    } = block;
    put_line(
        sink,
        out,
        format_args!("{col:>5} {row:>5} {fluid:>8} {particles:>9} {px:>10} {py:>10}"),
    );
}

fn put_blocks<W: Write>(sink: &mut Sink, out: &mut W, blocks: &[Block])
    ensures { Adds (W.contents out.old) (W.contents out.new) sink.old sink.new
        (flat_map block_line blocks.now) }
{
    for block in blocks {
        put_block(sink, out, *block);
    }
}

/// Writes the table of blocks: a header, then a line per block in the given order. The six columns
/// are the fields of `Block`, right-aligned in 5, 5, 8, 9, 10 and 10 places, with one space between
/// them. A number that needs more places takes them. Flush and faults are as in `write_cells`.
pub fn write_table<W: Write>(blocks: &[Block], out: &mut W) -> Result<(), WriteFault>
    ensures written { Writes (W.contents out.old) (W.contents out.new)
        (table_text blocks.now) result }
{
    let mut sink = Sink::new();
    sink.push(
        out,
        b"  col   row    fluid particles         px         py\n",
    );
    put_blocks(&mut sink, out, blocks);
    sink.finish(out)
}
