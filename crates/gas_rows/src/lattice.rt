//! Lattices: a channel and the states of its cells.
ghost use Rattle.std.specs.Prelude.{◌≡◌, ◌<◌, ◌^◌, ℕ, [], true, false, length, slice_index, slice_index_or, slice_set, if◌then◌else◌, IfOk};
ghost use Rattle.gas_geom.specs.Channel.{is_solid};
ghost use Rattle.gas_geom.specs.Lattice.{LatticeModel, IsLattice, cell, count, empty_lattice, row_of, with_cell};

use crate::channel::Channel;
use crate::row::Row;
use gas_geom::gas::Gas;
use std::alloc::{AllocError, Global};
use std::marker::Model;

/// A channel and a state for each of its cells, 0 at the solid ones.
#[derive(Drop)]
pub struct Lattice<G: Gas> {
    channel: Channel,
    rows: Vec<Row<G>>,
}

impl<G: Gas> Model for Lattice<G> {
    ghost use Rattle.gas_geom.specs.Lattice.{LatticeModel, IsLattice};

    ghost Value = { LatticeModel };

    ghost view = { λ l. record { channel = l.channel; rows = l.rows.items } };

    ghost invariant = { λ l. IsLattice G.rules l.channel l.rows.items };
}

impl<G: Gas> Lattice<G> {
    /// The lattice of this channel with no particle. If memory is refused, the channel is dropped.
    pub fn blank(alloc: Global, channel: Channel) -> Result<Self, AllocError>
        ensures value { IfOk result (λ l. l ≡ empty_lattice channel) }
    {
        let size = channel.size();
        let mut rows = Vec::with_capacity(alloc, size.height() as usize)?;
        for _ in 0..size.height() {
            rows.push(Row::blank(alloc, size.width())?)?;
        }
        Ok(Lattice { channel, rows })
    }

    /// The lattice of these rows, from the top.
    pub fn from_rows(channel: Channel, rows: Vec<Row<G>>) -> Self
        requires lattice { IsLattice G.rules channel rows.items }
        ensures value { result ≡ record { channel = channel; rows = rows.items } }
    {
        Lattice { channel, rows }
    }

    /// The channel and the rows, from the top.
    pub fn into_rows(self) -> (Channel, Vec<Row<G>>)
        ensures channel { result.0 ≡ self.channel }
        ensures rows { result.1.items ≡ self.rows }
        ensures whole { IsLattice G.rules self.channel self.rows }
    {
        (self.channel, self.rows)
    }

    /// An equal lattice.
    pub fn copy(&self, alloc: Global) -> Result<Self, AllocError>
        ensures equal { IfOk result (λ l. l ≡ self.now) }
    {
        let channel = self.channel.copy(alloc)?;
        let mut rows = Vec::with_capacity(alloc, self.rows.len())?;
        for row in &self.rows {
            rows.push(row.copy(alloc)?)?;
        }
        Ok(Lattice { channel, rows })
    }

    /// The channel.
    pub fn channel(&self) -> &Channel
        ensures channel { result.now ≡ self.now.channel }
        ensures whole { IsLattice G.rules self.now.channel self.now.rows }
    {
        &self.channel
    }

    /// The state of the cell in column `x` of row `y`, 0 at a solid cell.
    pub fn cell(&self, x: u32, y: u32) -> u8
        requires column { x < self.now.channel.width }
        requires row { y < self.now.channel.height }
        ensures value { result ≡ cell self.now.rows x y }
        ensures state { result < 2 ^ G.rules.dirs }
    {
        self.row(y).get(x)
    }

    /// Row `y`, counted from the top.
    pub fn row(&self, y: u32) -> &Row<G>
        requires row { y < self.now.channel.height }
        ensures row { result.now ≡ slice_index_or self.now.rows y [] }
        ensures wide { length result.now ≡ self.now.channel.width }
    {
        &self.rows[y as usize]
    }

    /// The number of particles.
    pub fn count(&self) -> u64
        ensures count { result ≡ count G.rules self.now.rows }
    {
        let mut total = 0;
        for y in 0..self.channel.size().height() {
            total += u64::from(self.row(y).count());
        }
        total
    }

    /// Sets the state of the fluid cell in column `x` of row `y`.
    pub fn set_cell(&mut self, x: u32, y: u32, state: u8)
        requires column { x < self.old.channel.width }
        requires row { y < self.old.channel.height }
        requires fluid { is_solid self.old.channel x y ≡ false }
        requires state { state < 2 ^ G.rules.dirs }
        ensures written { self.new ≡ record self.old { rows = with_cell self.old.rows x y state } }
    {
        self.rows[y as usize].set(x, state);
    }

    /// Makes the cell in column `x` of row `y` solid and empty.
    pub fn make_solid(&mut self, x: u32, y: u32)
        requires column { x < self.old.channel.width }
        requires row { y < self.old.channel.height }
        ensures written { self.new
            ≡ record {
              channel = record self.old.channel { solid = with_cell self.old.channel.solid x y true };
              rows = with_cell self.old.rows x y 0;
            } }
    {
        self.channel.make_solid(x, y);
        self.rows[y as usize].set(x, 0);
    }

    /// Sets which cells of row `y` are solid, and the states of all its cells, 0 at the solid ones.
    pub fn set_row(&mut self, y: u32, solid: &[bool], states: &[u8])
        requires row { y < self.old.channel.height }
        requires as_wide { length solid.now ≡ self.old.channel.width }
        requires wide { length states.now ≡ self.old.channel.width }
        requires states { (x : ℕ) → slice_index states.now x < 2 ^ G.rules.dirs }
        requires empty { (x : ℕ) → slice_index_or solid.now x false ≡ true →
            slice_index states.now x ≡ 0 }
        ensures written { self.new ≡ record {
          channel =
              record self.old.channel { solid = slice_set self.old.channel.solid y solid.now };
          rows = slice_set self.old.rows y states.now;
        } }
    {
        self.channel.set_row(y, solid);
        self.rows[y as usize].copy_from(states);
    }

    /// Sets the states of the fluid cells of row `y`. The solid ones stay empty.
    pub fn set_states(&mut self, y: u32, states: &[u8])
        requires row { y < self.old.channel.height }
        requires wide { length states.now ≡ self.old.channel.width }
        requires states { (x : ℕ) → slice_index states.now x < 2 ^ G.rules.dirs }
        ensures written { self.new ≡ record self.old {
          rows = slice_set self.old.rows y (row_of self.old.channel.width (λ x.
              if is_solid self.old.channel x y then 0 else slice_index states.now x));
        } }
    {
        let cells = &mut self.rows[y as usize];
        cells.copy_from(states);
        cells.empty_solid(self.channel.mask(y));
    }
}
