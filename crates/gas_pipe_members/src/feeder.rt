//! The feeder of the line, over any two ends.
ghost use Rattle.std.specs.Prelude.{◌≡◌, ◌<◌, ◌≤◌, ◌↔◌, ◌+◌, ◌*◌, ◌%◌, ◌++◌, ◌∷◌, ◌^◌, ℕ, [], List, Option, IfOk, IsTrue, IsFalse, true, false, length, slice_index, drop};
ghost use Rattle.gas_geom.specs.Lattice.{IsLattice};
ghost use Rattle.gas_rows.specs.Row.{RowModel};
ghost use mathlib.Core.List.{IsPrefix};
ghost use Rattle.gas_pipe_members.specs.Ends.{Sends, Takes};
ghost use Rattle.gas_pipe_members.specs.Feeder.{FeederModel, MayHaveFed, Keeps, Gives, FeederTurned, emptied_row, emptied_from};

use crate::ends::{PutEnd, TakeEnd, Turned, give_spare, keep_spare};
use gas_geom::gas::Gas;
use gas_rows::channel::Channel;
use gas_rows::lattice::Lattice;
use gas_rows::row::Row;
use std::alloc::{AllocError, Global};
use std::collections::VecDeque;
use std::marker::Model;

// Empties the solid cells of row y.
fn empty_solid<G: Gas>(channel: &Channel, y: u32, row: &mut Row<G>)
    requires row { y < channel.now.height }
    requires wide { length row.old ≡ channel.now.width }
    ensures emptied { row.new ≡ emptied_row channel.now y row.old }
    ensures states { (x : ℕ) → slice_index row.new x < 2 ^ G.rules.dirs }
{
    row.empty_solid(channel.mask(y));
}

/// The feeder of the line. It has the rows to be put, in order, and after them the rows that came
/// back. It keeps the spare rows of its puts for the end that it takes from.
#[derive(Drop)]
pub struct Feeder<G: Gas> {
    channel: Channel,
    rows: VecDeque<Row<G>>,
    spares: Vec<Row<G>>,
    to_put: u64,
    to_take: u64,
    next: u32,
    stray: bool,
}

impl<G: Gas> Model for Feeder<G> {
    ghost use Rattle.std.specs.Prelude.{◌≡◌, ◌+◌, ◌≤◌, ◌<◌, true, length, All, vec_len, vec_capacity};
    ghost use Rattle.std.specs.VecDeque.{deque_capacity, deque_len};
    ghost use Rattle.gas_geom.specs.declared.size.TheConstants.{MOST_SIDE};
    ghost use Rattle.gas_pipe_members.specs.Feeder.{FeederModel};
    ghost use Rattle.gas_pipe_members.specs.Inner.Queue.{IsQueue};

    ghost Value = { FeederModel };

    ghost view = { λ f. record {
      channel = f.channel;
      rows = f.rows.items;
      to_put = f.to_put;
      to_take = f.to_take;
      next = f.next;
      spares = vec_len f.spares;
      stray = f.stray;
    } };

    ghost invariant = { λ f. record {
      room : deque_len f.rows + f.to_take ≤ deque_capacity f.rows + f.to_put;
      put_first : f.to_put ≤ f.to_take;
      next_within : f.next < f.channel.height;
      few_rows : f.channel.height ≤ MOST_SIDE;
      stray_in_pass : f.stray ≡ true → 0 < f.to_take;
      places : vec_capacity f.spares ≡ f.channel.height;
      few_spares : vec_len f.spares + f.to_put ≤ f.to_take;
      wide_spares : All (λ row. length row ≡ f.channel.width) f.spares.items;
      queue : IsQueue G.rules f.channel f.rows.items f.to_put f.to_take f.next;
    } };
}

impl<G: Gas> Feeder<G> {
    /// A feeder with a copy of the lattice and no open pass.
    pub fn new(alloc: Global, lattice: &Lattice<G>) -> Result<Self, AllocError>
        ensures channel { IfOk result (λ f. f.channel ≡ lattice.now.channel) }
        ensures rows { IfOk result (λ f. f.rows ≡ lattice.now.rows) }
        ensures whole { IfOk result (λ f. IsLattice G.rules f.channel f.rows) }
        ensures closed { IfOk result (λ f. f.to_take ≡ 0) }
        ensures no_stray { IfOk result (λ f. f.stray ≡ false) }
    {
        let (channel, rows) = lattice.copy(alloc)?.into_rows();
        let height = channel.size().height();
        Ok(Feeder {
            channel,
            rows: VecDeque::from(rows),
            spares: Vec::with_capacity(alloc, height as usize)?,
            to_put: 0,
            to_take: 0,
            next: 0,
            stray: false,
        })
    }

    /// Opens a pass over its rows.
    pub fn begin(&mut self)
        requires closed { self.old.to_take ≡ 0 }
        ensures channel { self.new.channel ≡ self.old.channel }
        ensures nothing_done { MayHaveFed self.new 1 self.old.rows [] [] }
    {
        self.begin_ring(1);
    }

    /// Opens `passes` passes, 1 to 1,000,000, one after another. A row that came back can be put
    /// again at once, until all rows of all passes were put.
    pub fn begin_ring(&mut self, passes: u64)
        requires closed { self.old.to_take ≡ 0 }
        requires some { 1 ≤ passes }
        requires few { passes ≤ 1000000 }
        ensures channel { self.new.channel ≡ self.old.channel }
        ensures nothing_done { MayHaveFed self.new passes self.old.rows [] [] }
        ensures no_spares { self.new.spares ≡ 0 }
    {
        let total = passes * u64::from(self.channel.size().height());
        self.to_put = total;
        self.to_take = total;
        self.next = 0;
    }

    /// Whether no pass is open.
    pub fn is_closed(&self) -> bool
        ensures closed { IsTrue result ↔ self.now.to_take ≡ 0 }
    {
        self.to_take == 0
    }

    /// The number of rows that it took of the lattice under way or, if no pass is open, of the last
    /// one.
    pub fn taken(&self) -> u32
        ensures value { (rows gave took : List RowModel) → MayHaveFed self.now 1 rows gave took →
            result ≡ length took }
        ensures few { result ≤ 65536 }
    {
        if self.to_take == 0 {
            self.channel.size().height()
        } else {
            self.next
        }
    }

    // Puts the next row, if one is left to put and the end takes it.
    fn put_next<P: PutEnd<Row<G>>>(&mut self, put: &mut P) -> bool
        ensures put { IsTrue result → (row : RowModel) × (self.old
            ≡ record self.new { rows = row ∷ self.new.rows; to_put = self.new.to_put + 1; spares = self.old.spares })
            × (spare : Option RowModel) × Sends P.puts P.lends put.old row spare put.new
            × Keeps self.old.channel.width self.old.spares spare self.new.spares }
        ensures unchanged { IsFalse result → (put.new ≡ put.old) × (self.new ≡ self.old) }
        ensures ready { IsFalse result → 0 < self.old.to_put → 0 < length self.old.rows →
            P.ready put.old → ⊥ }
    {
        if self.to_put == 0 {
            return false;
        }
        let Some(row) = self.rows.pop_front() else {
            return false;
        };
        match put.try_put(row) {
            Ok(()) => {
                self.to_put -= 1;
                keep_spare(&mut self.spares, put.spare(), self.channel.size().width());
                true
            }
            Err(row) => {
                self.rows.push_front_reserved(row);
                false
            }
        }
    }

    // Takes the next row of the lattice, with its solid cells empty. Returns one of the rows that it
    // keeps for reuse.
    fn accept(&mut self, mut row: Row<G>) -> Option<Row<G>>
        requires owed { self.old.to_put < self.old.to_take }
        requires no_stray { self.old.stray ≡ false }
        requires wide { length row ≡ self.old.channel.width }
        ensures channel { self.new.channel ≡ self.old.channel }
        ensures rows { self.new.rows ≡ self.old.rows
            ++ emptied_row self.old.channel self.old.next row ∷ [] }
        ensures to_put { self.new.to_put ≡ self.old.to_put }
        ensures to_take { self.new.to_take + 1 ≡ self.old.to_take }
        ensures next { self.new.next ≡ (self.old.next + 1) % self.old.channel.height }
        ensures stray { self.new.stray ≡ self.old.stray }
        ensures given { Gives self.old.channel.width self.old.spares result self.new.spares }
        ensures given_if_kept { 0 < self.old.spares → self.new.spares < self.old.spares }
        ensures whole { self.new.to_take ≡ 0 → IsLattice G.rules self.new.channel self.new.rows }
    {
        empty_solid(&self.channel, self.next, &mut row);
        self.next = (self.next + 1) % self.channel.size().height();
        self.to_take -= 1;
        self.rows.push_back_reserved(row);
        self.spares.pop()
    }

    /// Makes at most one event: a put of the next row or, if none is left to put or the end hands
    /// it back, a take. It takes only if fewer rows were taken than put. Returns Done if no pass is
    /// open. A taken row of another width than the channel's is dropped. Then this turn and all
    /// later ones return Stray.
    #[tactic(auto, using(crate::proofs::Feeds::feeds))]
    pub fn turn<P: PutEnd<Row<G>>, T: TakeEnd<Row<G>>>(
        &mut self,
        put: &mut P,
        take: &mut T,
    ) -> Turned
        ensures channel { self.new.channel ≡ self.old.channel }
        ensures turned { FeederTurned self.old self.new
            (λ row. (spare : Option RowModel) × Sends P.puts P.lends put.old row spare put.new
            × Keeps self.old.channel.width self.old.spares spare self.new.spares)
            (put.new ≡ put.old) (P.ready put.old)
            (λ row. (spare : Option RowModel) × Takes T.takes T.gets take.old row spare take.new
            × Gives self.old.channel.width self.old.spares spare self.new.spares)
            (take.new ≡ take.old) (T.ready take.old) result }
        ensures never_ahead { result ≡ Turned.Took → (passes : ℕ) (rows gave took : List RowModel) →
            MayHaveFed self.old passes rows gave took → length took < length gave }
        ensures done_if { self.old.to_take ≡ 0 → result ≡ Turned.Done }
        ensures stray_ever { self.old.stray ≡ true → result ≡ Turned.Stray }
        ensures whole { self.new.to_take ≡ 0 → IsLattice G.rules self.new.channel self.new.rows }
    {
        if self.stray {
            return Turned::Stray;
        }
        if self.to_take == 0 {
            return Turned::Done;
        }
        if self.put_next(put) {
            return Turned::Put;
        }
        if self.to_take == self.to_put {
            return Turned::Idle;
        }
        let Some(row) = take.try_take() else {
            return Turned::Idle;
        };
        if row.width() != self.channel.size().width() {
            self.stray = true;
            return Turned::Stray;
        }
        let spare = self.accept(row);
        give_spare(spare, take);
        Turned::Took
    }

    /// The lattice of its rows, once no pass is open.
    pub fn finish(self) -> Lattice<G>
        requires closed { self.to_take ≡ 0 }
        ensures channel { result.channel ≡ self.channel }
        ensures rows { result.rows ≡ self.rows }
    {
        Lattice::from_rows(self.channel, Vec::from(self.rows))
    }
}

/// What a feeder put is the beginning of one list: the rows that it began with, and then the rows
/// that it took, solid cells emptied. It puts at most the height of the lattice times the number of
/// passes. Once the passes are closed it has put and taken exactly that number. Its rows are then
/// the last that it took, one for each row of the lattice, solid cells emptied.
pub fn a_feeder_in_order()
    ensures prefix { (f : FeederModel) (passes : ℕ) (rows gave took : List RowModel) →
        MayHaveFed f passes rows gave took →
        IsPrefix gave (rows ++ emptied_from f.channel 0 took) }
    ensures few { (f : FeederModel) (passes : ℕ) (rows gave took : List RowModel) →
        MayHaveFed f passes rows gave took →
        length gave ≤ passes * f.channel.height }
    ensures put_all { (f : FeederModel) (passes : ℕ) (rows gave took : List RowModel) →
        MayHaveFed f passes rows gave took →
        f.to_take ≡ 0 → length gave ≡ passes * f.channel.height }
    ensures taken_all { (f : FeederModel) (passes : ℕ) (rows gave took : List RowModel) →
        MayHaveFed f passes rows gave took →
        f.to_take ≡ 0 → length took ≡ passes * f.channel.height }
    ensures holds { (f : FeederModel) (n : ℕ) (rows gave took : List RowModel) →
        MayHaveFed f (n + 1) rows gave took →
        length rows ≡ f.channel.height → f.to_take ≡ 0 →
        f.rows ≡ emptied_from f.channel 0 (drop (n * f.channel.height) took) }
{}
