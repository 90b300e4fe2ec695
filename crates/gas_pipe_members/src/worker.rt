//! A worker of the line, over any two ends.
ghost use Rattle.std.specs.Prelude.{◌≡◌, ◌<◌, ◌≤◌, ◌+◌, ◌-◌, ◌^◌, ◌++◌, ◌∷◌, ℕ, [], List, Option, None, Some, replicate, IfOk, IfSome, IsNone, IsSome, IsTrue, IsFalse, true, false, length};
ghost use Rattle.std.specs.Option.{option_to_list};
ghost use Rattle.gas_geom.specs.Gas.{Rules};
ghost use Rattle.gas_rows.specs.Row.{RowModel};
ghost use mathlib.Core.List.{IsPrefix};
ghost use Rattle.gas_stage.specs.Stages.{passes_from};
ghost use Rattle.gas_pipe_members.specs.Ends.{MayGet, Sends};
ghost use Rattle.gas_pipe_members.specs.Worker.{WorkerModel, SameWorker, IsClosed, MayHaveDone, Does, WorkerTurned, owes, HasDoneAll, HasMoreToTake};

use crate::ends::{PutEnd, TakeEnd, Turned, give_spare};
use gas_geom::gas::Gas;
use gas_rows::channel::Channel;
use gas_rows::chirality::Chirality;
use gas_rows::row::Row;
use gas_stage::stages::Stages;
use std::alloc::{AllocError, Global};
use std::marker::Model;

/// A worker of the line. In each of its passes it takes the rows of a lattice from the top, and
/// puts the rows that its stages return for them.
#[derive(Drop)]
pub struct Worker<'a, G: Gas> {
    stages: Stages<'a, G>,
    channel: &'a Channel,
    waiting: Option<Row<G>>,
    stray: bool,
}

impl<'a, G: Gas> Model for Worker<'a, G> {
    ghost use Rattle.std.specs.Prelude.{◌≡◌, ◌<◌, true, length, IfSome};
    ghost use Rattle.gas_pipe_members.specs.Worker.{WorkerModel};

    ghost Value = { WorkerModel };

    ghost view = { λ w. record { stages = w.stages; waiting = w.waiting; stray = w.stray } };

    ghost invariant = { λ w. record {
      same : w.channel.now ≡ w.stages.channel;
      some : 0 < length w.stages.stages;
      stray_in_pass : w.stray ≡ true → w.stages.flushed < length w.stages.stages;
      wide : IfSome w.waiting (λ row. length row ≡ w.channel.now.width);
    } };
}

impl<'a, G: Gas> Worker<'a, G> {
    /// A worker of one stage with no open pass. It takes its memory here.
    pub fn new(
        alloc: Global,
        channel: &'a Channel,
        chirality: Chirality,
    ) -> Result<Self, AllocError>
        ensures channel { IfOk result (λ w. w.stages.channel ≡ channel.now) }
        ensures chirality { IfOk result (λ w. w.stages.chirality ≡ chirality) }
        ensures one { IfOk result (λ w. length w.stages.stages ≡ 1) }
        ensures closed { IfOk result (λ w. IsClosed w) }
    {
        Worker::with_stages(alloc, channel, chirality, 1)
    }

    /// A worker of 1 to 64 stages with no open pass. It takes its memory here. Each stage keeps a row
    /// of those that are taken until the end of a pass.
    pub fn with_stages(
        alloc: Global,
        channel: &'a Channel,
        chirality: Chirality,
        count: u32,
    ) -> Result<Self, AllocError>
        requires some { 0 < count }
        requires few { count ≤ 64 }
        ensures channel { IfOk result (λ w. w.stages.channel ≡ channel.now) }
        ensures chirality { IfOk result (λ w. w.stages.chirality ≡ chirality) }
        ensures count { IfOk result (λ w. length w.stages.stages ≡ count) }
        ensures closed { IfOk result (λ w. IsClosed w) }
    {
        Ok(Worker {
            stages: Stages::new(alloc, channel, chirality, count)?,
            channel,
            waiting: None,
            stray: false,
        })
    }

    /// Opens a pass in which the first stage computes the step from a generation. With None it hands
    /// rows on unchanged, as any other stage does.
    pub fn begin(&mut self, generation: Option<u64>)
        requires closed { IsClosed self.old }
        ensures same { SameWorker self.old self.new }
        ensures nothing_done { MayHaveDone G.rules self.new
            (generation ∷ replicate (length self.old.stages.stages - 1) None) [] [] }
    {
        match generation {
            Some(generation) => self.stages.begin(generation, 1),
            None => self.stages.begin(0, 0),
        }
    }

    /// Opens a pass in which the first `computing` stages compute the step from a generation each,
    /// counted on from `first`. The others hand rows on unchanged.
    pub fn begin_stages(&mut self, first: u64, computing: u32)
        requires closed { IsClosed self.old }
        requires room { first + computing ≤ 2 ^ 64 }
        ensures same { SameWorker self.old self.new }
        ensures nothing_done { MayHaveDone G.rules self.new
            (passes_from first computing (length self.old.stages.stages)) [] [] }
    {
        self.stages.begin(first, computing);
    }

    /// The number of rows that it took in its pass, or in the pass that it closed last.
    pub fn taken(&self) -> u32
        ensures value { (es : List (Option ℕ)) (took gave : List RowModel) →
            MayHaveDone G.rules self.now es took gave → result ≡ length took }
        ensures few { result ≤ 65536 }
    {
        self.stages.fed()
    }

    // The row that it must put next: the row that waits or, if all rows of the pass were taken, the
    // next that its stages return when flushed. The flush of the last stage closes their pass.
    #[inline(always)]
    fn next_row(&mut self) -> Option<Row<G>>
        requires no_stray { self.old.stray ≡ false }
        ensures same { SameWorker self.old self.new }
        ensures no_stray { self.new.stray ≡ false }
        ensures none_waits { self.new.waiting ≡ None }
        ensures wide { IfSome result (λ row. length row ≡ self.old.stages.channel.width) }
        ensures put { IfSome result (λ row.
            Does G.rules self.old (λ l. l) (λ l. l ++ row ∷ []) self.new) }
        ensures waits { IfSome result (λ row.
            Does G.rules self.old (λ l. l) (λ l. l) (record self.new { waiting = Some row })) }
        ensures owing { IsSome result → (es : List (Option ℕ)) (took gave : List RowModel) →
            MayHaveDone G.rules self.old es took gave → gave ≡ owes G.rules self.old es took → ⊥ }
        ensures none { IsNone result → Does G.rules self.old (λ l. l) (λ l. l) self.new }
        ensures done_all { IsNone result →
            self.new.stages.flushed ≡ length self.new.stages.stages → HasDoneAll G.rules self.old }
        ensures more { IsNone result → self.new.stages.flushed < length self.new.stages.stages →
            (self.new ≡ self.old) × (self.new.stages.fed < self.new.stages.channel.height)
            × HasMoreToTake G.rules self.old }
        ensures closed { IsClosed self.old → IsNone result × (self.new ≡ self.old) }
    {
        if self.waiting.is_some() {
            return self.waiting.take();
        }
        if !self.stages.is_open() || self.stages.fed() < self.channel.size().height() {
            return None;
        }
        self.stages.flush()
    }

    // Tries to put a row. If it is handed back, it waits. The spare row of a put goes to the other
    // end. Returns whether the row was put.
    #[inline(always)]
    fn offer<T: TakeEnd<Row<G>>, P: PutEnd<Row<G>>>(
        &mut self,
        row: Row<G>,
        take: &mut T,
        put: &mut P,
    ) -> bool
        requires none { self.old.waiting ≡ None }
        requires wide { length row ≡ self.old.stages.channel.width }
        ensures put { IsTrue result → (self.new ≡ self.old) × (spare : Option RowModel)
            × Sends P.puts P.lends put.old row spare put.new
            × MayGet T.gets take.old spare take.new }
        ensures idle { IsFalse result → (put.new ≡ put.old) × (P.ready put.old → ⊥)
            × (take.new ≡ take.old) × (self.new ≡ record self.old { waiting = Some row }) }
    {
        match put.try_put(row) {
            Ok(()) => {
                give_spare(put.spare(), take);
                true
            }
            Err(row) => {
                self.waiting = Some(row);
                false
            }
        }
    }

    // Takes a row of the open pass. The row that its stages return for it is the next to put.
    #[inline(always)]
    fn accept(&mut self, row: Row<G>)
        requires none_waits { self.old.waiting ≡ None }
        requires open { self.old.stages.flushed < length self.old.stages.stages }
        requires room { self.old.stages.fed < self.old.stages.channel.height }
        requires wide { length row ≡ self.old.stages.channel.width }
        ensures same { SameWorker self.old self.new }
        ensures stray { self.new.stray ≡ self.old.stray }
        ensures took { Does G.rules self.old (λ l. l ++ row ∷ []) (λ l. l) self.new }
    {
        self.waiting = self.stages.feed(row);
    }

    /// Makes at most one event: a put of the next row that it owes or, if it has put all of them, a
    /// take. Returns Done if no pass is open, or if all rows of the pass were taken and put before.
    /// A taken row of another width than the channel's is dropped. Then this turn and all later
    /// ones return Stray.
    #[inline(always)]
    pub fn turn<T: TakeEnd<Row<G>>, P: PutEnd<Row<G>>>(
        &mut self,
        take: &mut T,
        put: &mut P,
    ) -> Turned
        ensures same { SameWorker self.old self.new }
        ensures turned { WorkerTurned G.rules self.old self.new
            (λ row. T.takes take.old row take.new) (take.new ≡ take.old) (T.ready take.old)
            (λ row spare. Sends P.puts P.lends put.old row spare put.new
            × MayGet T.gets take.old spare take.new)
            (put.new ≡ put.old) (P.ready put.old) result }
        ensures done_if_closed { IsClosed self.old → result ≡ Turned.Done }
        ensures done_if_all { (es : List (Option ℕ)) (took gave : List RowModel) →
            MayHaveDone G.rules self.old es took gave →
            length took ≡ self.old.stages.channel.height → gave ≡ owes G.rules self.old es took →
            result ≡ Turned.Done }
        ensures stray_ever { self.old.stray ≡ true → result ≡ Turned.Stray }
    {
        if self.stray {
            return Turned::Stray;
        }
        if let Some(row) = self.next_row() {
            let is_put = self.offer(row, take, put);
            return if is_put { Turned::Put } else { Turned::Idle };
        }
        if !self.stages.is_open() {
            return Turned::Done;
        }
        let Some(row) = take.try_take() else {
            return Turned::Idle;
        };
        if row.width() != self.channel.size().width() {
            self.stray = true;
            return Turned::Stray;
        }
        self.accept(row);
        Turned::Took
    }
}

/// What a worker put in its pass is the beginning of what it owes for the rows that it took. It
/// takes at most as many rows as the lattice has. It puts as many rows as it took, less at most one
/// for each stage and one that waits. A pass is closed only if all rows were taken, and all rows
/// that are owed for them were put.
pub fn a_pass_in_order()
    ensures prefix { (gas : Rules) (w : WorkerModel) (es : List (Option ℕ)) (took gave : List RowModel) →
        MayHaveDone gas w es took gave → IsPrefix gave (owes gas w es took) }
    ensures few { (gas : Rules) (w : WorkerModel) (es : List (Option ℕ)) (took gave : List RowModel) →
        MayHaveDone gas w es took gave → length took ≤ w.stages.channel.height }
    ensures kept { (gas : Rules) (w : WorkerModel) (es : List (Option ℕ)) (took gave : List RowModel) →
        MayHaveDone gas w es took gave →
        length took ≤ length gave + length (option_to_list w.waiting) + length w.stages.stages }
    ensures closed { (gas : Rules) (w : WorkerModel) → IsClosed w → HasDoneAll gas w }
{}
