//! Stages one behind another: they compute several generations in one pass, and keep two rows for
//! each.
ghost use Rattle.std.specs.Prelude.{◌≡◌, ◌+◌, ◌<◌, ◌≤◌, ◌^◌, ◌++◌, ◌∷◌, ℕ, [], List, length, map, take, drop, nat_lt, if◌then◌else◌, Option, Some, None, IsNone, IsSome, IfSome, IfOk, IsTrue, ◌↔◌};
ghost use Rattle.std.specs.List.{range_with_len};
ghost use Rattle.std.specs.Option.{option_to_list};
ghost use Rattle.gas_geom.specs.Channel.{ChannelModel};
ghost use Rattle.gas_rows.specs.declared.chirality.Chirality.{Chirality};
ghost use Rattle.gas_stage.specs.Stages.{StagesModel, MayAllHaveBeenFed, MayEachHaveBeenFed, passes_from, owed_by, given_by};
ghost use Rattle.gas_stage.specs.Inner.Passes.{kept, first_does};
ghost use Rattle.gas_stage.specs.Inner.Stages.{AreClosed, IsUnderWay};

use crate::stage::{BareStage, collide_if};
use gas_geom::gas::Gas;
use gas_rows::channel::Channel;
use gas_rows::chirality::{Chirality, RandomBits};
use gas_rows::row::Row;
use std::alloc::{AllocError, Global};
use std::marker::Model;

/// Stages of one channel, one behind another. In a pass the first is fed the rows of a lattice from
/// the top, and each later one the rows that the stage before it returns.
#[derive(Drop)]
pub struct Stages<'a, G: Gas> {
    stages: Vec<BareStage<'a, G>>,
    channel: &'a Channel,
    chirality: Chirality,
    // Those of the row that is fed. The bits of a stage are those of the row that it returns.
    entry_bits: RandomBits,
    // The stages write into it in turn. The row that one returns leaves another row here.
    scratch: Row<G>,
    flushed: usize,
    fed: u32,
}

impl<'a, G: Gas> Model for Stages<'a, G> {
    ghost use Rattle.std.specs.Prelude.{◌≡◌, ◌<◌, ◌≤◌, length};
    ghost use Rattle.gas_geom.specs.declared.size.TheConstants.{MOST_SIDE};
    ghost use Rattle.gas_stage.specs.Stages.{StagesModel};
    ghost use Rattle.gas_stage.specs.Inner.Stages.{AreClosed, IsUnderWay};

    ghost Value = { StagesModel };

    ghost view = { λ s. record {
      channel = s.channel.now;
      chirality = s.chirality;
      stages = s.stages.items;
      flushed = s.flushed;
      fed = s.fed;
    } };

    ghost invariant = { λ s. record {
      some : 0 < length s.stages.items;
      few : length s.stages.items ≤ 64;
      few_rows : s.channel.now.height ≤ MOST_SIDE;
      entry_bits_wide : length s.entry_bits.bits ≡ s.channel.now.width;
      entry_bits_alike : s.entry_bits.chirality ≡ s.chirality;
      scratch_wide : length s.scratch ≡ s.channel.now.width;
      fed_fits : s.fed ≤ s.channel.now.height;
      flushed_fits : s.flushed ≤ length s.stages.items;
      closed : s.flushed ≡ length s.stages.items → AreClosed s.channel.now s.chirality s.stages.items;
      under_way : s.flushed < length s.stages.items →
          IsUnderWay G.rules s.channel.now s.chirality s.flushed s.fed s.stages.items;
    } };
}

impl<'a, G: Gas> Stages<'a, G> {
    /// So many stages with no open pass. They take their memory here.
    pub fn new(
        alloc: Global,
        channel: &'a Channel,
        chirality: Chirality,
        count: u32,
    ) -> Result<Self, AllocError>
        requires some { 0 < count }
        requires few { count ≤ 64 }
        ensures channel { IfOk result (λ s. s.channel ≡ channel.now) }
        ensures chirality { IfOk result (λ s. s.chirality ≡ chirality) }
        ensures count { IfOk result (λ s. length s.stages ≡ count) }
        ensures closed { IfOk result (λ s. s.flushed ≡ length s.stages) }
    {
        let mut stages = Vec::with_capacity(alloc, count as usize)?;
        for _ in 0..count {
            stages.push(BareStage::new(alloc, channel, chirality)?)?;
        }
        let width = channel.size().width();
        Ok(Stages {
            flushed: stages.len(),
            stages,
            channel,
            chirality,
            entry_bits: RandomBits::new(alloc, chirality, width)?,
            scratch: Row::blank(alloc, width)?,
            fed: 0,
        })
    }

    /// Opens a pass. Its first `computing` stages compute the step from a generation each, counted
    /// on from `first`. The others hand rows on.
    pub fn begin(&mut self, first: u64, computing: u32)
        requires closed { self.old.flushed ≡ length self.old.stages }
        requires room { first + computing ≤ 2 ^ 64 }
        ensures channel { self.new.channel ≡ self.old.channel }
        ensures chirality { self.new.chirality ≡ self.old.chirality }
        ensures count { length self.new.stages ≡ length self.old.stages }
        ensures none_flushed { self.new.flushed ≡ 0 }
        ensures none_fed { self.new.fed ≡ 0 }
        ensures fits { MayAllHaveBeenFed G.rules self.new
            (passes_from first computing (length self.old.stages)) [] }
    {
        begin_from(&mut self.stages, 0, first, computing);
        self.flushed = 0;
        self.fed = 0;
    }

    /// Feeds the next row of the open pass to the first stage, and each row that a stage returns to
    /// the next. Returns what the last stage returns.
    #[inline(always)]
    pub fn feed(&mut self, mut row: Row<G>) -> Option<Row<G>>
        requires open { self.old.flushed < length self.old.stages }
        requires room { self.old.fed < self.old.channel.height }
        requires wide { length row ≡ self.old.channel.width }
        ensures channel { self.new.channel ≡ self.old.channel }
        ensures chirality { self.new.chirality ≡ self.old.chirality }
        ensures count { length self.new.stages ≡ length self.old.stages }
        ensures none_flushed { self.new.flushed ≡ 0 }
        ensures fed { self.new.fed ≡ self.old.fed + 1 }
        ensures wide { IfSome result (λ r. length r ≡ self.old.channel.width) }
        ensures fits { (es : List (Option ℕ)) (q : List (List ℕ)) →
            MayAllHaveBeenFed G.rules self.old es q →
            MayAllHaveBeenFed G.rules self.new es (q ++ row ∷ []) }
        ensures gives { (es : List (Option ℕ)) (q : List (List ℕ)) →
            MayAllHaveBeenFed G.rules self.old es q →
            given_by G.rules self.old.channel self.old.chirality 0 es (q ++ row ∷ [])
            ≡ given_by G.rules self.old.channel self.old.chirality 0 es q
            ++ option_to_list result }
    {
        let generation = generation_of(&self.stages, 0);
        collide_if(
            self.channel,
            &mut self.entry_bits,
            generation,
            self.fed,
            &mut row,
        );
        self.fed += 1;
        let mut row = Some(row);
        pass_from(&mut self.stages, 0, &mut row, &mut self.scratch);
        row
    }

    /// Flushes stage after stage, each into those behind it, until the last one returns a row. None
    /// says that all are flushed and no row is left. The flush of the last stage closes the pass,
    /// in which all rows were fed.
    pub fn flush(&mut self) -> Option<Row<G>>
        requires open { self.old.flushed < length self.old.stages }
        requires all { self.old.fed ≡ self.old.channel.height }
        ensures channel { self.new.channel ≡ self.old.channel }
        ensures chirality { self.new.chirality ≡ self.old.chirality }
        ensures count { length self.new.stages ≡ length self.old.stages }
        ensures fed { self.new.fed ≡ self.old.fed }
        ensures further { self.old.flushed < self.new.flushed }
        ensures flushed { self.new.flushed ≤ length self.new.stages }
        ensures closed { IsNone result → self.new.flushed ≡ length self.new.stages }
        ensures wide { IfSome result (λ r. length r ≡ self.old.channel.width) }
        ensures fits { (es : List (Option ℕ)) (q : List (List ℕ)) →
            MayAllHaveBeenFed G.rules self.old es q → MayAllHaveBeenFed G.rules self.new es q }
        ensures gives { (es : List (Option ℕ)) (q : List (List ℕ)) →
            MayAllHaveBeenFed G.rules self.old es q →
            given_by G.rules self.old.channel self.old.chirality self.new.flushed es q
            ≡ given_by G.rules self.old.channel self.old.chirality self.old.flushed es q
            ++ option_to_list result }
        ensures gives_all { self.new.flushed ≡ length self.new.stages →
            (es : List (Option ℕ)) (q : List (List ℕ)) →
            MayAllHaveBeenFed G.rules self.old es q →
            owed_by G.rules self.old.channel self.old.chirality es q
            ≡ given_by G.rules self.old.channel self.old.chirality self.old.flushed es q
            ++ option_to_list result }
    {
        for k in self.flushed..self.stages.len() {
            self.flushed = k + 1;
            let given = flush_stage(&mut self.stages, k, &mut self.scratch);
            if given.is_some() {
                return given;
            }
        }
        None
    }

    /// The number of rows fed in the open pass, or in the last.
    pub fn fed(&self) -> u32
        ensures value { result ≡ self.now.fed }
        ensures within { result ≤ self.now.channel.height }
        ensures few { result ≤ 65536 }
    {
        self.fed
    }

    /// Whether a pass is open.
    pub fn is_open(&self) -> bool
        ensures open { IsTrue result ↔ (self.now.flushed < length self.now.stages) }
        ensures closed { self.now.flushed ≤ length self.now.stages }
    {
        self.flushed < self.stages.len()
    }

    /// The number of stages.
    pub fn count(&self) -> u32
        ensures value { result ≡ length self.now.stages }
        ensures some { 0 < result }
        ensures few { result ≤ 64 }
    {
        self.stages.len() as u32
    }
}

// Opens a pass of stage `k` and of those behind it.
fn begin_from<G: Gas>(stages: &mut [BareStage<'_, G>], k: usize, first: u64, computing: u32)
    requires closed { (c : ChannelModel) × ((h : Chirality) × AreClosed c h (drop k stages.old)) }
    requires room { first + computing ≤ 2 ^ 64 }
    requires few { length stages.old ≤ 64 }
    ensures before { take k stages.new ≡ take k stages.old }
    ensures fits { (c : ChannelModel) (h : Chirality) → AreClosed c h (drop k stages.old) →
        MayEachHaveBeenFed G.rules c h 0 (drop k stages.new)
        (map (λ k. if nat_lt k computing then Some (first + k) else None)
        (range_with_len k (length (drop k stages.old)))) [] }
{
    if k < stages.len() {
        let computes = k < computing as usize;
        stages[k].begin(if computes {
            Some(first + k as u64)
        } else {
            None
        });
        begin_from(stages, k + 1, first, computing);
    }
}

// The generation from which stage `k` computes the step, if there is such a stage and it does.
fn generation_of<G: Gas>(stages: &[BareStage<'_, G>], k: usize) -> Option<u64>
    ensures { (c : ChannelModel) (h : Chirality) (es : List (Option ℕ)) (q : List (List ℕ)) →
        MayEachHaveBeenFed G.rules c h 0 (drop k stages.now) es q → result ≡ first_does es }
{
    if k < stages.len() {
        stages[k].generation()
    } else {
        None
    }
}

// Passes a row that is collided for stage `k` to it, and what each stage gives for it, collided for the
// next one, to the next. What the last one gives is not collided, and stands in the row's place then.
fn pass_from<G: Gas>(
    stages: &mut [BareStage<'_, G>],
    k: usize,
    row: &mut Option<Row<G>>,
    scratch: &mut Row<G>,
)
    requires fits { (c : ChannelModel) × ((h : Chirality) × ((n : ℕ) ×
        (IsUnderWay G.rules c h 0 n (drop k stages.old) × (n < c.height)
        × IfSome row.old (λ r. length r ≡ c.width) × (length scratch.old ≡ c.width)))) }
    requires some { IsSome row.old }
    ensures before { take k stages.new ≡ take k stages.old }
    ensures wide { (n : ℕ) → IfSome row.old (λ r. length r ≡ n) → IfSome row.new (λ r. length r ≡ n) }
    ensures scratch_wide { length scratch.new ≡ length scratch.old }
    ensures fits { (c : ChannelModel) (h : Chirality) (es : List (Option ℕ)) (q : List (List ℕ))
        (r : List ℕ) → MayEachHaveBeenFed G.rules c h 0 (drop k stages.old) es q →
        row.old ≡ Some (kept G.rules c h (first_does es) (length q) r) →
        MayEachHaveBeenFed G.rules c h 0 (drop k stages.new) es (q ++ r ∷ []) }
    ensures gives { (c : ChannelModel) (h : Chirality) (es : List (Option ℕ)) (q : List (List ℕ))
        (r : List ℕ) → MayEachHaveBeenFed G.rules c h 0 (drop k stages.old) es q →
        row.old ≡ Some (kept G.rules c h (first_does es) (length q) r) →
        given_by G.rules c h 0 es (q ++ r ∷ [])
        ≡ given_by G.rules c h 0 es q ++ option_to_list row.new }
{
    if k < stages.len() {
        let then = generation_of(stages, k + 1);
        stages[k].pass_on(row, then, scratch);
        if row.is_some() {
            pass_from(stages, k + 1, row, scratch);
        }
    }
}

// Flushes stage `k`, behind those that were flushed, into the ones behind it.
fn flush_stage<G: Gas>(
    stages: &mut [BareStage<'_, G>],
    k: usize,
    scratch: &mut Row<G>,
) -> Option<Row<G>>
    requires fits { (c : ChannelModel) × ((h : Chirality) ×
        (IsUnderWay G.rules c h k c.height stages.old × (length scratch.old ≡ c.width))) }
    requires stage { k < length stages.old }
    ensures wide { (c : ChannelModel) (h : Chirality) →
        IsUnderWay G.rules c h k c.height stages.old → IfSome result (λ r. length r ≡ c.width) }
    ensures scratch_wide { length scratch.new ≡ length scratch.old }
    ensures fits { (c : ChannelModel) (h : Chirality) (es : List (Option ℕ)) (q : List (List ℕ)) →
        MayEachHaveBeenFed G.rules c h k stages.old es q → length q ≡ c.height →
        MayEachHaveBeenFed G.rules c h (k + 1) stages.new es q }
    ensures gives { (c : ChannelModel) (h : Chirality) (es : List (Option ℕ)) (q : List (List ℕ)) →
        MayEachHaveBeenFed G.rules c h k stages.old es q → length q ≡ c.height →
        given_by G.rules c h (k + 1) es q
        ≡ given_by G.rules c h k es q ++ option_to_list result }
{
    let then = generation_of(stages, k + 1);
    let mut last = stages[k].end(then, scratch);
    if last.is_some() {
        pass_from(stages, k + 1, &mut last, scratch);
    }
    last
}
