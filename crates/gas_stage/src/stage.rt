//! A stage: it computes the step from one generation to the next row by row, and keeps three rows.
ghost use Rattle.std.specs.Prelude.{◌≡◌, ◌+◌, ◌<◌, ◌≤◌, ◌++◌, ◌∷◌, ℕ, [], List, length, Option, Some, None, IsSome, IfSome, IfOk, IsTrue, ◌↔◌};
ghost use Rattle.std.specs.Option.{option_to_list};
ghost use Rattle.gas_geom.specs.Channel.{IsChannel};
ghost use Rattle.gas_stage.specs.Stage.{StageModel, MayHaveBeenFed, owed, given};
ghost use Rattle.gas_stage.specs.Inner.Passes.{AreBitsOf, kept, Returned};

use crate::stream::stream_into;
use gas_geom::gas::Gas;
use gas_rows::channel::Channel;
use gas_rows::chirality::{Chirality, RandomBits};
use gas_rows::row::{Row, collide_row};
use std::alloc::{AllocError, Global};
use std::marker::Model;
use std::mem;

// What a stage does with the rows that it is fed.
#[derive(Clone, Copy)]
enum Mode {
    Closed,
    HandsOn,
    Computes(u64),
}

// Draws the random bits of row `y` for the step from a generation, if one is given.
#[inline(always)]
fn draw_if<G: Gas>(bits: &mut RandomBits, generation: Option<u64>, y: u32)
    ensures chirality { bits.new.chirality ≡ bits.old.chirality }
    ensures wide { length bits.new.bits ≡ length bits.old.bits }
    ensures drawn { (g : ℕ) → generation ≡ Some g → AreBitsOf G.rules bits.old.chirality
        (length bits.old.bits) g y bits.new.bits }
{
    if let Some(generation) = generation {
        bits.draw_for::<G>(generation, y);
    }
}

/// Collides a row as row `y` in the step from a generation, if one is given.
#[inline(always)]
pub(crate) fn collide_if<G: Gas>(
    channel: &Channel,
    bits: &mut RandomBits,
    generation: Option<u64>,
    y: u32,
    row: &mut Row<G>,
)
    requires row { y < channel.now.height }
    requires wide { length row.old ≡ channel.now.width }
    requires bits_wide { length bits.old.bits ≡ channel.now.width }
    ensures chirality { bits.new.chirality ≡ bits.old.chirality }
    ensures bits_wide { length bits.new.bits ≡ length bits.old.bits }
    ensures wide { length row.new ≡ channel.now.width }
    ensures kept { row.new ≡ kept G.rules channel.now bits.old.chirality generation y row.old }
{
    if let Some(generation) = generation {
        bits.draw_for::<G>(generation, y);
        collide_row(row, channel.mask(y), bits.mask());
    }
}

/// A stage of one channel. In a pass it is fed the rows of a lattice from the top, and either
/// computes the next lattice's rows or passes the rows on. It keeps three rows, for any height.
#[derive(Drop)]
pub struct Stage<'a, G: Gas> {
    bare: BareStage<'a, G>,
    scratch: Row<G>,
}

impl<'a, G: Gas> Model for Stage<'a, G> {
    ghost use Rattle.std.specs.Prelude.{◌≡◌, length};
    ghost use Rattle.gas_stage.specs.Stage.{StageModel};

    ghost Value = { StageModel };

    ghost view = { λ s. s.bare };

    ghost invariant = { λ s. record {
      scratch_wide : length s.scratch ≡ s.bare.channel.width;
    } };
}

/// A stage without the row into which it writes the next row that it returns, so that many can share
/// this row.
#[derive(Drop)]
pub(crate) struct BareStage<'a, G: Gas> {
    channel: &'a Channel,
    mode: Mode,
    fed: u32,
    random_bits: RandomBits,
    // The last two rows fed, collided.
    before_last: Row<G>,
    last: Option<Row<G>>,
}

impl<'a, G: Gas> Model for BareStage<'a, G> {
    ghost use Rattle.std.specs.Prelude.{◌≡◌, ◌<◌, ◌≤◌, ℕ, [], length, unwrap_or, IsSome, None};
    ghost use Rattle.std.specs.Option.{ForSome};
    ghost use Rattle.gas_geom.specs.declared.size.TheConstants.{MOST_SIDE};
    ghost use Rattle.gas_stage.specs.Inner.Passes.{open_pass};
    ghost use Rattle.gas_stage.specs.Stage.{StageModel};
    ghost use Rattle.gas_stage.specs.declared.stage.Mode.TheVariants.{Closed, HandsOn, Computes};

    ghost Value = { StageModel };

    ghost view = { λ s. record {
      channel = s.channel.now;
      chirality = s.random_bits.chirality;
      pass = open_pass s.mode;
      fed = s.fed;
      before_last = s.before_last;
      last = unwrap_or s.last [];
    } };

    ghost invariant = { λ s. record {
      bits_wide : length s.random_bits.bits ≡ s.channel.now.width;
      before_last_wide : length s.before_last ≡ s.channel.now.width;
      last_wide : ForSome s.last (λ r. length r ≡ s.channel.now.width);
      few_rows : s.channel.now.height ≤ MOST_SIDE;
      fed_fits : s.fed ≤ s.channel.now.height;
      last_fed : IsSome s.last → 0 < s.fed;
      computes : (g : ℕ) → s.mode ≡ Computes g → 0 < s.fed → IsSome s.last;
      hands_on : s.mode ≡ HandsOn → s.last ≡ None;
      closed : s.mode ≡ Closed → s.last ≡ None;
      none_fed : s.mode ≡ Closed → s.fed ≡ 0;
    } };
}

impl<'a, G: Gas> Stage<'a, G> {
    /// A stage with no open pass. It takes its memory here: two rows and the random bits of a
    /// row.
    pub fn new(
        alloc: Global,
        channel: &'a Channel,
        chirality: Chirality,
    ) -> Result<Self, AllocError>
        ensures channel { IfOk result (λ s. s.channel ≡ channel.now) }
        ensures chirality { IfOk result (λ s. s.chirality ≡ chirality) }
        ensures closed { IfOk result (λ s. s.pass ≡ None) }
        ensures whole { IsChannel channel.now }
    {
        Ok(Stage {
            bare: BareStage::new(alloc, channel, chirality)?,
            scratch: Row::blank(alloc, channel.size().width())?,
        })
    }

    /// Opens a pass that computes the step from a generation or, with None, one that hands rows on.
    pub fn begin(&mut self, generation: Option<u64>)
        requires closed { self.old.pass ≡ None }
        ensures opened { self.new ≡ record self.old { pass = Some generation } }
        ensures fits { MayHaveBeenFed G.rules self.new generation [] }
    {
        self.bare.begin(generation);
    }

    /// Takes the next row of the open pass. A computing pass returns None for the first row, and
    /// then the next lattice's row before the one fed. It takes solid cells of a row as empty. A
    /// pass that hands rows on returns the row itself.
    #[inline(always)]
    pub fn feed(&mut self, mut row: Row<G>) -> Option<Row<G>>
        requires open { IsSome self.old.pass }
        requires room { self.old.fed < self.old.channel.height }
        requires wide { length row ≡ self.old.channel.width }
        ensures channel { self.new.channel ≡ self.old.channel }
        ensures chirality { self.new.chirality ≡ self.old.chirality }
        ensures pass { self.new.pass ≡ self.old.pass }
        ensures fed { self.new.fed ≡ self.old.fed + 1 }
        ensures passes_on { self.old.pass ≡ Some None → result ≡ Some row }
        ensures wide { IfSome result (λ r. length r ≡ self.old.channel.width) }
        ensures fits { (p : Option ℕ) (q : List (List ℕ)) → MayHaveBeenFed G.rules self.old p q →
            MayHaveBeenFed G.rules self.new p (q ++ row ∷ []) }
        ensures gives { (p : Option ℕ) (q : List (List ℕ)) → MayHaveBeenFed G.rules self.old p q →
            given G.rules self.old.channel self.old.chirality p (q ++ row ∷ [])
            ≡ given G.rules self.old.channel self.old.chirality p q ++ option_to_list result }
    {
        self.bare.collide(&mut row);
        let mut row = Some(row);
        self.bare.pass_on(&mut row, None, &mut self.scratch);
        row
    }

    /// Closes the open pass, in which all rows were fed. A computing pass returns the last row of
    /// the next lattice, and another one None.
    pub fn flush(&mut self) -> Option<Row<G>>
        requires open { IsSome self.old.pass }
        requires all { self.old.fed ≡ self.old.channel.height }
        ensures channel { self.new.channel ≡ self.old.channel }
        ensures chirality { self.new.chirality ≡ self.old.chirality }
        ensures closed { self.new.pass ≡ None }
        ensures none_fed { self.new.fed ≡ 0 }
        ensures passes_on { self.old.pass ≡ Some None → result ≡ None }
        ensures wide { IfSome result (λ r. length r ≡ self.old.channel.width) }
        ensures gives_all { (p : Option ℕ) (q : List (List ℕ)) → MayHaveBeenFed G.rules self.old p q →
            owed G.rules self.old.channel self.old.chirality p q
            ≡ given G.rules self.old.channel self.old.chirality p q ++ option_to_list result }
    {
        self.bare.end(None, &mut self.scratch)
    }

    /// The number of rows fed in the open pass, 0 if none is open.
    pub fn fed(&self) -> u32
        ensures value { result ≡ self.now.fed }
        ensures within { result ≤ self.now.channel.height }
        ensures closed { self.now.pass ≡ None → result ≡ 0 }
    {
        self.bare.fed
    }

    /// Whether a pass is open.
    pub fn is_open(&self) -> bool
        ensures open { IsTrue result ↔ IsSome self.now.pass }
    {
        !matches!(self.bare.mode, Mode::Closed)
    }
}

impl<'a, G: Gas> BareStage<'a, G> {
    // With no open pass.
    pub(crate) fn new(
        alloc: Global,
        channel: &'a Channel,
        chirality: Chirality,
    ) -> Result<Self, AllocError>
        ensures channel { IfOk result (λ s. s.channel ≡ channel.now) }
        ensures chirality { IfOk result (λ s. s.chirality ≡ chirality) }
        ensures closed { IfOk result (λ s. s.pass ≡ None) }
        ensures whole { IsChannel channel.now }
    {
        let width = channel.size().width();
        Ok(BareStage {
            channel,
            mode: Mode::Closed,
            fed: 0,
            random_bits: RandomBits::new(alloc, chirality, width)?,
            before_last: Row::blank(alloc, width)?,
            last: None,
        })
    }

    // Opens a pass, as `Stage::begin` does.
    pub(crate) fn begin(&mut self, generation: Option<u64>)
        requires closed { self.old.pass ≡ None }
        ensures opened { self.new ≡ record self.old { pass = Some generation } }
        ensures fits { MayHaveBeenFed G.rules self.new generation [] }
    {
        self.mode = match generation {
            Some(generation) => Mode::Computes(generation),
            None => Mode::HandsOn,
        };
    }

    // Collides the row that is fed next, if the stage computes.
    #[inline(always)]
    fn collide(&mut self, row: &mut Row<G>)
        requires room { self.old.fed < self.old.channel.height }
        requires wide { length row.old ≡ self.old.channel.width }
        ensures same { self.new ≡ self.old }
        ensures wide { length row.new ≡ self.old.channel.width }
        ensures kept { (p : Option ℕ) → self.old.pass ≡ Some p → row.new
            ≡ kept G.rules self.old.channel self.old.chirality p self.old.fed row.old }
    {
        let generation = self.generation();
        collide_if(
            self.channel,
            &mut self.random_bits,
            generation,
            self.fed,
            row,
        );
    }

    /// The generation from which it computes the step in the open pass, if it does.
    #[inline(always)]
    pub(crate) fn generation(&self) -> Option<u64>
        ensures { (p : Option ℕ) → self.now.pass ≡ Some p → result ≡ p }
    {
        match self.mode {
            Mode::Computes(generation) => Some(generation),
            _ => None,
        }
    }

    /// Takes the next row of the open pass, collided if the stage computes, and leaves what `feed`
    /// returns in its place, collided for the step from a later generation if one is given.
    #[inline(always)]
    pub(crate) fn pass_on(
        &mut self,
        row: &mut Option<Row<G>>,
        then: Option<u64>,
        scratch: &mut Row<G>,
    )
        requires open { IsSome self.old.pass }
        requires room { self.old.fed < self.old.channel.height }
        requires some { IsSome row.old }
        requires wide { IfSome row.old (λ r. length r ≡ self.old.channel.width) }
        requires scratch_wide { length scratch.old ≡ self.old.channel.width }
        ensures scratch_wide { length scratch.new ≡ length scratch.old }
        ensures channel { self.new.channel ≡ self.old.channel }
        ensures chirality { self.new.chirality ≡ self.old.chirality }
        ensures pass { self.new.pass ≡ self.old.pass }
        ensures fed { self.new.fed ≡ self.old.fed + 1 }
        ensures passes_on { self.old.pass ≡ Some None → then ≡ None → row.new ≡ row.old }
        ensures wide { IfSome row.new (λ r. length r ≡ self.old.channel.width) }
        ensures fits { (p : Option ℕ) (q : List (List ℕ)) (r : List ℕ) →
            MayHaveBeenFed G.rules self.old p q →
            row.old ≡ Some (kept G.rules self.old.channel self.old.chirality p (length q) r) →
            MayHaveBeenFed G.rules self.new p (q ++ r ∷ []) }
        ensures gives { (p : Option ℕ) (q : List (List ℕ)) (r : List ℕ) →
            MayHaveBeenFed G.rules self.old p q →
            row.old ≡ Some (kept G.rules self.old.channel self.old.chirality p (length q) r) →
            Returned G.rules self.old.channel self.old.chirality then
            (given G.rules self.old.channel self.old.chirality p q)
            (given G.rules self.old.channel self.old.chirality p (q ++ r ∷ [])) row.new }
    {
        let y = self.fed;
        self.fed += 1;
        let Some(passed) = row else { unreachable!() };
        let Mode::Computes(_) = self.mode else {
            collide_if(self.channel, &mut self.random_bits, then, y, passed);
            return;
        };
        let Some(last) = &mut self.last else {
            self.last = row.take();
            return;
        };
        draw_if::<G>(&mut self.random_bits, then, y - 1);
        stream_into(
            self.channel,
            y - 1,
            &self.before_last,
            last,
            passed,
            self.random_bits.mask(),
            then.is_some(),
            scratch,
        );
        mem::swap(passed, last);
        mem::swap(passed, &mut self.before_last);
        mem::swap(passed, scratch);
    }

    /// Closes the open pass as `flush` does, and returns the same row, collided for the step from a
    /// later generation if one is given.
    pub(crate) fn end(&mut self, then: Option<u64>, scratch: &mut Row<G>) -> Option<Row<G>>
        requires open { IsSome self.old.pass }
        requires all { self.old.fed ≡ self.old.channel.height }
        requires scratch_wide { length scratch.old ≡ self.old.channel.width }
        ensures scratch_wide { length scratch.new ≡ length scratch.old }
        ensures channel { self.new.channel ≡ self.old.channel }
        ensures chirality { self.new.chirality ≡ self.old.chirality }
        ensures closed { self.new.pass ≡ None }
        ensures none_fed { self.new.fed ≡ 0 }
        ensures passes_on { self.old.pass ≡ Some None → result ≡ None }
        ensures wide { IfSome result (λ r. length r ≡ self.old.channel.width) }
        ensures gives_all { (p : Option ℕ) (q : List (List ℕ)) → MayHaveBeenFed G.rules self.old p q →
            Returned G.rules self.old.channel self.old.chirality then
            (given G.rules self.old.channel self.old.chirality p q)
            (owed G.rules self.old.channel self.old.chirality p q) result }
    {
        let y = self.fed;
        self.fed = 0;
        self.mode = Mode::Closed;
        let last = self.last.take()?;
        draw_if::<G>(&mut self.random_bits, then, y - 1);
        // Below the bottom row no row is read.
        stream_into(
            self.channel,
            y - 1,
            &self.before_last,
            &last,
            &last,
            self.random_bits.mask(),
            then.is_some(),
            scratch,
        );
        Some(mem::replace(scratch, last))
    }
}
