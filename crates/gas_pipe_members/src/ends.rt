//! The two ends of a belt, and how spare rows go from one end to another.
ghost use Rattle.std.specs.Prelude.{◌≡◌, ◌++◌, ◌∷◌, ◌+◌, ◌-◌, ◌<◌, ◌≤◌, [], Option, Some, None, length, vec_len, vec_capacity, min, All, OnOk, IfErr, IfSome, IfNone, OnErr, IsOk, IsSome};
ghost use Rattle.gas_pipe_members.specs.Ends.{MayGet};
ghost use Rattle.gas_pipe_members.specs.Feeder.{Keeps};

use gas_belt::rx::Rx;
use gas_belt::tx::Tx;
use gas_geom::gas::Gas;
use gas_rows::row::Row;

/// An end that rows are put on.
pub trait PutEnd<T> {
    /// The step by which a row is put.
    ghost puts: { Self → T → Self → Type 0 };

    /// A try to put succeeds.
    ghost ready: { Self → Type 0 };

    /// The end hands out that row for reuse, or none. It is no step.
    ghost lends: { Self → Option T → Self → Type 0 };

    /// Puts a row, or hands it back.
    fn try_put(&mut self, row: T) -> Result<(), T>
        ensures put { OnOk result (puts self.old row self.new) }
        ensures back { IfErr result (λ r. r ≡ row) }
        ensures unchanged { OnErr result (self.new ≡ self.old) }
        ensures ready { ready self.old → IsOk result };

    /// After a put, a row for reuse, if the end has one.
    fn spare(&mut self) -> Option<T>
        ensures lends { lends self.old result self.new };
}

/// An end that rows are taken from.
pub trait TakeEnd<T> {
    /// The step by which a row is taken.
    ghost takes: { Self → T → Self → Type 0 };

    /// A try to take succeeds.
    ghost ready: { Self → Type 0 };

    /// The end was given a row for reuse. It is no step.
    ghost gets: { Self → T → Self → Type 0 };

    /// Takes the next row, if one came.
    fn try_take(&mut self) -> Option<T>
        ensures take { IfSome result (λ row. takes self.old row self.new) }
        ensures unchanged { IfNone result (self.new ≡ self.old) }
        ensures ready { ready self.old → IsSome result };

    /// Lets the end reuse a row for one that it hands out later.
    fn give(&mut self, row: T)
        ensures gets { gets self.old row self.new };
}

// The ends of a belt between threads. Whether a try succeeds depends on the other thread, so neither
// is known to be ready.
impl<G: Gas> PutEnd<Row<G>> for Tx<G> {
    ghost puts = { λ old row new.
        (new ≡ record old { put = old.put ++ row ∷ []; spare = Some row })
        × (length row ≡ old.belt.width) };

    ghost ready = { λ _. ⊥ };

    ghost lends = { λ old spare new. (spare ≡ old.spare) × (new ≡ record old { spare = None }) };

    #[inline(always)]
    fn try_put(&mut self, row: Row<G>) -> Result<(), Row<G>> {
        Tx::try_put(self, row)
    }

    fn spare(&mut self) -> Option<Row<G>> {
        Tx::spare(self)
    }
}

impl<G: Gas> TakeEnd<Row<G>> for Rx<G> {
    ghost takes = { λ old row new.
        (new ≡ record old { taken = old.taken ++ row ∷ []; held = old.held - 1 })
        × (length row ≡ old.belt.width) };

    ghost ready = { λ _. ⊥ };

    ghost gets = { λ old row new. (new ≡ record old { held = new.held })
        × (length row ≡ old.belt.width → new.held ≡ min old.most (old.held + 1)) };

    #[inline(always)]
    fn try_take(&mut self) -> Option<Row<G>> {
        Rx::try_take(self)
    }

    fn give(&mut self, row: Row<G>) {
        Rx::give(self, row);
    }
}

/// What a turn of a member of the line did.
#[derive(Clone, Copy, Debug, PartialEq, Eq)]
pub enum Turned {
    /// A row was taken.
    Took,
    /// A row was put.
    Put,
    /// No end that was tried was ready.
    Idle,
    /// No pass is open, or the turn closed it.
    Done,
    /// A row of another width than the channel's came, now or before.
    Stray,
}

/// Keeps a row for reuse, if it has that width.
pub(crate) fn keep_spare<G: Gas>(spares: &mut Vec<Row<G>>, spare: Option<Row<G>>, width: u32)
    requires room { vec_len spares.old < vec_capacity spares.old }
    requires wide { All (λ row. length row ≡ width) spares.old.items }
    ensures wide { All (λ row. length row ≡ width) spares.new.items }
    ensures kept { Keeps width (vec_len spares.old) spare (vec_len spares.new) }
    ensures few { vec_len spares.new ≤ vec_len spares.old + 1 }
    ensures capacity { vec_capacity spares.new ≡ vec_capacity spares.old }
{
    if let Some(row) = spare {
        if row.width() == width {
            spares.push_reserved(row);
        }
    }
}

/// Gives a row for reuse to an end that rows are taken from, if there is one.
pub(crate) fn give_spare<R: Drop, T: TakeEnd<R>>(spare: Option<R>, take: &mut T)
    ensures { MayGet T.gets take.old spare take.new }
{
    if let Some(row) = spare {
        take.give(row);
    }
}
