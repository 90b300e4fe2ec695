//! Moves along one axis, and where they lead in a channel.

ghost use Rattle.std.specs.Prelude.{◌≡◌, ◌<◌, IfSome};
ghost use Rattle.gas_geom.specs.declared.moves.Move.{Move};
ghost use Rattle.gas_geom.specs.Moves.{amount, column_after, row_after};

use crate::gas::Gas;

/// A move by one along an axis, or none: eastwards along a row, downwards across the rows.
#[derive(Clone, Copy)]
pub enum Move {
    Back,
    Stay,
    On,
}

impl Move {
    ghost use Rattle.std.specs.Prelude.{◌≡◌};
    ghost use Rattle.gas_geom.specs.declared.moves.Move.{Move};
    ghost use Rattle.gas_geom.specs.Moves.{amount};

    /// The move by -1, 0 or 1.
    #[inline(always)]
    pub fn by(step: i32) -> Move
        ensures value { (m : Move) → step ≡ amount m → result ≡ m }
    {
        if step < 0 {
            Move::Back
        } else if step > 0 {
            Move::On
        } else {
            Move::Stay
        }
    }
}

/// The step in a direction from an even or an odd row: along the row, and across the rows.
#[inline(always)]
pub fn moves<G: Gas>(i: u32, odd: bool) -> (Move, Move)
    requires direction { i < G.rules.dirs }
    ensures along { result.0 ≡ (G.rules.step i odd).0 }
    ensures down { result.1 ≡ (G.rules.step i odd).1 }
{
    let (along, down) = G::step(i, odd);
    (Move::by(along), Move::by(down))
}

/// The column after a move along a row, which is periodic.
pub(crate) fn column_after(width: u32, x: u32, along: Move) -> u32
    requires column { x < width }
    ensures value { result ≡ column_after width x along }
{
    match along {
        Move::Back => if x == 0 { width - 1 } else { x - 1 },
        Move::Stay => x,
        Move::On => if x + 1 == width { 0 } else { x + 1 },
    }
}

/// The row after a move across the rows, or None past the top or bottom row.
#[inline(always)]
pub fn row_after(height: u32, y: u32, down: Move) -> Option<u32>
    requires row { y < height }
    ensures within { IfSome result (λ v. v < height) }
    ensures value { result ≡ row_after height y down }
{
    match down {
        Move::Back => if y == 0 { None } else { Some(y - 1) },
        Move::Stay => Some(y),
        Move::On => if y + 1 == height { None } else { Some(y + 1) },
    }
}
