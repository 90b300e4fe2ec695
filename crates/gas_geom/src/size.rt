//! The size of a channel, and the neighbour of a cell.

ghost use Rattle.std.specs.Prelude.{◌≡◌, ◌<◌, ◌≤◌, ◌^◌, ◌↔◌, ℕ, IsSome, IfSome};
ghost use Rattle.gas_geom.specs.Gas.{neighbour_of};
ghost use Rattle.gas_geom.specs.Size.{SizeModel, IsSize};

use crate::gas::Gas;
use crate::moves::{column_after, moves, row_after};
use std::marker::Model;

/// The most columns of a channel, and the most rows.
pub const MOST_SIDE: u32 = 65536;

/// The width and the height of a channel in cells, each 1 to 65536.
#[derive(Clone, Copy)]
pub struct Size {
    width: u32,
    height: u32,
}

impl Model for Size {
    ghost use Rattle.std.specs.Prelude.{◌≤◌};
    ghost use Rattle.gas_geom.specs.Size.{SizeModel, IsSize};

    ghost Value = { SizeModel };

    ghost view = { λ s. record { width = s.width; height = s.height } };

    ghost invariant = { λ s. IsSize s.width s.height };

    ghost inverse = { λ v. record { width = v.width; height = v.height } };
}

impl Size {
    /// A size, or None if the width or the height is not 1 to 65536.
    pub fn new(width: u32, height: u32) -> Option<Size>
        ensures within { IsSome result ↔ IsSize width height }
        ensures made { IfSome result (λ s. s ≡ record { width = width; height = height }) }
    {
        if width >= 1 && width <= MOST_SIDE && height >= 1 && height <= MOST_SIDE {
            Some(Size { width, height })
        } else {
            None
        }
    }

    /// The number of columns.
    pub fn width(self) -> u32
        ensures value { result ≡ self.width }
        ensures within { IsSize self.width self.height }
    {
        self.width
    }

    /// The number of rows.
    pub fn height(self) -> u32
        ensures value { result ≡ self.height }
        ensures within { IsSize self.width self.height }
    {
        self.height
    }
}

/// The column and the row of the neighbour of the cell `(x, y)` in direction `i`. The column is
/// taken modulo the width. None if the neighbour lies past the top or bottom row.
pub fn neighbour<G: Gas>(size: Size, x: u32, y: u32, i: u32) -> Option<(u32, u32)>
    requires column { x < size.width }
    requires row { y < size.height }
    requires direction { i < G.rules.dirs }
    ensures value { result ≡ neighbour_of G.rules size.width size.height x y i }
{
    let (along, down) = moves::<G>(i, y % 2 == 1);
    let row = row_after(size.height, y, down)?;
    Some((column_after(size.width, x, along), row))
}
