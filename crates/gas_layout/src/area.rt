//! The numbers of an area, which may be out of range: its sides, rectangles and placements.

ghost use Rattle.std.specs.Prelude.{◌≡◌, ◌≤◌, ◌&&◌, ◌^◌, ℕ, Bool, [], ◌∷◌, true, not, pos, nat_abs, is_some, IfSome};
ghost use Rattle.gas_geom.specs.declared.size.TheConstants.{MOST_SIDE};
ghost use Rattle.gas_geom.specs.Size.{IsSize};
ghost use Rattle.gas_geom.specs.Channel.{is_solid};
ghost use Rattle.gas_layout.specs.Layout.{between, is_index, fits_along};

use gas_geom::gas::Gas;
use gas_geom::size::Size;
use gas_rows::channel::Channel;
use gas_rows::lattice::Lattice;

/// Whether a number is `low` to `high`.
pub fn is_between(low: i64, high: i64, n: i64) -> bool
    ensures value { result ≡ between low high n }
{
    low <= n && n <= high
}

// Whether a number is at least 0 and below the limit.
fn is_index(limit: u32, n: i64) -> bool
    ensures { result ≡ is_index limit n }
{
    0 <= n && n < i64::from(limit)
}

/// The size of an area, or None if its width or its height is not 1 to `most`. `most` must be at
/// most 65536.
pub fn size_within(most: u32, width: i64, height: i64) -> Option<Size>
    requires most { most ≤ 65536 }
    ensures within { is_some result
        ≡ (between (pos 1) (pos most) width && between (pos 1) (pos most) height) }
    ensures made { IfSome result (λ s.
        s ≡ record { width = nat_abs width; height = nat_abs height }) }
{
    let most = i64::from(most);
    if is_between(1, most, width) && is_between(1, most, height) {
        Size::new(width as u32, height as u32)
    } else {
        None
    }
}

/// A rectangle of cells: the column and the row of its first cell, from 0, and its width and height
/// in cells. The numbers may be out of range: [`Rectangle::fits`] checks them.
#[derive(Clone, Copy, Debug, PartialEq, Eq)]
pub struct Rectangle {
    pub x: i64,
    pub y: i64,
    pub width: i64,
    pub height: i64,
}

// Whether `n` is at least 1 and the `n` places from `start` on are places of this length.
fn fits_along(length: u32, start: i64, n: i64) -> bool
    ensures { result ≡ fits_along length start n }
{
    0 <= start && 1 <= n && i128::from(start) + i128::from(n) <= i128::from(length)
}

impl Rectangle {
    ghost use Rattle.gas_layout.specs.Layout.{fits};

    /// Whether the rectangle has cells, all of them in an area of this size.
    pub fn fits(self, size: Size) -> bool
        ensures value { result ≡ fits size.width size.height self }
    {
        fits_along(size.width(), self.x, self.width)
            && fits_along(size.height(), self.y, self.height)
    }
}

/// A state for a cell: the column and the row of the cell, from 0, and the state. Bit `i` of the
/// state is a particle in direction `i`. The numbers may be out of range:
/// [`Placement::can_stand`] checks them.
#[derive(Clone, Copy, Debug, PartialEq, Eq)]
pub struct Placement {
    pub x: i64,
    pub y: i64,
    pub state: i64,
}

impl Placement {
    ghost use Rattle.gas_layout.specs.Layout.{can_place, lattice_of, placed};

    /// Whether the cell is a fluid cell of the channel and the state is below `states`.
    pub fn can_stand(self, channel: &Channel, states: u16) -> bool
        ensures value { result ≡ can_place states channel.now.width channel.now.height
            (λ x y. is_solid channel.now (nat_abs x) (nat_abs y)) self }
    {
        let size = channel.size();
        (is_index(size.width(), self.x) && is_index(size.height(), self.y))
            && (is_index(u32::from(states), self.state)
                && !channel.is_solid(self.x as u32, self.y as u32))
    }

    /// Sets the state of the cell.
    pub fn put<G: Gas>(self, lattice: &mut Lattice<G>)
        requires size { IsSize lattice.old.channel.width lattice.old.channel.height }
        requires can { can_place (2 ^ G.rules.dirs)
            lattice.old.channel.width lattice.old.channel.height
            (λ x y. is_solid lattice.old.channel (nat_abs x) (nat_abs y)) self ≡ true }
        ensures channel { lattice.new.channel ≡ lattice.old.channel }
        ensures cells { (w h : ℕ) (solid : ℕ → ℕ → Bool) (at : ℕ → ℕ → ℕ)
            → lattice.old ≡ lattice_of w h solid at
            → lattice.new ≡ lattice_of w h solid (λ x y. placed (self ∷ []) x y (at x y)) }
    {
        lattice.set_cell(self.x as u32, self.y as u32, self.state as u8);
    }
}
