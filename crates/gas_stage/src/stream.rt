//! The streaming of one row of a channel between the rows beside it.
ghost use Rattle.std.specs.Prelude.{◌≡◌, ◌+◌, ◌<◌, ◌↔◌, ℕ, [], false, length, slice_index_or, unwrap_or, IsSome};
ghost use Rattle.std.specs.Option.{option_copied, ForSome};
ghost use Rattle.gas_geom.specs.Lattice.{streamed, row_of};
ghost use Rattle.gas_rows.specs.Streaming.{AreRowsAbout, advanced};

use gas_geom::gas::Gas;
use gas_geom::moves::Move;
use gas_rows::channel::Channel;
use gas_rows::mask::Mask;
use gas_rows::row::Row;
use gas_rows::stream::Neighbourhood;

/// Writes row `y` after streaming from the collided rows above, at and below it and, if it `collides`,
/// the collision that follows, by these random bits. Past a wall any row serves.
#[inline(always)]
pub(crate) fn stream_into<G: Gas>(
    channel: &Channel,
    y: u32,
    above: &Row<G>,
    middle: &Row<G>,
    below: &Row<G>,
    bits: &Mask,
    collides: bool,
    out: &mut Row<G>,
)
    requires row { y < channel.now.height }
    requires above_wide { length above.now ≡ channel.now.width }
    requires middle_wide { length middle.now ≡ channel.now.width }
    requires below_wide { length below.now ≡ channel.now.width }
    requires wide { length out.old ≡ channel.now.width }
    requires bits_wide { length bits.now ≡ channel.now.width }
    ensures wide { length out.new ≡ channel.now.width }
    ensures streamed { (at : ℕ → ℕ → ℕ) →
        AreRowsAbout channel.now at y above.now middle.now below.now →
        out.new ≡ row_of channel.now.width
        (λ x. advanced G.rules channel.now collides (λ x y. slice_index_or bits.now x false) at x y) }
{
    let solid_above = channel.mask_beside(y, Move::Back);
    let solid_middle = channel.mask(y);
    let solid_below = channel.mask_beside(y, Move::On);
    let all_fluid = solid_middle.is_blank() & solid_above.is_blank() & solid_below.is_blank();
    let neighbourhood = Neighbourhood {
        above: above.as_words(),
        middle: middle.as_words(),
        below: below.as_words(),
        solid_above: solid_above.words(),
        solid_middle: solid_middle.words(),
        solid_below: solid_below.words(),
        width: out.width(),
        y,
        all_fluid,
    };
    out.advance(&neighbourhood, bits, collides);
}

/// Row `y` after streaming, from the collided rows above it, at it and below it. The first is None
/// at the top, and the last at the bottom. Solid cells are not read.
pub fn stream_row<G: Gas>(
    channel: &Channel,
    y: u32,
    up: Option<&Row<G>>,
    mid: &Row<G>,
    down: Option<&Row<G>>,
    out: &mut Row<G>,
)
    requires row { y < channel.now.height }
    requires up_there { IsSome up ↔ (0 < y) }
    requires down_there { IsSome down ↔ (y + 1 < channel.now.height) }
    requires up_wide { ForSome (option_copied up) (λ r. length r ≡ channel.now.width) }
    requires mid_wide { length mid.now ≡ channel.now.width }
    requires down_wide { ForSome (option_copied down) (λ r. length r ≡ channel.now.width) }
    requires out_wide { length out.old ≡ channel.now.width }
    ensures wide { length out.new ≡ channel.now.width }
    ensures streamed { (at : ℕ → ℕ → ℕ) →
        AreRowsAbout channel.now at y
        (unwrap_or (option_copied up.entry) []) mid.now (unwrap_or (option_copied down.entry) []) →
        out.new ≡ row_of channel.now.width (λ x. streamed G.rules channel.now at x y) }
{
    stream_into(
        channel,
        y,
        up.unwrap_or(mid),
        mid,
        down.unwrap_or(mid),
        channel.mask(y), // no bits are read
        false,
        out,
    );
}
