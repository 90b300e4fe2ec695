//! Rectangles drawn into a channel. Each is read once, in its first row, however much they overlap.
//!
//! A rectangle is a strip of columns that is solid from its first row on. A skyline is how far down
//! each column is solid, as strips are added from the top. A strip sets one number for each whole
//! band of 256 columns in it, and one for each column before and after these bands. Each of the
//! three parts has at most 256 numbers.

ghost use Rattle.std.specs.Prelude.{◌≡◌, ℕ, ◌+◌, ◌*◌, ◌/◌, ◌<◌, ◌≤◌, ◌&&◌, ◌||◌, [], ◌∷◌, ◌++◌, false, true, List, length, slice_index, slice_index_or, IfOk, OnOk, OnErr, All, nat_le, nat_lt, if◌then◌else◌};
ghost use Rattle.std.specs.List.{list_any};
ghost use Rattle.gas_geom.specs.declared.size.TheConstants.{MOST_SIDE};
ghost use Rattle.gas_layout.specs.Layout.{drawn, fits};
ghost use Rattle.gas_layout.specs.Inner.Strips.{reaches, IsInside, IsStrip, strip_of, first_row, IsSkyline, passes};
ghost use Rattle.gas_layout.specs.declared.area.Rectangle.{Rectangle};
ghost use Rattle.gas_layout.specs.declared.drawing.TheConstants.{BAND};

use crate::area::Rectangle;
use gas_geom::size::Size;
use gas_rows::channel::Channel;
use std::alloc::{AllocError, Global};
use std::marker::Model;

// The number of columns of a band.
const BAND: usize = 256;

// The columns `start..end`, solid from some row down to the row above `bottom`.
#[derive(Clone, Copy)]
pub(crate) struct Strip {
    start: u32,
    end: u32,
    bottom: u32,
}

impl Strip {
    // The strip of a rectangle.
    fn of(rectangle: Rectangle) -> Strip
        requires { IsInside MOST_SIDE MOST_SIDE rectangle }
        ensures { result ≡ strip_of rectangle }
    {
        Strip {
            start: rectangle.x as u32,
            end: (rectangle.x + rectangle.width) as u32,
            bottom: (rectangle.y + rectangle.height) as u32,
        }
    }

    // The first row of a rectangle.
    fn first_row(rectangle: Rectangle) -> u32
        requires { IsInside MOST_SIDE MOST_SIDE rectangle }
        ensures { result ≡ first_row rectangle }
    {
        rectangle.y as u32
    }

    // The strip with these columns.
    fn columns(self, start: u32, end: u32) -> Strip
        ensures { result ≡ record self { start = start; end = end } }
    {
        Strip { start, end, ..self }
    }
}

// Extends the columns of a strip down to its bottom. They are at most as many as those of a band.
fn extend(depths: &mut [u32], strip: Strip)
    requires columns { IsStrip (length depths.old) strip }
    requires few { strip.end ≤ strip.start + BAND }
    ensures { (x y : ℕ) → nat_lt y (slice_index depths.new x)
        ≡ (nat_lt y (slice_index depths.old x) || reaches strip x y) }
{
    for x in strip.start as usize..strip.end as usize {
        depths[x] = depths[x].max(strip.bottom);
    }
}

// Extends the columns of a strip before and after its whole bands. The result is the whole bands as
// a strip of bands, which is empty if there is none.
fn extend_ends(depths: &mut [u32], strip: Strip) -> Strip
    requires columns { IsStrip (length depths.old) strip }
    requires few { length depths.old ≤ MOST_SIDE }
    ensures few { result.end ≤ result.start + BAND }
    ensures within { (n : ℕ) → length depths.old ≤ BAND * n → IsStrip n result }
    ensures cells { (x y : ℕ)
        → (nat_lt y (slice_index depths.new x) || reaches result (x / BAND) y)
        ≡ (nat_lt y (slice_index depths.old x) || reaches strip x y) }
{
    let band = BAND as u32;
    let first = strip.start.div_ceil(band);
    let last = first.max(strip.end / band);
    let before = strip.end.min(band * first);
    let after = strip.end.min(band * last);
    extend(depths, strip.columns(strip.start, before));
    extend(depths, strip.columns(after, strip.end));
    strip.columns(first, last)
}

// Marks which of the columns `from..to` are solid in row `y`: all if `whole` is set, else by their
// numbers. It has no branch, so that the loop vectorises.
fn mark_band(solid: &mut [bool], depths: &[u32], from: usize, to: usize, y: u32, whole: bool)
    requires long { length solid.old ≡ length depths.now }
    requires order { from ≤ to }
    requires within { to ≤ length depths.now }
    ensures { (x : ℕ) → slice_index_or solid.new x false
        ≡ (if nat_le from x && nat_lt x to then nat_lt y (slice_index depths.now x) || whole
        else slice_index_or solid.old x false) }
{
    for x in from..to {
        solid[x] = (y < depths[x]) | whole;
    }
}

// How far down each column is solid: to the greater of its own number and the number of its band.
#[derive(Drop)]
pub(crate) struct Skyline {
    columns: Vec<u32>,
    bands: Vec<u32>,
}

impl Skyline {
    // A skyline of `width` columns, none of them solid.
    fn flat(alloc: Global, width: usize) -> Result<Skyline, AllocError>
        requires { width ≤ MOST_SIDE }
        ensures sized { IfOk result (λ s. IsSkyline width s) }
        ensures cells { IfOk result (λ s. (x y : ℕ) → passes s x y ≡ false) }
    {
        Ok(Skyline {
            columns: vec![in alloc; 0; width]?,
            bands: vec![in alloc; 0; width / BAND + 1]?,
        })
    }

    // Extends the columns of a strip down to its bottom.
    fn extend(&mut self, strip: Strip)
        requires columns { IsStrip (length self.old.columns.items) strip }
        requires sized { IsSkyline (length self.old.columns.items) self.old }
        ensures sized { IsSkyline (length self.old.columns.items) self.new }
        ensures cells { (x y : ℕ)
            → passes self.new x y ≡ (passes self.old x y || reaches strip x y) }
    {
        let bands = extend_ends(self.columns.as_mut_slice(), strip);
        extend(self.bands.as_mut_slice(), bands);
    }

    // Extends the columns of each strip down to its bottom.
    fn extend_all(&mut self, strips: &[Strip])
        requires columns { All (λ s. IsStrip (length self.old.columns.items) s) strips.now }
        requires sized { IsSkyline (length self.old.columns.items) self.old }
        ensures sized { IsSkyline (length self.old.columns.items) self.new }
        ensures cells { (x y : ℕ) → passes self.new x y
            ≡ (passes self.old x y || list_any (λ s. reaches s x y) strips.now) }
    {
        for strip in strips {
            self.extend(*strip);
        }
    }

    // Marks which columns are solid in row `y`.
    fn mark(&self, solid: &mut [bool], y: u32)
        requires sized { IsSkyline (length solid.old) self.now }
        requires few { length solid.old ≤ MOST_SIDE }
        ensures { (x : ℕ) → x < length solid.old
            → slice_index_or solid.new x false ≡ passes self.now x y }
    {
        let columns = self.columns.as_slice();
        let bands = self.bands.as_slice();
        let width = columns.len();
        for band in 0..width.div_ceil(BAND) {
            let from = BAND * band;
            let to = width.min(from + BAND);
            mark_band(solid, columns, from, to, y, y < bands[band]);
        }
    }
}

/// Rectangles of an area, collected by their first rows. In a contract a drawing is its channel.
#[derive(Drop)]
pub struct Drawing {
    size: Size,
    rows: Vec<Vec<Strip>>,
}

impl Model for Drawing {
    ghost use Rattle.std.specs.Prelude.{◌≡◌, length};
    ghost use Rattle.gas_geom.specs.Channel.{ChannelModel};
    ghost use Rattle.gas_layout.specs.Layout.{channel_of};
    ghost use Rattle.gas_layout.specs.Inner.Strips.{AreStrips, is_drawn, strips_of};

    ghost Value = { ChannelModel };

    ghost view = { λ d. channel_of d.size.width d.size.height (is_drawn (strips_of d.rows.items)) };

    ghost invariant = { λ d. record {
      high : length d.rows.items ≡ d.size.height;
      strips : AreStrips d.size.width (strips_of d.rows.items);
    } };
}

impl Drawing {
    /// A drawing with no rectangles.
    pub fn new(alloc: Global, size: Size) -> Result<Drawing, AllocError>
        ensures blank { IfOk result (λ d. d ≡ drawn size.width size.height []) }
    {
        let mut rows = Vec::with_capacity(alloc, size.height() as usize)?;
        for _ in 0..size.height() {
            rows.push(Vec::new(alloc))?;
        }
        Ok(Drawing { size, rows })
    }

    /// Adds a rectangle. If memory is refused, the drawing is unchanged.
    pub fn add(&mut self, rectangle: Rectangle) -> Result<(), AllocError>
        requires fits { fits self.old.width self.old.height rectangle ≡ true }
        ensures width { self.new.width ≡ self.old.width }
        ensures height { self.new.height ≡ self.old.height }
        ensures added { OnOk result ((w h : ℕ) (rs : List Rectangle) → self.old ≡ drawn w h rs
            → self.new ≡ drawn w h (rs ++ rectangle ∷ [])) }
        ensures refused { OnErr result (self.new ≡ self.old) }
    {
        let row = &mut self.rows[Strip::first_row(rectangle) as usize];
        row.push(Strip::of(rectangle))?;
        Ok(())
    }

    /// The channel of the drawing. A cell is solid if a rectangle covers it.
    pub fn channel(&self, alloc: Global) -> Result<Channel, AllocError>
        ensures drawn { IfOk result (λ c. c ≡ self.now) }
    {
        let mut channel = Channel::free(alloc, self.size)?;
        let width = self.size.width() as usize;
        let mut skyline = Skyline::flat(alloc, width)?;
        let mut solid = vec![in alloc; false; width]?;
        for y in 0..self.size.height() {
            skyline.extend_all(self.rows[y as usize].as_slice());
            skyline.mark(solid.as_mut_slice(), y);
            channel.set_row(y, solid.as_slice());
        }
        Ok(channel)
    }
}
