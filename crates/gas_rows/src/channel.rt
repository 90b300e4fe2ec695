//! Channels: their size and their solid cells.
ghost use Rattle.std.specs.Prelude.{◌≡◌, ◌<◌, ℕ, [], true, false, length, slice_index_or, slice_set, IfOk};
ghost use Rattle.gas_geom.specs.Size.{SizeModel};
ghost use Rattle.gas_geom.specs.Channel.{ChannelModel, IsChannel, is_solid, solid_cells, free_channel};
ghost use Rattle.gas_geom.specs.Lattice.{with_cell};
ghost use Rattle.gas_rows.specs.Beside.{is_solid_beside};

use crate::mask::Mask;
use gas_geom::moves::{Move, row_after};
use gas_geom::size::Size;
use std::alloc::{AllocError, Global};
use std::marker::Model;

/// A channel: its size and its solid cells. It is periodic in x, and its top and its bottom are
/// walls.
#[derive(Drop)]
pub struct Channel {
    size: Size,
    masks: Vec<Mask>,
    // The row past the top row and past the bottom one: its cells are all solid.
    wall: Mask,
}

impl Model for Channel {
    ghost use Rattle.std.specs.Prelude.{◌≡◌, replicate, true};
    ghost use Rattle.gas_geom.specs.Channel.{ChannelModel, IsChannel};

    ghost Value = { ChannelModel };

    ghost view = { λ c. record {
      width = c.size.width;
      height = c.size.height;
      solid = c.masks.items;
    } };

    ghost invariant = { λ c. record {
      whole : IsChannel (record {
        width = c.size.width;
        height = c.size.height;
        solid = c.masks.items;
      });
      wall : c.wall ≡ replicate c.size.width true;
    } };
}

impl Channel {
    /// A channel whose cells are all fluid.
    pub fn free(alloc: Global, size: Size) -> Result<Channel, AllocError>
        ensures value { IfOk result (λ c. c ≡ free_channel size.width size.height) }
    {
        let mut masks = Vec::with_capacity(alloc, size.height() as usize)?;
        for _ in 0..size.height() {
            masks.push(Mask::blank(alloc, size.width())?)?;
        }
        let mut wall = Mask::blank(alloc, size.width())?;
        wall.fill(true);
        Ok(Channel { size, masks, wall })
    }

    /// An equal channel.
    pub fn copy(&self, alloc: Global) -> Result<Channel, AllocError>
        ensures equal { IfOk result (λ c. c ≡ self.now) }
    {
        let mut masks = Vec::with_capacity(alloc, self.masks.len())?;
        for mask in &self.masks {
            masks.push(mask.copy(alloc)?)?;
        }
        Ok(Channel {
            size: self.size,
            masks,
            wall: self.wall.copy(alloc)?,
        })
    }

    /// The width and the height, each 1 to 65536 cells.
    pub fn size(&self) -> Size
        ensures width { result.width ≡ self.now.width }
        ensures height { result.height ≡ self.now.height }
        ensures whole { IsChannel self.now }
    {
        self.size
    }

    /// The solid cells of row `y`, as a mask of the channel's width.
    pub fn mask(&self, y: u32) -> &Mask
        requires row { y < self.now.height }
        ensures row { result.now ≡ slice_index_or self.now.solid y [] }
        ensures wide { length result.now ≡ self.now.width }
    {
        &self.masks[y as usize]
    }

    /// The solid cells of the row that a move leads to from row `y`. Past the top row and past the
    /// bottom one all cells are solid.
    #[inline(always)]
    pub fn mask_beside(&self, y: u32, down: Move) -> &Mask
        requires row { y < self.now.height }
        ensures wide { length result.now ≡ self.now.width }
        ensures cells { (x : ℕ) → x < self.now.width →
            slice_index_or result.now x false ≡ is_solid_beside self.now x y down }
    {
        match row_after(self.size.height(), y, down) {
            Some(v) => self.mask(v),
            None => &self.wall,
        }
    }

    /// Whether the cell in column `x` of row `y` is solid.
    pub fn is_solid(&self, x: u32, y: u32) -> bool
        requires column { x < self.now.width }
        requires row { y < self.now.height }
        ensures value { result ≡ is_solid self.now x y }
    {
        self.mask(y).get(x)
    }

    /// Makes the cell in column `x` of row `y` solid.
    pub fn make_solid(&mut self, x: u32, y: u32)
        requires column { x < self.old.width }
        requires row { y < self.old.height }
        ensures written { self.new
            ≡ record self.old { solid = with_cell self.old.solid x y true } }
    {
        self.masks[y as usize].set(x, true);
    }

    /// Sets which cells of row `y` are solid, a value for each column.
    pub fn set_row(&mut self, y: u32, solid: &[bool])
        requires row { y < self.old.height }
        requires wide { length solid.now ≡ self.old.width }
        ensures written { self.new
            ≡ record self.old { solid = slice_set self.old.solid y solid.now } }
    {
        self.masks[y as usize].copy_from(solid);
    }

    /// The number of solid cells.
    pub fn count_solid(&self) -> u64
        ensures count { result ≡ solid_cells self.now }
    {
        let mut total = 0;
        for y in 0..self.size.height() {
            total += u64::from(self.mask(y).count());
        }
        total
    }
}
