//! The lattice of an area.

ghost use Rattle.std.specs.Prelude.{◌≡◌, ℕ, ◌^◌, Bool, true, map, nat_abs, IfOk, ◌⊎◌, ◌≤◌, ◌&&◌, Some, None, is_some, pos, IfSome, IfErr};
ghost use Rattle.std.specs.List.{list_all};
ghost use Rattle.toml.specs.View.{view};
ghost use Rattle.gas_geom.specs.Size.{IsSize};
ghost use Rattle.gas_layout.specs.Layout.{fits, drawn, lattice_of, placed, between};
ghost use Rattle.gas_scene.specs.Table.{rectangle_of, placement_of};
ghost use Rattle.gas_scene.specs.Scene.{area_lattice};
ghost use Rattle.gas_scene.specs.Inner.Models.{can_stand, table_model, IsDrawn};
ghost use Rattle.gas_geom.specs.declared.size.TheConstants.{MOST_SIDE};
ghost use Rattle.gas_scene.specs.Catalog.{rules_of, gas_lattice};
ghost use Rattle.gas_scene.specs.declared.error.SceneError.TheVariants.{Memory};
ghost use Rattle.gas_scene.specs.Refusals.{area_refusal};

use crate::catalog::{AnyLattice, any_lattice};
use crate::error::SceneError;
use crate::scene_table::{CommonValues, SceneTable};
use crate::toml_values::{placement, rectangle};
use gas_geom::gas::Gas;
use gas_geom::size::Size;
use gas_layout::area::{is_between, size_within};
use gas_layout::drawing::Drawing;
use gas_layout::filling::fill;
use gas_rows::channel::Channel;
use gas_rows::lattice::Lattice;
use std::alloc::{AllocError, Global};
use toml::Value;

/// An area whose values are in their ranges: the channel of its rectangles, and the rate of its
/// filling in thousandths.
#[derive(Drop)]
pub struct DrawnArea {
    pub channel: Channel,
    pub rate: u32,
}

// Whether each rectangle has cells, all of them in the area.
fn are_rectangles(values: &[Value], size: Size) -> bool
    ensures { result
        ≡ list_all (λ v. fits size.width size.height (rectangle_of (view v))) values.now }
{
    values.iter().all(|value| rectangle(value).fits(size))
}

// Whether each placement is at a fluid cell of the channel, with a state of the gas.
fn are_placements(values: &[Value], channel: &Channel, states: u16) -> bool
    ensures { result ≡ can_stand states channel.now values.now }
{
    values
        .iter()
        .all(|value| placement(value).can_stand(channel, states))
}

// The channel in which a cell is solid if a rectangle covers it.
fn draw(alloc: Global, size: Size, solid: &[Value]) -> Result<Channel, AllocError>
    requires { list_all (λ v. fits size.width size.height (rectangle_of (view v))) solid.now
        ≡ true }
    ensures { IfOk result (λ c.
        c ≡ drawn size.width size.height (map rectangle_of (map view solid.now))) }
{
    let mut drawing = Drawing::new(alloc, size)?;
    for value in solid {
        drawing.add(rectangle(value))?;
    }
    drawing.channel(alloc)
}

// Sets the states of the cells of the placements, in order.
fn place_all<G: Gas>(lattice: &mut Lattice<G>, particles: &[Value])
    requires size { IsSize lattice.old.channel.width lattice.old.channel.height }
    requires can { can_stand (2 ^ G.rules.dirs) lattice.old.channel particles.now ≡ true }
    ensures { (w h : ℕ) (solid : ℕ → ℕ → Bool) (at : ℕ → ℕ → ℕ) →
        lattice.old ≡ lattice_of w h solid at → lattice.new ≡ lattice_of w h solid
        (λ x y. placed (map placement_of (map view particles.now)) x y (at x y)) }
{
    for value in particles {
        placement(value).put(lattice);
    }
}

// The lattice of an area that is drawn.
fn area_lattice<G: Gas>(
    alloc: Global,
    table: &SceneTable,
    area: DrawnArea,
    seed: u64,
) -> Result<Lattice<G>, AllocError>
    requires drawn { IsDrawn (2 ^ G.rules.dirs) table.now area }
    requires seed { seed ≡ nat_abs table.now.seed }
    ensures { IfOk result (λ l. l ≡ area_lattice G.rules (table_model table.now)) }
{
    let mut lattice = Lattice::blank(alloc, area.channel)?;
    fill(alloc, &mut lattice, seed, area.rate)?;
    place_all(&mut lattice, table.particles);
    Ok(lattice)
}

impl SceneTable<'_> {
    // The size of the area if its sides and its rate are in their ranges.
    fn size(&self, most: u32) -> Option<Size>
        requires { most ≤ MOST_SIDE }
        ensures within { is_some result ≡ (between (pos 1) (pos most) self.now.width
            && (between (pos 1) (pos most) self.now.height
            && between (pos 0) (pos 1000) self.now.rate)) }
        ensures made { IfSome result (λ s. s ≡ record {
          width = nat_abs self.now.width;
          height = nat_abs self.now.height;
        }) }
    {
        if !is_between(0, 1000, self.rate) {
            return None;
        }
        size_within(most, self.width, self.height)
    }

    // Draws the area, or refuses it if a value is out of its range.
    fn draw_area(&self, alloc: Global, most: u32, states: u16) -> Result<DrawnArea, SceneError>
        requires { most ≤ MOST_SIDE }
        ensures refused { IfErr result (λ e.
            (area_refusal most states (table_model self.now) ≡ Some e) ⊎ (e ≡ Memory)) }
        ensures accepted { IfOk result (λ a. area_refusal most states (table_model self.now) ≡ None) }
        ensures drawn { IfOk result (λ a. IsDrawn states self.now a) }
    {
        let Some(size) = self.size(most) else {
            return Err(SceneError::Range);
        };
        if !are_rectangles(self.solid, size) {
            return Err(SceneError::Range);
        }
        let channel = draw(alloc, size, self.solid)?;
        if !are_placements(self.particles, &channel, states) {
            return Err(SceneError::Range);
        }
        Ok(DrawnArea {
            channel,
            rate: self.rate as u32,
        })
    }

    /// The lattice of the area. The error is `Range` if a value is out of its range.
    pub(crate) fn area_lattice(
        &self,
        alloc: Global,
        common: CommonValues,
    ) -> Result<AnyLattice, SceneError>
        requires most { common.most_side ≤ MOST_SIDE }
        requires seed { common.seed ≡ nat_abs self.now.seed }
        ensures refused { IfErr result (λ e.
            (area_refusal common.most_side (2 ^ (rules_of common.gas).dirs) (table_model self.now)
            ≡ Some e) ⊎ (e ≡ Memory)) }
        ensures accepted { IfOk result (λ l.
            area_refusal common.most_side (2 ^ (rules_of common.gas).dirs) (table_model self.now)
            ≡ None) }
        ensures value { IfOk result (λ l. gas_lattice l ≡ record {
          gas = common.gas;
          lattice = area_lattice (rules_of common.gas) (table_model self.now);
        }) }
    {
        let area = self.draw_area(alloc, common.most_side, common.gas.states())?;
        Ok(any_lattice!(common.gas, area_lattice(alloc, self, area, common.seed)?))
    }
}
