//! The lattice of a map.

ghost use Rattle.std.specs.Prelude.{◌≡◌, ◌⊎◌, ◌+◌, ◌<◌, ◌≤◌, ◌^◌, pos, length, IfSome, IfOk, IfErr, Some, None};
ghost use Rattle.toml.specs.View.{view};
ghost use Rattle.gas_geom.specs.declared.size.TheConstants.{MOST_SIDE};
ghost use Rattle.gas_cells.specs.Reading.{bad_column};
ghost use Rattle.gas_scene.specs.Catalog.{rules_of, gas_lattice};
ghost use Rattle.gas_layout.specs.Layout.{between};
ghost use Rattle.gas_scene.specs.declared.error.SceneError.TheVariants.{Memory};
ghost use Rattle.gas_scene.specs.Refusals.{has_wrong_length, row_length, bad_cell, map_refusal};
ghost use Rattle.gas_scene.specs.Scene.{map_lattice};
ghost use Rattle.gas_scene.specs.Inner.Models.{texts_of};
ghost use Rattle.gas_scene.specs.Inner.Maps.{as_result, map_before, map_width, shape_refusal, IsMap, row_at};

use crate::catalog::{AnyLattice, KnownGas, any_lattice, states};
use crate::error::SceneError;
use crate::toml_values::text_of;
use gas_cells::cells::CHARACTERS;
use gas_cells::reading::{bad_column, read_row};
use gas_geom::gas::Gas;
use gas_geom::size::Size;
use gas_rows::channel::Channel;
use gas_rows::lattice::Lattice;
use std::alloc::Global;
use toml::Value;

// The characters of row `r`.
fn row(rows: &[Value], r: usize) -> &[u8]
    requires { r < length rows.now }
    ensures { result.now ≡ row_at (texts_of rows.now) r }
{
    text_of(&rows[r]).as_bytes()
}

// Whether a side has 1 to `most` cells.
fn is_side(most: u32, cells: usize) -> bool
    ensures { result ≡ between (pos 1) (pos most) (pos cells) }
{
    1 <= cells && cells <= most as usize
}

// Whether the length of a row is wrong. The first row has `first` characters.
fn has_wrong_length(most: u32, first: usize, row: &[u8]) -> bool
    ensures { result ≡ has_wrong_length most first row.now }
{
    let length = row.len();
    !(length % CHARACTERS == 0 && (is_side(most, length / CHARACTERS) && length == first))
}

// Refuses the first row of a wrong length. All rows must be as long as the first.
fn check_lengths(most: u32, rows: &[Value]) -> Result<(), SceneError>
    requires some { 1 ≤ length rows.now }
    requires few { length rows.now ≤ MOST_SIDE }
    ensures { result ≡ as_result (row_length most (texts_of rows.now)) }
{
    let first = row(rows, 0).len();
    for r in 0..rows.len() {
        if has_wrong_length(most, first, row(rows, r)) {
            return Err(SceneError::RowLength(r as u32));
        }
    }
    Ok(())
}

// Refuses the first pair of characters that is no cell.
fn check_cells(states: u16, rows: &[Value]) -> Result<(), SceneError>
    requires { IsMap (texts_of rows.now) }
    ensures { result ≡ as_result (bad_cell states (texts_of rows.now)) }
{
    for r in 0..rows.len() {
        if let Some(c) = bad_column(row(rows, r), states) {
            return Err(SceneError::BadCell(r as u32, c as u32));
        }
    }
    Ok(())
}

// Puts the cells of row `y`, and returns its first column that has no cell. `solid` and `state_of`
// are buffers for a row.
fn put_row<G: Gas>(
    lattice: &mut Lattice<G>,
    rows: &[Value],
    y: u32,
    solid: &mut [bool],
    state_of: &mut [u8],
) -> Option<usize>
    requires map { IsMap (texts_of rows.now) }
    requires within { y < length rows.now }
    requires wide { length solid.old ≡ map_width (texts_of rows.now) }
    requires as_wide { length state_of.old ≡ map_width (texts_of rows.now) }
    requires before { lattice.old ≡ map_before (2 ^ G.rules.dirs) (texts_of rows.now) y }
    ensures bad { result ≡ bad_column (2 ^ G.rules.dirs) (row_at (texts_of rows.now) y) }
    ensures within { IfSome result (λ c. c < map_width (texts_of rows.now)) }
    ensures put { lattice.new ≡ map_before (2 ^ G.rules.dirs) (texts_of rows.now) (y + 1) }
{
    let row = row(rows, y as usize);
    let bad = read_row(row, states::<G>(), solid, state_of);
    lattice.set_row(y, solid, state_of);
    bad
}

// The lattice of the rows, or the first pair of characters that is no cell.
fn map_lattice<G: Gas>(alloc: Global, rows: &[Value]) -> Result<Lattice<G>, SceneError>
    requires { IsMap (texts_of rows.now) }
    ensures refused { IfErr result (λ e.
        (bad_cell (2 ^ G.rules.dirs) (texts_of rows.now) ≡ Some e) ⊎ (e ≡ Memory)) }
    ensures accepted { IfOk result (λ l. bad_cell (2 ^ G.rules.dirs) (texts_of rows.now) ≡ None) }
    ensures value { IfOk result (λ l. l ≡ map_lattice (2 ^ G.rules.dirs) (texts_of rows.now)) }
{
    let width = row(rows, 0).len() / CHARACTERS;
    let size = Size::new(width as u32, rows.len() as u32).unwrap();
    let mut lattice = Lattice::blank(alloc, Channel::free(alloc, size)?)?;
    let mut solid = vec![in alloc; false; width]?;
    let mut state_of = vec![in alloc; 0u8; width]?;
    let solid = solid.as_mut_slice();
    let state_of = state_of.as_mut_slice();
    for y in 0..rows.len() {
        if let Some(c) = put_row(&mut lattice, rows, y as u32, solid, state_of) {
            return Err(SceneError::BadCell(y as u32, c as u32));
        }
    }
    Ok(lattice)
}

// Refuses too many rows, and the first row of a wrong length.
fn check_shape(most: u32, rows: &[Value]) -> Result<(), SceneError>
    requires { most ≤ MOST_SIDE }
    ensures { result ≡ as_result (shape_refusal most (texts_of rows.now)) }
{
    if is_side(most, rows.len()) {
        check_lengths(most, rows)
    } else {
        Err(SceneError::Range)
    }
}

fn build(alloc: Global, gas: KnownGas, rows: &[Value]) -> Result<AnyLattice, SceneError>
    requires { IsMap (texts_of rows.now) }
    ensures refused { IfErr result (λ e.
        (bad_cell (2 ^ (rules_of gas).dirs) (texts_of rows.now) ≡ Some e) ⊎ (e ≡ Memory)) }
    ensures accepted { IfOk result (λ l.
        bad_cell (2 ^ (rules_of gas).dirs) (texts_of rows.now) ≡ None) }
    ensures value { IfOk result (λ l. gas_lattice l ≡ record {
      gas = gas;
      lattice = map_lattice (2 ^ (rules_of gas).dirs) (texts_of rows.now);
    }) }
{
    Ok(any_lattice!(gas, map_lattice(alloc, rows)?))
}

/// The lattice of the rows, with sides of at most `most` cells, or their first fault.
pub(crate) fn lattice(
    alloc: Global,
    gas: KnownGas,
    most: u32,
    rows: &[Value],
) -> Result<AnyLattice, SceneError>
    requires { most ≤ MOST_SIDE }
    ensures refused { IfErr result (λ e.
        (map_refusal most (2 ^ (rules_of gas).dirs) (texts_of rows.now) ≡ Some e)
        ⊎ (e ≡ Memory)) }
    ensures accepted { IfOk result (λ l.
        map_refusal most (2 ^ (rules_of gas).dirs) (texts_of rows.now) ≡ None) }
    ensures value { IfOk result (λ l. gas_lattice l ≡ record {
      gas = gas;
      lattice = map_lattice (2 ^ (rules_of gas).dirs) (texts_of rows.now);
    }) }
{
    check_shape(most, rows)?;
    match build(alloc, gas, rows) {
        Ok(lattice) => Ok(lattice),
        Err(error) => {
            // A refusal of memory must not hide a bad cell further down.
            check_cells(gas.states(), rows)?;
            Err(error)
        }
    }
}
