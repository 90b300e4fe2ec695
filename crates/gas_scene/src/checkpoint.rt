//! Writing a lattice as the text of a scene, from which its run can go on.

ghost use Rattle.std.specs.Prelude.{◌≡◌, ◌⊎◌, ◌↔◌, ◌<◌, ◌^◌, true, false, Some, Ok, Err, pos, map, IfSome, IfOk, IfErr, OnOk, string_bytes};
ghost use Rattle.gas_geom.specs.Channel.{IsChannel};
ghost use Rattle.gas_geom.specs.Lattice.{IsLattice};
ghost use Rattle.toml.specs.Data.{integer};
ghost use Rattle.toml.specs.Parse.{parse_document};
ghost use Rattle.toml.specs.View.{view, table_view};
ghost use Rattle.gas_cells.specs.Cells.{row_cells};
ghost use Rattle.gas_scene.specs.Catalog.{rules_of, name_and_seed, gas_lattice};
ghost use Rattle.gas_scene.specs.declared.error.SceneError.TheVariants.{Memory, Range};
ghost use Rattle.gas_scene.specs.Scene.{scene_of_text};
ghost use Rattle.gas_scene.specs.Checkpoint.{can_be_stated, checkpoint_table};
ghost use Rattle.gas_scene.specs.Inner.Printing.{row_values, insert_member, insert_seed, insert_all};

use crate::catalog::{AnyLattice, KnownGas};
use crate::error::SceneError;
use crate::scene_table::LAST_GENERATION;
use crate::with_lattice;
use gas_cells::cells::{CHARACTERS, row_part, row_parts};
use gas_geom::gas::Gas;
use gas_rows::chirality::Chirality;
use gas_rows::lattice::Lattice;
use std::alloc::{AllocError, Global};
use toml::{Table, Value};

fn row_bytes<G: Gas>(alloc: Global, lattice: &Lattice<G>, y: u32) -> Result<Vec<u8>, AllocError>
    requires { y < lattice.now.channel.height }
    ensures row { IfOk result (λ text.
        text.items ≡ row_cells lattice.now.channel lattice.now.rows y) }
    ensures lattice { IsLattice G.rules lattice.now.channel lattice.now.rows }
{
    let width = lattice.channel().size().width() as usize;
    let mut text = Vec::with_capacity(alloc, CHARACTERS * width)?;
    for j in 0..row_parts(lattice) {
        text.extend_from_slice(row_part(lattice, y, j).as_bytes())?;
    }
    Ok(text)
}

// The text of row `y`. Its characters are ASCII.
fn row_text<G: Gas>(alloc: Global, lattice: &Lattice<G>, y: u32) -> Result<String, AllocError>
    requires { y < lattice.now.channel.height }
    ensures { IfOk result (λ s.
        string_bytes s ≡ row_cells lattice.now.channel lattice.now.rows y) }
{
    match String::from_utf8(row_bytes(alloc, lattice, y)?) {
        Ok(text) => Ok(text),
        Err(_) => unreachable!(),
    }
}

// The rows from the top, as values of a table.
fn row_values<G: Gas>(alloc: Global, lattice: &Lattice<G>) -> Result<Vec<Value>, AllocError>
    ensures rows { IfOk result (λ rows. map view rows.items ≡ row_values lattice.now) }
    ensures lattice { IsLattice G.rules lattice.now.channel lattice.now.rows }
    ensures channel { IsChannel lattice.now.channel }
{
    let height = lattice.channel().size().height();
    let mut rows = Vec::with_capacity(alloc, height as usize)?;
    for y in 0..height {
        rows.push(Value::String(row_text(alloc, lattice, y)?))?;
    }
    Ok(rows)
}

// Sets the value at a key.
fn insert(alloc: Global, table: &mut Table, key: &str, value: Value) -> Result<(), AllocError>
    ensures { OnOk result (table_view table.new
        ≡ insert_member key.now (view value) (table_view table.old)) }
{
    let key = String::from_str(alloc, key)?;
    match table.insert(key, value) {
        Ok(_) => Ok(()),
        Err(_) => Err(AllocError),
    }
}

// The name of a chirality, and its seed, if it has one.
fn name_and_seed(chirality: Chirality) -> (&'static str, Option<u64>)
    ensures name { result.0.now ≡ (name_and_seed chirality).0 }
    ensures seed { result.1 ≡ (name_and_seed chirality).1 }
{
    match chirality {
        Chirality::Seeded(seed) => ("seeded", Some(seed)),
        Chirality::Left => ("left", None),
        Chirality::Right => ("right", None),
    }
}

fn integer(number: u64) -> Value
    requires { number < 2 ^ 63 }
    ensures { view result ≡ integer (pos number) }
{
    Value::Integer(number as i64)
}

// Sets the seed, if there is one.
fn insert_seed(alloc: Global, table: &mut Table, seed: Option<u64>) -> Result<(), AllocError>
    requires { IfSome seed (λ n. n < 2 ^ 63) }
    ensures { OnOk result (table_view table.new ≡ insert_seed seed (table_view table.old)) }
{
    match seed {
        Some(seed) => insert(alloc, table, "seed", integer(seed)),
        None => Ok(()),
    }
}

fn build_table(
    alloc: Global,
    gas: &str,
    cells: Vec<Value>,
    chirality: Chirality,
    generation: u64,
) -> Result<Table, AllocError>
    requires { can_be_stated chirality generation ≡ true }
    ensures { IfOk result (λ t.
        table_view t ≡ insert_all gas.now (map view cells.items) chirality generation) }
{
    let (name, seed) = name_and_seed(chirality);
    let mut table = Table::new(alloc);
    let name = Value::string(alloc, name)?;
    insert(alloc, &mut table, "version", Value::Integer(2))?;
    insert(alloc, &mut table, "gas", Value::string(alloc, gas)?)?;
    insert(alloc, &mut table, "chirality", name)?;
    insert(alloc, &mut table, "generation", integer(generation))?;
    insert(alloc, &mut table, "cells", Value::Array(cells))?;
    insert_seed(alloc, &mut table, seed)?;
    Ok(table)
}

fn build_text<G: Gas>(
    alloc: Global,
    gas: KnownGas,
    lattice: &Lattice<G>,
    chirality: Chirality,
    generation: u64,
) -> Result<String, AllocError>
    requires stated { can_be_stated chirality generation ≡ true }
    requires known { rules_of gas ≡ G.rules }
    ensures scene { IfOk result (λ s. scene_of_text (string_bytes s) ≡ Ok (record {
      lattice = record { gas = gas; lattice = lattice.now };
      chirality = chirality;
      generation = generation;
    })) }
    ensures table { IfOk result (λ s. parse_document (string_bytes s) ≡ Some (checkpoint_table
        (record { gas = gas; lattice = lattice.now }) chirality generation)) }
{
    let cells = row_values(alloc, lattice)?;
    let table = build_table(alloc, gas.name(), cells, chirality, generation)?;
    match toml::table_to_string_pretty(alloc, &table) {
        Ok(text) => Ok(text),
        Err(_) => Err(AllocError),
    }
}

// Whether a scene can state this chirality and this generation.
fn can_be_stated(chirality: Chirality, generation: u64) -> bool
    ensures { result ≡ can_be_stated chirality generation }
{
    let (_, seed) = name_and_seed(chirality);
    seed.is_none_or(|seed| seed < 1 << 63) && generation <= LAST_GENERATION
}

/// The text of a scene of version 2 with a lattice, its chirality and its generation.
/// `scene::read` returns the same three, or `Memory`, so a run from the text goes on as from the
/// lattice.
///
/// The text is a TOML document with the keys `cells`, `chirality`, `gas`, `generation` and
/// `version`. It has `seed` if and only if the chirality is seeded. `cells` are the rows from the
/// top, in the printed form.
///
/// The error is `Range` if and only if the generation is above 1,000,000,000,000 or a seed is above
/// 2^63 - 1. Any other error is `Memory`.
pub fn checkpoint(
    alloc: Global,
    lattice: &AnyLattice,
    chirality: Chirality,
    generation: u64,
) -> Result<String, SceneError>
    ensures scene { IfOk result (λ s. scene_of_text (string_bytes s) ≡ Ok (record {
      lattice = gas_lattice lattice.now;
      chirality = chirality;
      generation = generation;
    })) }
    ensures table { IfOk result (λ s. parse_document (string_bytes s)
        ≡ Some (checkpoint_table (gas_lattice lattice.now) chirality generation)) }
    ensures range { (result ≡ Err Range) ↔ (can_be_stated chirality generation ≡ false) }
    ensures errors { IfErr result (λ e. (e ≡ Range) ⊎ (e ≡ Memory)) }
{
    if !can_be_stated(chirality, generation) {
        return Err(SceneError::Range);
    }
    let text = with_lattice!(
        lattice,
        typed => build_text(alloc, lattice.gas(), typed, chirality, generation)
    )?;
    Ok(text)
}
