//! A scene, and what a text holds as a scene. The helpers promise nothing, because the promises of reading
//! a scene are long.

use gas_geom::gas::Gas;
use gas_rows::lattice::Lattice;
use gas_scene::scene::{Scene, read};
use gas_scene::with_lattice;
use std::alloc::Global;
use std::fmt::Write;
use std::process::Abort;
use std::test::Fail;

/// A scene of four columns and three rows, with one particle `01` at (3, 1).
pub(super) const DRIFT: &str =
    "gas = \"fhp1\"\nchirality = \"left\"\ncells = [\"........\", \"......01\", \"........\"]\n";

// Appends a cell as two characters.
fn push_cell<G: Gas>(text: &mut String, lattice: &Lattice<G>, x: u32, y: u32) -> Result<(), Fail> {
    let size = lattice.channel().size();
    if x >= size.width() || y >= size.height() {
        return Ok(());
    }
    let state = lattice.cell(x, y);
    if lattice.channel().is_solid(x, y) {
        text.push_str("##")?;
    } else if state == 0 {
        text.push_str("..")?;
    } else {
        write!(text, "{state:02x}")?;
    }
    Ok(())
}

// The name of the gas, and then the cells as two characters each, a line per row.
fn lattice_text<G: Gas>(alloc: Global, name: &str, lattice: &Lattice<G>) -> Result<String, Fail> {
    let size = lattice.channel().size();
    let mut text = String::new(alloc);
    text.push_str(name)?;
    for y in 0..size.height() {
        text.push_str("\n")?;
        for x in 0..size.width() {
            push_cell(&mut text, lattice, x, y)?;
        }
    }
    Ok(text)
}

fn scene_cells(alloc: Global, scene: &Scene) -> Result<String, Fail> {
    let name = scene.lattice().gas().name();
    with_lattice!(scene.lattice(), lattice => lattice_text(alloc, name, lattice))
}

// The scene of a text, as one text: its chirality, its generation, the name of its gas, and its
// cells.
fn scene_text(alloc: Global, text: &str) -> Result<String, Fail> {
    let scene = read(alloc, text.as_bytes())?;
    let cells = scene_cells(alloc, &scene)?;
    let chirality = scene.chirality();
    let generation = scene.generation();
    Ok(format!(in alloc; "{chirality:?} {generation} {cells}")?)
}

/// Asserts that the text is this scene.
pub(super) fn holds(rt: &impl Abort, alloc: Global, text: &str, wanted: &str) -> Result<(), Fail> {
    let found = scene_text(alloc, text)?;
    assert!(rt; found.as_str() == wanted, "{text}");
    Ok(())
}
