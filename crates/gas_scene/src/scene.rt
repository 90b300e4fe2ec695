//! Scenes, and the reading of a scene's text.

ghost use Rattle.std.specs.Prelude.{◌≡◌, ◌⊎◌, Err, ◌≤◌, true, Some, None, nat_abs, IfOk, IfErr};
ghost use Rattle.toml.specs.View.{table_view};
ghost use Rattle.gas_scene.specs.declared.error.SceneError.TheVariants.{Memory};
ghost use Rattle.gas_scene.specs.Scene.{table_answer, scene_of_text, scene_of};
ghost use Rattle.gas_scene.specs.Catalog.{gas_lattice};
ghost use Rattle.gas_scene.specs.Refusals.{gas_of, is_common_in_range, most_side, value_refusal};
ghost use Rattle.gas_scene.specs.Inner.Models.{table_model};

use crate::catalog::AnyLattice;
use crate::error::SceneError;
use crate::map_form;
pub use crate::scene_table::LAST_GENERATION;
use crate::scene_table::{CommonValues, SceneTable};
use gas_rows::chirality::Chirality;
use std::alloc::Global;
use std::marker::Model;
use toml::Table;

/// A lattice, the source of the random bits of its collisions, and its generation. The first step
/// uses the random bits of this generation.
#[derive(Drop)]
pub struct Scene {
    lattice: AnyLattice,
    chirality: Chirality,
    generation: u64,
}

impl Model for Scene {
    ghost use Rattle.std.specs.Prelude.{◌≤◌};
    ghost use Rattle.gas_scene.specs.Catalog.{gas_lattice};
    ghost use Rattle.gas_scene.specs.Scene.{SceneModel};

    ghost Value = { SceneModel };

    ghost view = { λ s. record {
      lattice = gas_lattice s.lattice;
      chirality = s.chirality;
      generation = s.generation;
    } };

    ghost invariant = { λ s. s.generation ≤ 1000000000000 };
}

impl Scene {
    /// The lattice.
    pub fn lattice(&self) -> &AnyLattice
        ensures value { gas_lattice result.now ≡ self.now.lattice }
    {
        &self.lattice
    }

    /// The source of the random bits of its collisions.
    pub fn chirality(&self) -> Chirality
        ensures value { result ≡ self.now.chirality }
    {
        self.chirality
    }

    /// The generation of the lattice, 0 to 1,000,000,000,000.
    pub fn generation(&self) -> u64
        ensures value { result ≡ self.now.generation }
        ensures few { result ≤ 1000000000000 }
    {
        self.generation
    }
}

impl SceneTable<'_> {
    // The lattice of the map or of the area, or the first fault of its values.
    #[tactic(auto, unfolding(crate::specs::Refusals::value_refusal))]
    fn lattice(&self, alloc: Global, common: CommonValues) -> Result<AnyLattice, SceneError>
        requires common { is_common_in_range (table_model self.now) ≡ true }
        requires gas { common.gas ≡ gas_of (table_model self.now) }
        requires seed { common.seed ≡ nat_abs self.now.seed }
        requires most { common.most_side ≡ most_side self.now.version }
        ensures refused { IfErr result (λ e.
            (value_refusal (table_model self.now) ≡ Some e) ⊎ (e ≡ Memory)) }
        ensures accepted { IfOk result (λ l. value_refusal (table_model self.now) ≡ None) }
        ensures value { IfOk result (λ l. gas_lattice l ≡ (scene_of (table_model self.now)).lattice) }
    {
        match self.cells {
            Some(rows) => map_form::lattice(alloc, common.gas, common.most_side, rows),
            None => self.area_lattice(alloc, common),
        }
    }

    // The scene, or the first fault of the values.
    #[tactic(auto, unfolding(crate::specs::Refusals::value_refusal))]
    fn scene(&self, alloc: Global) -> Result<Scene, SceneError>
        ensures refused { IfErr result (λ e.
            (value_refusal (table_model self.now) ≡ Some e) ⊎ (e ≡ Memory)) }
        ensures accepted { IfOk result (λ s. value_refusal (table_model self.now) ≡ None) }
        ensures value { IfOk result (λ s. s ≡ scene_of (table_model self.now)) }
    {
        match self.common_values() {
            Some(common) => Ok(Scene {
                lattice: self.lattice(alloc, common)?,
                chirality: common.chirality,
                generation: common.generation,
            }),
            None => Err(SceneError::Range),
        }
    }
}

// The scene of a table, or its first fault.
#[tactic(auto, unfolding(crate::specs::Scene::table_answer))]
fn read_table(alloc: Global, table: &Table) -> Result<Scene, SceneError>
    ensures { (result ≡ table_answer (table_view table.now)) ⊎ (result ≡ Err Memory) }
{
    let table = SceneTable::of(table)?;
    table.scene(alloc)
}

/// Reads a scene, a TOML document in UTF-8 with its keys at the top level.
///
/// Both forms have these keys. Only `gas` is required, the name of a `KnownGas`. `version` is 1 or
/// 2, and 1 by default. `chirality` is `"seeded"`, `"left"` or `"right"`, and `"seeded"` by
/// default. `seed` is 0 or more, and 0 by default. Only version 2 has `generation`, the generation
/// of the given lattice: 0 to 1,000,000,000,000, and 0 by default.
///
/// The sides of a lattice have 1 to 4096 cells in version 1, and 1 to 65,536 in version 2.
///
/// A map has `cells`, texts of one length: the rows from the top, two characters per cell. `..` and
/// `00` are empty, and `##` is solid. Any other cell is its state as two digits of
/// `0123456789abcdef`, in which bit `i` is direction `i`.
///
/// An area has `width` and `height`. It may have `solid`, rectangles `[x, y, w, h]` in it, `rate`,
/// 0 to 1000, and `particles`, entries `[x, y, state]` at fluid cells. The rectangles are solid.
/// The fluid cells are filled at the rate in thousandths by the key stream of the seed. Then each
/// entry in order sets the state of its cell.
///
/// The error is from the first check that refuses the text. The order of checks is `Syntax`,
/// `UnknownKey`, `BothForms`, `Missing`, `WrongType`, `Range`, `RowLength`, `BadCell`. `Memory` is
/// returned while the text is parsed, from the check for `Range` on, or while the lattice is built.
pub fn read(alloc: Global, text: &[u8]) -> Result<Scene, SceneError>
    ensures answer { (result ≡ scene_of_text text.now) ⊎ (result ≡ Err Memory) }
{
    match toml::table_from_slice(alloc, text) {
        Ok(table) => read_table(alloc, &table),
        Err(error) if error.is_memory() => Err(SceneError::Memory),
        Err(_) => Err(SceneError::Syntax),
    }
}
