//! The table of a scene: its values as texts and numbers, and in their ranges the ones that maps and
//! areas share.

ghost use Rattle.std.specs.Prelude.{◌≡◌, ◌&&◌, ◌||◌, not, pos, codes, string_bytes, ◌≤◌, Some, None, is_some, nat_abs, int_le, IfSome, IfErr, IfOk};
ghost use Rattle.std.specs.BTreeMap.{keys as map_keys};
ghost use Rattle.std.specs.List.{list_all, list_any};
ghost use Rattle.std.specs.Ordering.{int_eq};
ghost use Rattle.std.specs.Str.{bytes_eq};
ghost use Rattle.toml.specs.View.{table_view};
ghost use Rattle.gas_scene.specs.Catalog.{chirality_named};
ghost use Rattle.gas_scene.specs.Keys.{are_known, area_keys, is_typed};
ghost use Rattle.gas_scene.specs.Table.{table_of};
ghost use Rattle.gas_scene.specs.Refusals.{has, most_side, gas_of, is_common_in_range, table_refusal};
ghost use Rattle.gas_scene.specs.Inner.Models.{is_known, table_model};
ghost use Rattle.gas_layout.specs.Layout.{between};
ghost use Rattle.gas_scene.specs.Scene.{scene_of};
ghost use Rattle.gas_scene.specs.declared.scene_table.TheConstants.{LAST_GENERATION};

use crate::catalog::KnownGas;
use crate::error::SceneError;
use crate::toml_values::{ValueType, elements_at, integer_at, text_at, texts_at, value_at};
use gas_geom::size::MOST_SIDE;
use gas_layout::area::is_between;
use gas_rows::chirality::Chirality;
use toml::{Table, Value};

/// The last generation that a scene can have.
pub const LAST_GENERATION: u64 = 1_000_000_000_000;

// The most columns of a scene of version 1, and the most rows.
const FIRST_MOST_SIDE: u32 = 4096;

// The keys of both forms, and the one of a map, each with the type of its value.
const KEYS: [(&str, ValueType); 6] = [
    ("version", ValueType::Integer),
    ("generation", ValueType::Integer),
    ("seed", ValueType::Integer),
    ("gas", ValueType::Text),
    ("chirality", ValueType::Text),
    ("cells", ValueType::Texts),
];

// The keys of an area.
const AREA_KEYS: [(&str, ValueType); 5] = [
    ("width", ValueType::Integer),
    ("height", ValueType::Integer),
    ("rate", ValueType::Integer),
    ("solid", ValueType::Tuples(4)),
    ("particles", ValueType::Tuples(3)),
];

/// The table of a scene: the rows of a map, from the top, or none and an area. An absent key has
/// its default. The values have their types, but their ranges are not checked yet.
#[derive(Clone, Copy)]
pub struct SceneTable<'a> {
    pub version: i64,
    pub gas: &'a str,
    pub chirality: &'a str,
    pub seed: i64,
    pub generation: i64,
    pub cells: Option<&'a [Value]>,
    pub width: i64,
    pub height: i64,
    pub rate: i64,
    pub solid: &'a [Value],
    pub particles: &'a [Value],
}

// Whether there is a value at the key.
fn has(table: &Table, key: &str) -> bool
    ensures { result ≡ has key.now (table_view table.now) }
{
    value_at(table, key).is_some()
}

// Whether there is a key of an area.
fn has_area(table: &Table) -> bool
    ensures { result ≡ list_any (λ k. has k.0 (table_view table.now)) area_keys }
{
    AREA_KEYS.iter().any(|(key, _)| has(table, key))
}

// Whether a scene can have the key.
fn is_known(key: &str) -> bool
    ensures { result ≡ is_known key.now }
{
    KEYS.iter()
        .chain(AREA_KEYS.iter())
        .any(|(known, _)| key == *known)
}

// Whether the keys of the table are keys of a scene.
fn are_known(table: &Table) -> bool
    ensures { result ≡ list_all (λ k. is_known (string_bytes k)) (map_keys table.now) }
{
    table.keys().all(|key| is_known(key.as_str()))
}

// Whether scenes of the table's version have each of its keys.
fn has_known_keys(table: &Table) -> bool
    ensures { result ≡ (are_known (table_view table.now)
        && (int_eq (table_of (table_view table.now)).version (pos 2)
        || not (has (codes "generation") (table_view table.now)))) }
{
    are_known(table) && (integer_at(table, "version", 1) == 2 || !has(table, "generation"))
}

// Whether there is a gas, and a map or the size of an area.
fn is_complete(table: &Table) -> bool
    ensures { result ≡ (has (codes "gas") (table_view table.now)
        && (has (codes "cells") (table_view table.now)
        || (has (codes "width") (table_view table.now) && has (codes "height") (table_view table.now)))) }
{
    has(table, "gas") && (has(table, "cells") || has(table, "width") && has(table, "height"))
}

// Whether each value has the type of its key.
fn is_typed(table: &Table) -> bool
    ensures { result ≡ is_typed (table_view table.now) }
{
    KEYS.iter()
        .chain(AREA_KEYS.iter())
        .all(|(key, value_type)| value_type.is_at(table, key))
}

/// The values that maps and areas share.
#[derive(Clone, Copy)]
pub struct CommonValues {
    pub gas: KnownGas,
    pub chirality: Chirality,
    pub seed: u64,
    pub generation: u64,
    /// The most columns, and the most rows.
    pub most_side: u32,
}

// The most columns of a scene of a version, and the most rows.
fn most_side(version: i64) -> u32
    ensures { result ≡ most_side version }
{
    if version == 2 {
        MOST_SIDE
    } else {
        FIRST_MOST_SIDE
    }
}

// The chirality of this name. A seeded one has this seed.
fn chirality(name: &str, seed: u64) -> Option<Chirality>
    ensures { result ≡ chirality_named name.now seed }
{
    match name {
        "seeded" => Some(Chirality::Seeded(seed)),
        "left" => Some(Chirality::Left),
        "right" => Some(Chirality::Right),
        _ => None,
    }
}

impl<'a> SceneTable<'a> {
    // The values of a table, in which each has the type of its key.
    fn read(table: &'a Table) -> SceneTable<'a>
        ensures { table_model result ≡ table_of (table_view table.now) }
    {
        SceneTable {
            version: integer_at(table, "version", 1),
            generation: integer_at(table, "generation", 0),
            seed: integer_at(table, "seed", 0),
            gas: text_at(table, "gas", ""),
            chirality: text_at(table, "chirality", "seeded"),
            cells: texts_at(table, "cells"),
            width: integer_at(table, "width", 0),
            height: integer_at(table, "height", 0),
            rate: integer_at(table, "rate", 0),
            solid: elements_at(table, "solid"),
            particles: elements_at(table, "particles"),
        }
    }

    /// The scene's table, or the first fault of the keys and the types.
    #[tactic(auto, unfolding(crate::specs::Refusals::table_refusal))]
    pub(crate) fn of(table: &'a Table) -> Result<SceneTable<'a>, SceneError>
        ensures refused { IfErr result (λ e. table_refusal (table_view table.now) ≡ Some e) }
        ensures accepted { IfOk result (λ t. table_refusal (table_view table.now) ≡ None) }
        ensures value { IfOk result (λ t. table_model t ≡ table_of (table_view table.now)) }
    {
        if !has_known_keys(table) {
            return Err(SceneError::UnknownKey);
        }
        if has(table, "cells") && has_area(table) {
            return Err(SceneError::BothForms);
        }
        if !is_complete(table) {
            return Err(SceneError::Missing);
        }
        if !is_typed(table) {
            return Err(SceneError::WrongType);
        }
        Ok(SceneTable::read(table))
    }

    // Whether the numbers are in their ranges.
    fn has_common_numbers(&self) -> bool
        ensures { result ≡ (between (pos 1) (pos 2) self.now.version
            && (int_le (pos 0) self.now.seed
            && between (pos 0) (pos 1000000000000) self.now.generation)) }
    {
        is_between(1, 2, self.version)
            && 0 <= self.seed
            && is_between(0, LAST_GENERATION as i64, self.generation)
    }

    /// The values that maps and areas share, or None if one is out of its range.
    pub(crate) fn common_values(&self) -> Option<CommonValues>
        ensures within { is_some result ≡ is_common_in_range (table_model self.now) }
        ensures gas { IfSome result (λ c. c.gas ≡ gas_of (table_model self.now)) }
        ensures chirality { IfSome result (λ c. c.chirality ≡ (scene_of (table_model self.now)).chirality) }
        ensures seed { IfSome result (λ c. c.seed ≡ nat_abs self.now.seed) }
        ensures generation { IfSome result (λ c. c.generation ≡ nat_abs self.now.generation) }
        ensures few { IfSome result (λ c. c.generation ≤ LAST_GENERATION) }
        ensures most { IfSome result (λ c. c.most_side ≡ most_side self.now.version) }
    {
        if !self.has_common_numbers() {
            return None;
        }
        let seed = self.seed.unsigned_abs();
        Some(CommonValues {
            gas: KnownGas::named(self.gas)?,
            chirality: chirality(self.chirality, seed)?,
            seed,
            generation: self.generation.unsigned_abs(),
            most_side: most_side(self.version),
        })
    }
}
