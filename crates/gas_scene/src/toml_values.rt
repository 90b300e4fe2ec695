//! Values read as the types of their keys.

ghost use Rattle.std.specs.Prelude.{◌≡◌, true, [], map, option_map};
ghost use Rattle.std.specs.Option.{option_map_or};
ghost use Rattle.toml.specs.Data.{get_member, as_str, as_integer};
ghost use Rattle.toml.specs.View.{view, table_view};
ghost use Rattle.gas_scene.specs.Table.{text_of, elements_of, number, rectangle_of, placement_of, value_at};
ghost use Rattle.gas_scene.specs.Keys.{is_tuple};
ghost use Rattle.gas_scene.specs.Inner.Models.{is_of};

use gas_layout::area::{Placement, Rectangle};
use toml::{Table, Value};

/// The value at a key.
pub(crate) fn value_at<'a>(table: &'a Table, key: &str) -> Option<&'a Value>
    ensures { option_map (λ v. view v.now) result ≡ get_member key.now (table_view table.now) }
{
    table.get(key)
}

/// The integer at a key, or `otherwise` if there is none.
pub(crate) fn integer_at(table: &Table, key: &str, otherwise: i64) -> i64
    ensures { result ≡ value_at as_integer key.now otherwise (table_view table.now) }
{
    value_at(table, key)
        .and_then(|value| value.as_integer())
        .unwrap_or(otherwise)
}

/// The text at a key, or `otherwise` if there is none.
pub(crate) fn text_at<'a>(table: &'a Table, key: &str, otherwise: &'a str) -> &'a str
    ensures { result.now ≡ value_at as_str key.now otherwise.now (table_view table.now) }
{
    value_at(table, key)
        .and_then(|value| value.as_str())
        .unwrap_or(otherwise)
}

// The elements of an array, and no element for another type.
fn elements(value: &Value) -> &[Value]
    ensures { map view result.now ≡ elements_of (view value.now) }
{
    match value {
        Value::Array(elements) => elements.as_slice(),
        _ => &[],
    }
}

// Whether the value is an array of `n` integers.
fn is_tuple(value: &Value, n: usize) -> bool
    ensures { result ≡ is_tuple n (view value.now) }
{
    let numbers = elements(value);
    numbers.len() == n && (value.is_array() && numbers.iter().all(|number| number.is_integer()))
}

/// The elements of the array of texts at a key, if there is a value.
pub(crate) fn texts_at<'a>(table: &'a Table, key: &str) -> Option<&'a [Value]>
    ensures { option_map (λ vs. map text_of (map view vs.now)) result
        ≡ option_map (λ d. map text_of (elements_of d)) (get_member key.now (table_view table.now)) }
{
    value_at(table, key).map(elements)
}

/// The elements of the array at a key, or no element if there is none.
pub(crate) fn elements_at<'a>(table: &'a Table, key: &str) -> &'a [Value]
    ensures { map view result.now
        ≡ option_map_or elements_of (get_member key.now (table_view table.now)) [] }
{
    value_at(table, key).map_or(&[], elements)
}

/// The type of the value at a key.
#[derive(Clone, Copy)]
pub(crate) enum ValueType {
    Integer,
    Text,
    /// An array of texts.
    Texts,
    /// An array of arrays of this many integers.
    Tuples(usize),
}

impl ValueType {
    // Whether the value has this type.
    fn is_of(self, value: &Value) -> bool
        ensures { result ≡ is_of self (view value.now) }
    {
        match self {
            ValueType::Integer => value.is_integer(),
            ValueType::Text => value.is_str(),
            ValueType::Texts => value.is_array()
                && elements(value).iter().all(|text| text.is_str()),
            ValueType::Tuples(n) => {
                value.is_array() && elements(value).iter().all(|tuple| is_tuple(tuple, n))
            }
        }
    }

    /// Whether the value at a key has this type, if there is one.
    pub(crate) fn is_at(self, table: &Table, key: &str) -> bool
        ensures { result ≡ option_map_or (is_of self) (get_member key.now (table_view table.now)) true }
    {
        value_at(table, key).is_none_or(|value| self.is_of(value))
    }
}

/// A text, or the empty text for another type.
pub(crate) fn text_of(value: &Value) -> &str
    ensures { result.now ≡ text_of (view value.now) }
{
    value.as_str().unwrap_or("")
}

// Integer `k` of an array, or 0.
fn number(value: &Value, k: usize) -> i64
    ensures { result ≡ number k (view value.now) }
{
    match elements(value).get(k) {
        Some(value) => value.as_integer().unwrap_or(0),
        None => 0,
    }
}

/// The rectangle of `[x, y, w, h]`.
pub(crate) fn rectangle(value: &Value) -> Rectangle
    ensures { result ≡ rectangle_of (view value.now) }
{
    Rectangle {
        x: number(value, 0),
        y: number(value, 1),
        width: number(value, 2),
        height: number(value, 3),
    }
}

/// The placement of `[x, y, state]`.
pub(crate) fn placement(value: &Value) -> Placement
    ensures { result ≡ placement_of (view value.now) }
{
    Placement {
        x: number(value, 0),
        y: number(value, 1),
        state: number(value, 2),
    }
}
