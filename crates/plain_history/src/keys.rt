//! The keys of rows: their values at the places of a group.

ghost use Rattle.std.specs.Prelude.{◌≡◌, slice_get, unwrap_or};
ghost use Rattle.cube_values.specs.Answer.{value_at, key_of};
ghost use Rattle.cube_values.specs.Values.{value_eq, value_cmp, values_eq, values_cmp};

use cube_values::{Row, Value};
use std::cmp::Ordering;

/// What stands for a value that a row does not have.
pub const ABSENT: Value = Value::Int(0);

/// The value of a row at a place, or else another one.
pub fn value_or<'a>(row: &'a Row, place: u32, absent: &'a Value) -> &'a Value
    ensures { result.now ≡ unwrap_or (slice_get row.now.dims place) absent.now }
{
    match row.dims.as_slice().get(place as usize) {
        Some(value) => value,
        None => absent,
    }
}

/// Which of two rows comes first by their values at a place.
fn compare_at(place: u32, a: &Row, b: &Row) -> Ordering
    ensures { result ≡ value_cmp (value_at a.now place) (value_at b.now place) }
{
    let absent = ABSENT;
    value_or(a, place, &absent).compare(value_or(b, place, &absent))
}

/// Which of two rows comes first by their keys.
pub fn compare_keys(group: &[u32], a: &Row, b: &Row) -> Ordering
    ensures { result ≡ values_cmp (key_of group.now a.now) (key_of group.now b.now) }
{
    let mut left = group;
    'places: while let [place, rest @ ..] = left {
        let order = compare_at(*place, a, b);
        if order != Ordering::Equal {
            return order;
        }
        left = rest;
    }
    Ordering::Equal
}

/// Whether two rows have one value at a place.
fn is_same_at(place: u32, a: &Row, b: &Row) -> bool
    ensures { result ≡ value_eq (value_at a.now place) (value_at b.now place) }
{
    let absent = ABSENT;
    value_or(a, place, &absent) == value_or(b, place, &absent)
}

/// Whether two rows have one key.
pub fn is_same_key(group: &[u32], a: &Row, b: &Row) -> bool
    ensures { result ≡ values_eq (key_of group.now a.now) (key_of group.now b.now) }
{
    let mut left = group;
    'places: while let [place, rest @ ..] = left {
        if !is_same_at(*place, a, b) {
            return false;
        }
        left = rest;
    }
    true
}
