//! The coordinates among the values of a test, with each text read as its code.

ghost use Rattle.std.specs.Prelude.{◌≡◌, ◌==◌, [], ℕ, fold, IfOk};
ghost use Rattle.std.specs.List.{cons_option, list_any};
ghost use Rattle.std.specs.Option.{option_map};
ghost use Rattle.cube_values.specs.Spans.{Rises};
ghost use Rattle.cube_values.specs.declared.value.Value.TheVariants.{Int};
ghost use Rattle.condition_spans.specs.CodedConditions.{number_by_codes, codes_behind, coded_values};
ghost use Rattle.condition_spans.specs.Spans.{coord_of, coords_among};

use crate::grow::append;
use cube_values::Value;
use std::alloc::{AllocError, Global};

fn next_number(codes: &[Option<u32>]) -> Option<i64>
    ensures { result ≡ number_by_codes codes.now (Value.Text []) }
{
    match codes {
        [Some(code), ..] => Some(i64::from(*code)),
        _ => None,
    }
}

/// The number that a value is read as.
fn number_by_codes(codes: &[Option<u32>], value: &Value) -> Option<i64>
    ensures { result ≡ number_by_codes codes.now value.now }
{
    match value {
        Value::Int(n) => Some(*n),
        Value::Text(_) => next_number(codes),
    }
}

fn codes_without_first(codes: &[Option<u32>]) -> &[Option<u32>]
    ensures { result.now ≡ codes_behind codes.now (Value.Text []) }
{
    match codes {
        [_, rest @ ..] => rest,
        [] => codes,
    }
}

/// The codes behind that of a value.
fn codes_behind<'a>(codes: &'a [Option<u32>], value: &Value) -> &'a [Option<u32>]
    ensures { result.now ≡ codes_behind codes.now value.now }
{
    match value {
        Value::Int(_) => codes,
        Value::Text(_) => codes_without_first(codes),
    }
}

/// The codes behind those of values.
pub fn codes_behind_all<'a>(codes: &'a [Option<u32>], values: &[Value]) -> &'a [Option<u32>]
    ensures { result.now ≡ fold codes_behind codes.now values.now }
{
    let mut codes_left = codes;
    let mut values_left = values;
    'values: while let [value, values_rest @ ..] = values_left {
        codes_left = codes_behind(codes_left, value);
        values_left = values_rest;
    }
    codes_left
}

/// The coordinate that a number is.
fn coord_of(cardinality: u32, n: i64) -> Option<u32>
    ensures { result ≡ coord_of cardinality (Int n) }
{
    if n < 0 || i64::from(cardinality) <= n {
        None
    } else {
        Some(n as u32)
    }
}

fn coord_for(cardinality: u32, number: Option<i64>) -> Option<u32>
    ensures { cons_option result []
        ≡ coords_among cardinality (cons_option (option_map Int number) []) }
{
    match number {
        Some(n) => coord_of(cardinality, n),
        None => None,
    }
}

/// The coordinates among values, in the order of the values.
fn coords_among(
    alloc: Global,
    cardinality: u32,
    values: &[Value],
    codes: &[Option<u32>],
) -> Result<Vec<u32>, AllocError>
    ensures { IfOk result (λ coords. coords.items
        ≡ coords_among cardinality (coded_values codes.now values.now)) }
{
    let mut coords = Vec::new(alloc);
    let mut codes_left = codes;
    let mut values_left = values;
    'values: while let [value, values_rest @ ..] = values_left {
        let coord = coord_for(cardinality, number_by_codes(codes_left, value));
        append(&mut coords, coord)?;
        codes_left = codes_behind(codes_left, value);
        values_left = values_rest;
    }
    Ok(coords)
}

/// Puts numbers in order and leaves each once.
fn make_rising(coords: &mut Vec<u32>)
    ensures rises { Rises coords.new.items }
    ensures same { (coord : ℕ) → list_any (λ c. c == coord) coords.new.items
        ≡ list_any (λ c. c == coord) coords.old.items }
{
    coords.sort_unstable();
    coords.dedup();
}

/// The coordinates among values, which rise strictly.
pub fn rising_coords(
    alloc: Global,
    cardinality: u32,
    values: &[Value],
    codes: &[Option<u32>],
) -> Result<Vec<u32>, AllocError>
    ensures rises { IfOk result (λ coords. Rises coords.items) }
    ensures same { IfOk result (λ coords. (coord : ℕ) → list_any (λ c. c == coord) coords.items
        ≡ list_any (λ c. c == coord) (coords_among cardinality
        (coded_values codes.now values.now))) }
{
    let mut coords = coords_among(alloc, cardinality, values, codes)?;
    make_rising(&mut coords);
    Ok(coords)
}
