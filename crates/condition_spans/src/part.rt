//! The coordinates of a dimension that conditions ask for.

ghost use Rattle.std.specs.Prelude.{◌≡◌, ◌<◌, ◌==◌, ◌&&◌, ◌||◌, not, [], ◌∷◌, ℕ, nat_le, nat_lt, pos, IfOk, filter};
ghost use Rattle.std.specs.List.{list_any};
ghost use Rattle.cube_values.specs.Regions.{passes, lies_between};
ghost use Rattle.cube_values.specs.Values.{value_eq};
ghost use Rattle.cube_values.specs.Spans.{part_has, IsSoundPart, Rises};
ghost use Rattle.cube_values.specs.declared.value.Value.TheVariants.{Int};
ghost use Rattle.condition_spans.specs.CodedConditions.{coded_values, values_of_test, coded_test, coded_condition, coded_conditions};
ghost use Rattle.condition_spans.specs.Spans.{IsPartOf, passes_at, passes_here, start_of, coord_behind};

use crate::coords::{codes_behind_all, rising_coords};
use cube_values::{Condition, Coords, Part, Value, ValueTest};
use std::alloc::{AllocError, Global};
use std::slice;

/// Those coordinates that lie in a part.
fn coords_within(alloc: Global, coords: &[u32], part: &Part) -> Result<Vec<u32>, AllocError>
    ensures { IfOk result (λ within. within.items ≡ filter (part_has part.now) coords.now) }
{
    let mut within = Vec::new(alloc);
    for coord in coords {
        if part.has(*coord) {
            within.push(*coord)?;
        }
    }
    Ok(within)
}

/// A listed part, as far as it lies in another.
fn listed_within(alloc: Global, coords: &[u32], part: &Part) -> Result<Part, AllocError>
    requires { Rises coords.now }
    ensures has { IfOk result (λ p. (coord : ℕ) → part_has p coord
        ≡ (part_has (Part.Listed coords.now) coord && part_has part.now coord)) }
    ensures sound { IfOk result (λ p. IsSoundPart p) }
{
    let within = coords_within(alloc, coords, part)?;
    Ok(Part::Listed(Coords::from_vec(within)))
}

fn copy_part(part: &Part) -> Result<Part, AllocError>
    ensures { IfOk result (λ p. p ≡ part.now) }
{
    part.clone()
}

/// What lies between two coordinates and between two others.
fn both_between(low: u32, high: u32, from: u32, to: u32) -> Part
    ensures has { (coord : ℕ) → part_has result coord
        ≡ (part_has (Part.Between low high) coord && part_has (Part.Between from to) coord) }
    ensures sound { IsSoundPart result }
{
    Part::Between(low.max(from), high.min(to))
}

/// A listed part, as far as it lies between two coordinates.
fn listed_between(alloc: Global, low: u32, high: u32, coords: &[u32]) -> Result<Part, AllocError>
    requires { Rises coords.now }
    ensures has { IfOk result (λ p. (coord : ℕ) → part_has p coord
        ≡ (part_has (Part.Between low high) coord && part_has (Part.Listed coords.now) coord)) }
    ensures sound { IfOk result (λ p. IsSoundPart p) }
{
    listed_within(alloc, coords, &Part::Between(low, high))
}

/// A part, as far as it lies between two coordinates.
fn shared_between(alloc: Global, low: u32, high: u32, part: &Part) -> Result<Part, AllocError>
    requires { IsSoundPart part.now }
    ensures has { IfOk result (λ p. (coord : ℕ) → part_has p coord
        ≡ (part_has (Part.Between low high) coord && part_has part.now coord)) }
    ensures sound { IfOk result (λ p. IsSoundPart p) }
{
    match part {
        Part::All => Ok(Part::Between(low, high)),
        Part::Between(from, to) => Ok(both_between(low, high, *from, *to)),
        Part::Listed(coords) => listed_between(alloc, low, high, coords.as_slice()),
    }
}

/// The coordinates that lie in both parts.
fn shared_part(alloc: Global, first: &Part, second: &Part) -> Result<Part, AllocError>
    requires first { IsSoundPart first.now }
    requires second { IsSoundPart second.now }
    ensures has { IfOk result (λ p. (coord : ℕ) → part_has p coord
        ≡ (part_has first.now coord && part_has second.now coord)) }
    ensures sound { IfOk result (λ p. IsSoundPart p) }
{
    match first {
        Part::All => copy_part(second),
        Part::Between(low, high) => shared_between(alloc, *low, *high, second),
        Part::Listed(coords) => listed_within(alloc, coords.as_slice(), second),
    }
}

/// The first coordinate that is not below a number.
fn start_of(low: i64) -> u64
    ensures { result ≡ start_of low }
{
    if low < 0 { 0 } else { low as u64 }
}

/// The first coordinate that is above a number.
fn coord_behind(high: i64) -> u64
    ensures { result ≡ coord_behind high }
{
    if high < 0 { 0 } else { high as u64 + 1 }
}

/// The coordinates of a dimension from a start up to an end, the end left out.
fn part_from(cardinality: u32, start: u64, end: u64) -> Part
    requires { 0 < cardinality }
    ensures has { IsPartOf cardinality (λ x. nat_le start x && nat_lt x end) result }
    ensures sound { IsSoundPart result }
{
    let last = end.min(u64::from(cardinality));
    if last <= start {
        return Part::Between(1, 0);
    }
    Part::Between(start as u32, (last - 1) as u32)
}

/// The coordinates between two numbers, both included.
fn part_between_numbers(cardinality: u32, low: i64, high: i64) -> Part
    requires { 0 < cardinality }
    ensures has { IsPartOf cardinality
        (λ x. lies_between (Int low) (Int high) (Int (pos x))) result }
    ensures sound { IsSoundPart result }
{
    part_from(cardinality, start_of(low), coord_behind(high))
}

/// The coordinates between two values. Between texts there are none.
fn part_between(cardinality: u32, first: &Value, last: &Value) -> Part
    requires { 0 < cardinality }
    ensures has { IsPartOf cardinality (λ x. lies_between first.now last.now (Int (pos x))) result }
    ensures sound { IsSoundPart result }
{
    match (first, last) {
        (Value::Int(low), Value::Int(high)) => part_between_numbers(cardinality, *low, *high),
        (Value::Int(_), Value::Text(_)) => Part::Between(1, 0),
        (Value::Text(_), _) => Part::Between(1, 0),
    }
}

/// The coordinates among values.
fn part_listed(
    alloc: Global,
    cardinality: u32,
    values: &[Value],
    codes: &[Option<u32>],
) -> Result<Part, AllocError>
    ensures has { IfOk result (IsPartOf cardinality (λ x. list_any (λ w. value_eq w (Int (pos x)))
        (coded_values codes.now values.now))) }
    ensures sound { IfOk result (λ p. IsSoundPart p) }
{
    let coords = rising_coords(alloc, cardinality, values, codes)?;
    Ok(Part::Listed(Coords::from_vec(coords)))
}

/// The values that a test compares with.
pub fn values_of_test(test: &ValueTest) -> &[Value]
    ensures { result.now ≡ values_of_test test.now }
{
    match test {
        ValueTest::Equal(wanted) => slice::from_ref(wanted),
        ValueTest::OneOf(wanted) => wanted.as_slice(),
        ValueTest::Between(_, _) => &[],
    }
}

/// The coordinates that a test passes.
fn part_of_test(
    alloc: Global,
    cardinality: u32,
    test: &ValueTest,
    codes: &[Option<u32>],
) -> Result<Part, AllocError>
    requires { 0 < cardinality }
    ensures has { IfOk result (IsPartOf cardinality
        (λ x. passes (coded_test codes.now test.now) (Int (pos x)))) }
    ensures sound { IfOk result (λ p. IsSoundPart p) }
{
    match test {
        ValueTest::Equal(_) => part_listed(alloc, cardinality, values_of_test(test), codes),
        ValueTest::OneOf(wanted) => part_listed(alloc, cardinality, wanted.as_slice(), codes),
        ValueTest::Between(first, last) => Ok(part_between(cardinality, first, last)),
    }
}

/// What a condition leaves of a part of the dimension at a place.
fn part_with(
    alloc: Global,
    cardinality: u32,
    place: u32,
    part: Part,
    condition: &Condition,
    codes: &[Option<u32>],
) -> Result<Part, AllocError>
    requires some { 0 < cardinality }
    requires part { IsSoundPart part }
    ensures has { IfOk result (IsPartOf cardinality (λ x. part_has part x
        && passes_here place (coded_condition codes.now condition.now) x)) }
    ensures sound { IfOk result (λ p. IsSoundPart p) }
{
    if condition.place != place {
        return Ok(part);
    }
    let more = part_of_test(alloc, cardinality, &condition.test, codes)?;
    shared_part(alloc, &part, &more)
}

/// The coordinates of the dimension at a place that each condition on it passes.
pub fn part_at(
    alloc: Global,
    cardinality: u32,
    place: u32,
    conditions: &[Condition],
    codes: &[Option<u32>],
) -> Result<Part, AllocError>
    requires { 0 < cardinality }
    ensures has { IfOk result
        (IsPartOf cardinality (passes_at place (coded_conditions codes.now conditions.now))) }
    ensures sound { IfOk result (λ p. IsSoundPart p) }
{
    let mut part = Part::All;
    let mut codes_left = codes;
    let mut left = conditions;
    'conditions: while let [condition, rest @ ..] = left {
        part = part_with(alloc, cardinality, place, part, condition, codes_left)?;
        codes_left = codes_behind_all(codes_left, values_of_test(&condition.test));
        left = rest;
    }
    Ok(part)
}
