//! Which rows a region has.

ghost use Rattle.std.specs.Prelude.{◌≡◌};
ghost use Rattle.std.specs.List.{list_any, list_all};
ghost use Rattle.cube_values.specs.Values.{value_eq};
ghost use Rattle.cube_values.specs.Regions.{lies_between, passes, holds_of, region_has};

use cube_values::{Condition, Region, StoredRow, Value, ValueTest};

/// Whether a region has a row.
pub fn region_has(region: &Region, stored: &StoredRow) -> bool
    ensures { result ≡ region_has region.now stored.now }
{
    region.cube == stored.cube && all_hold(region.conditions.as_slice(), stored.row.dims.as_slice())
}

fn all_hold(conditions: &[Condition], dims: &[Value]) -> bool
    ensures { result ≡ list_all (holds_of dims.now) conditions.now }
{
    conditions.iter().all(|condition| holds_of(dims, condition))
}

fn holds_of(dims: &[Value], condition: &Condition) -> bool
    ensures { result ≡ holds_of dims.now condition.now }
{
    match dims.get(condition.place as usize) {
        Some(value) => passes(&condition.test, value),
        None => false,
    }
}

fn passes(test: &ValueTest, value: &Value) -> bool
    ensures { result ≡ passes test.now value.now }
{
    match test {
        ValueTest::Equal(wanted) => wanted == value,
        ValueTest::OneOf(wanted) => is_one_of(wanted.as_slice(), value),
        ValueTest::Between(low, high) => lies_between(low, high, value),
    }
}

fn is_one_of(wanted: &[Value], value: &Value) -> bool
    ensures { result ≡ list_any (λ w. value_eq w value.now) wanted.now }
{
    wanted.iter().any(|w| w == value)
}

fn lies_between(low: &Value, high: &Value, value: &Value) -> bool
    ensures { result ≡ lies_between low.now high.now value.now }
{
    match (low, high, value) {
        (Value::Int(low), Value::Int(high), Value::Int(n)) => *low <= *n && *n <= *high,
        _ => false,
    }
}
