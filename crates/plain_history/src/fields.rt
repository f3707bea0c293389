//! What an item of a query is of the rows of a group.

ghost use Rattle.std.specs.Prelude.{◌≡◌, map, IfOk};
ghost use Rattle.cube_values.specs.Answer.{field_of, sum_of, least_of, greatest_of, average_of, shared_value, item_of};

use crate::keys::{ABSENT, value_or};
use crate::numbers::{greatest, least, metric_of, total};
use cube_values::{BoundItem, Field, Line, Row, Sequence, Value, average};
use std::alloc::{AllocError, Global};

/// The items of a group, in order.
pub fn line_of(alloc: Global, items: &[BoundItem], rows: &[&Row]) -> Result<Line, AllocError>
    ensures { IfOk result (λ line. line ≡ map (item_of (map (λ r. r.now) rows.now)) items.now) }
{
    let mut fields = Vec::new(alloc);
    for item in items {
        fields.push(item_of(alloc, rows, *item)?)?;
    }
    Ok(Sequence::from_vec(fields))
}

/// An item of a group.
fn item_of(alloc: Global, rows: &[&Row], item: BoundItem) -> Result<Field, AllocError>
    ensures { IfOk result (λ field. field ≡ item_of (map (λ r. r.now) rows.now) item) }
{
    match item {
        BoundItem::Group(place) => shared_value(place, rows),
        BoundItem::Count => Ok(Field::Whole(rows.len() as i128)),
        BoundItem::Sum(metric) => Ok(sum_of(metric_of(alloc, metric, rows)?.as_slice())),
        BoundItem::Min(metric) => Ok(least_of(metric_of(alloc, metric, rows)?.as_slice())),
        BoundItem::Max(metric) => Ok(greatest_of(metric_of(alloc, metric, rows)?.as_slice())),
        BoundItem::Avg(metric) => Ok(average_of(metric_of(alloc, metric, rows)?.as_slice())),
    }
}

/// The value that the rows of a group share at a place of the group.
fn shared_value(place: u32, rows: &[&Row]) -> Result<Field, AllocError>
    ensures { IfOk result (λ field. field ≡ shared_value place (map (λ r. r.now) rows.now)) }
{
    match rows {
        [] => Ok(Field::Null),
        [row, ..] => field_of(value_or(row, place, &ABSENT)),
    }
}

fn field_of(value: &Value) -> Result<Field, AllocError>
    ensures { IfOk result (λ field. field ≡ field_of value.now) }
{
    match value {
        Value::Text(text) => Ok(Field::Text(text.copy()?)),
        Value::Int(n) => Ok(Field::Whole(i128::from(*n))),
    }
}

fn sum_of(numbers: &[i64]) -> Field
    ensures { result ≡ sum_of numbers.now }
{
    match numbers {
        [] => Field::Null,
        _ => Field::Whole(total(numbers)),
    }
}

fn least_of(numbers: &[i64]) -> Field
    ensures { result ≡ least_of numbers.now }
{
    match numbers {
        [] => Field::Null,
        [first, rest @ ..] => Field::Whole(i128::from(least(*first, rest))),
    }
}

fn greatest_of(numbers: &[i64]) -> Field
    ensures { result ≡ greatest_of numbers.now }
{
    match numbers {
        [] => Field::Null,
        [first, rest @ ..] => Field::Whole(i128::from(greatest(*first, rest))),
    }
}

fn average_of(numbers: &[i64]) -> Field
    ensures { result ≡ average_of numbers.now }
{
    match numbers {
        [] => Field::Null,
        _ => average(total(numbers), numbers.len() as u64),
    }
}
