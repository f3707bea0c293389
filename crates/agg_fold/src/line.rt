//! The line of a group in an answer.

ghost use Rattle.std.specs.Prelude.{◌≡◌, ◌<◌, ◌^◌, ◌*◌, ◌/◌, ◌%◌, ℕ, ◌≢◌, [], List, length, map, IfOk, unwrap_or, slice_get};
ghost use Rattle.cube_values.specs.Answer.{field_of};
ghost use Rattle.agg_fold.specs.Coded.{value_for};
ghost use Rattle.agg_fold.specs.Lines.{decoded_key, key_field, tally_field, field_for, fields_for, empty_field};

use crate::tally::Tally;
use cube_values::{BoundItem, BoundQuery, Field, Line, Text, TextLists, Texts, Value, average};
use std::alloc::{AllocError, Global};

/// What a coordinate stands for.
fn value_for(alloc: Global, texts: &[Text], coord: u32) -> Result<Value, AllocError>
    ensures { IfOk result (λ v. v ≡ value_for texts.now coord) }
{
    if texts.is_empty() {
        return Ok(Value::Int(i64::from(coord)));
    }
    match texts.get(coord as usize) {
        Some(text) => Ok(Value::Text(text.copy()?)),
        None => Ok(Value::Text(Text::from_string(String::new(alloc)))),
    }
}

/// What a coordinate of a dimension stands for.
fn value_of_dim(alloc: Global, lists: &[Texts], dim: u32, coord: u32) -> Result<Value, AllocError>
    ensures { IfOk result (λ v. v ≡ value_for (unwrap_or (slice_get lists.now dim) []) coord) }
{
    match lists.get(dim as usize) {
        Some(texts) => value_for(alloc, texts.as_slice(), coord),
        None => Ok(Value::Int(i64::from(coord))),
    }
}

/// What the coordinates of a key stand for.
pub fn decoded_key(
    alloc: Global,
    lists: &[Texts],
    group: &[u32],
    key: &[u32],
) -> Result<Vec<Value>, AllocError>
    requires { length key.now ≡ length group.now }
    ensures { IfOk result (λ values. values.items ≡ decoded_key lists.now group.now key.now) }
{
    let mut values = Vec::new(alloc);
    'dims: for i in 0..group.len() {
        values.push(value_of_dim(alloc, lists, group[i], key[i])?)?;
    }
    Ok(values)
}

/// The value of a dimension in a key.
fn key_field(group: &[u32], values: &[Value], dim: u32) -> Result<Field, AllocError>
    ensures { IfOk result (λ f. f ≡ key_field group.now values.now dim) }
{
    let mut group_left = group;
    let mut values_left = values;
    'dims: while let [d, group_rest @ ..] = group_left {
        let [value, values_rest @ ..] = values_left else {
            return Ok(Field::Null);
        };
        if dim == *d {
            return match value {
                Value::Int(n) => Ok(Field::Whole(i128::from(*n))),
                Value::Text(text) => Ok(Field::Text(text.copy()?)),
            };
        }
        group_left = group_rest;
        values_left = values_rest;
    }
    Ok(Field::Null)
}

/// A tally as a field.
fn tally_field(tally: Tally) -> Field
    ensures { result ≡ tally_field tally }
{
    match tally {
        Tally::Unused => Field::Null,
        Tally::Total(sum) => Field::Whole(sum),
        Tally::Least(n) => Field::Whole(i128::from(n)),
        Tally::Greatest(n) => Field::Whole(i128::from(n)),
    }
}

/// An item of a group that has rows.
fn field_for(
    group: &[u32],
    values: &[Value],
    count: u64,
    item: BoundItem,
    tally: Tally,
) -> Result<Field, AllocError>
    requires { 0 < count }
    ensures { IfOk result (λ f. f ≡ field_for group.now values.now count item tally) }
{
    match item {
        BoundItem::Group(dim) => key_field(group, values, dim),
        BoundItem::Count => Ok(Field::Whole(i128::from(count))),
        BoundItem::Sum(_) | BoundItem::Min(_) | BoundItem::Max(_) => Ok(tally_field(tally)),
        BoundItem::Avg(_) => match tally {
            Tally::Total(sum) => Ok(average(sum, count)),
            _ => Ok(Field::Null),
        },
    }
}

/// An item over no rows.
fn empty_field(item: BoundItem) -> Field
    ensures { result ≡ empty_field item }
{
    match item {
        BoundItem::Count => Field::Whole(0),
        _ => Field::Null,
    }
}

/// The line of a group that has rows.
pub fn line_for(
    alloc: Global,
    query: &BoundQuery,
    values: &[Value],
    count: u64,
    tallies: &[Tally],
) -> Result<Line, AllocError>
    requires some { 0 < count }
    requires tallies { length tallies.now ≡ length query.now.items }
    ensures { IfOk result (λ line. line ≡ fields_for query.now values.now count tallies.now) }
{
    let items = query.items.as_slice();
    let mut fields = Vec::new(alloc);
    'items: for i in 0..items.len() {
        fields.push(field_for(query.group.as_slice(), values, count, items[i], tallies[i])?)?;
    }
    Ok(Line::from_vec(fields))
}

/// The line over no rows.
pub fn empty_line(alloc: Global, items: &[BoundItem]) -> Result<Line, AllocError>
    ensures { IfOk result (λ line. line ≡ map empty_field items.now) }
{
    let mut fields = Vec::new(alloc);
    'items: for item in items {
        fields.push(empty_field(*item))?;
    }
    Ok(Line::from_vec(fields))
}
