//! The columns that a statement uses: the leftmost that the cube lacks, and the leftmost that is used against
//! its kind.

ghost use Rattle.std.specs.Prelude.{◌≡◌, [], ◌∷◌, map, option_copied};
ghost use Rattle.std.specs.List.{list_any, flat_map};
ghost use Rattle.cube_language.specs.ColumnUses.{column_uses, item_uses, cond_use, group_use, is_of_other_kind, is_against_dim, is_text};
ghost use Rattle.cube_language.specs.Misfits.{cond_name};
ghost use Rattle.statement_check.specs.ColumnTests.{use_fails, first_failing, measure_use};

use crate::names::{dim_named, is_column};
use crate::parts::{conds_of, group_of, having_of, items_of, order_of};
use cube_language::{Cond, Decl, DimDecl, Item, Key, Statement, Test};
use cube_values::{Text, Value};

/// A test on how a statement uses a column.
#[derive(Clone, Copy)]
pub(crate) enum ColumnTest {
    /// The cube lacks the column.
    Unknown,
    /// The column is used against its kind.
    WrongUse,
}

fn is_text(value: &Value) -> bool
    ensures { result ≡ is_text value.now }
{
    match value {
        Value::Text(_) => true,
        Value::Int(_) => false,
    }
}

fn is_of_other_kind(dim: &DimDecl, value: &Value) -> bool
    ensures { result ≡ is_of_other_kind dim.now value.now }
{
    is_text(value) != dim.text
}

fn any_of_other_kind(dim: &DimDecl, values: &[Value]) -> bool
    ensures { result ≡ list_any (is_of_other_kind dim.now) values.now }
{
    values.iter().any(|value| is_of_other_kind(dim, value))
}

/// Whether a condition is against the kind of its dimension.
fn is_against_dim(cond: &Cond, dim: &DimDecl) -> bool
    ensures { result ≡ is_against_dim (cond_use cond.now).purpose dim.now }
{
    match cond {
        Cond::Equal(_, wanted) => is_of_other_kind(dim, wanted),
        Cond::In(_, wanted) => any_of_other_kind(dim, wanted.as_slice()),
        Cond::Between(_, first, last) => dim.text || is_text(first) || is_text(last),
    }
}

/// The column of a condition.
pub fn cond_name(cond: &Cond) -> &Text
    ensures { result.now ≡ cond_name cond.now }
{
    match cond {
        Cond::Equal(name, _) => name,
        Cond::In(name, _) => name,
        Cond::Between(name, _, _) => name,
    }
}

fn cond_fails(test: ColumnTest, decl: &Decl, cond: &Cond) -> bool
    ensures { result ≡ use_fails test decl.now (cond_use cond.now) }
{
    match test {
        ColumnTest::Unknown => !is_column(decl, cond_name(cond)),
        ColumnTest::WrongUse => match dim_named(decl, cond_name(cond)) {
            Some(dim) => is_against_dim(cond, dim),
            None => true,
        },
    }
}

fn group_fails(test: ColumnTest, decl: &Decl, name: &Text) -> bool
    ensures { result ≡ use_fails test decl.now (group_use name.now) }
{
    match test {
        ColumnTest::Unknown => !is_column(decl, name),
        ColumnTest::WrongUse => dim_named(decl, name).is_none(),
    }
}

fn measure_fails(test: ColumnTest, decl: &Decl, metric: &Text) -> bool
    ensures { result ≡ use_fails test decl.now (measure_use metric.now) }
{
    match test {
        ColumnTest::Unknown => !is_column(decl, metric),
        ColumnTest::WrongUse => dim_named(decl, metric).is_some(),
    }
}

fn failing_group<'a>(test: ColumnTest, decl: &Decl, name: &'a Text) -> Option<&'a Text>
    ensures { option_copied result ≡ first_failing test decl.now (group_use name.now ∷ []) }
{
    if group_fails(test, decl, name) {
        Some(name)
    } else {
        None
    }
}

fn failing_measure<'a>(test: ColumnTest, decl: &Decl, metric: &'a Text) -> Option<&'a Text>
    ensures { option_copied result ≡ first_failing test decl.now (measure_use metric.now ∷ []) }
{
    if measure_fails(test, decl, metric) {
        Some(metric)
    } else {
        None
    }
}

fn failing_item<'a>(test: ColumnTest, decl: &Decl, item: &'a Item) -> Option<&'a Text>
    ensures { option_copied result ≡ first_failing test decl.now (item_uses item.now) }
{
    match item {
        Item::Plain(name) => failing_group(test, decl, name),
        Item::Sum(metric) => failing_measure(test, decl, metric),
        Item::Min(metric) => failing_measure(test, decl, metric),
        Item::Max(metric) => failing_measure(test, decl, metric),
        Item::Avg(metric) => failing_measure(test, decl, metric),
        Item::CountAll => None,
    }
}

fn failing_in_items<'a>(test: ColumnTest, decl: &Decl, items: &'a [Item]) -> Option<&'a Text>
    ensures { option_copied result ≡ first_failing test decl.now (flat_map item_uses items.now) }
{
    let mut left = items;
    'items: while let [item, rest @ ..] = left {
        if let Some(name) = failing_item(test, decl, item) {
            return Some(name);
        }
        left = rest;
    }
    None
}

fn failing_in_conds<'a>(test: ColumnTest, decl: &Decl, conds: &'a [Cond]) -> Option<&'a Text>
    ensures { option_copied result ≡ first_failing test decl.now (map cond_use conds.now) }
{
    let mut left = conds;
    'conds: while let [cond, rest @ ..] = left {
        if cond_fails(test, decl, cond) {
            return Some(cond_name(cond));
        }
        left = rest;
    }
    None
}

fn failing_in_group<'a>(test: ColumnTest, decl: &Decl, names: &'a [Text]) -> Option<&'a Text>
    ensures { option_copied result ≡ first_failing test decl.now (map group_use names.now) }
{
    let mut left = names;
    'names: while let [name, rest @ ..] = left {
        if group_fails(test, decl, name) {
            return Some(name);
        }
        left = rest;
    }
    None
}

fn failing_in_having<'a>(test: ColumnTest, decl: &Decl, having: &'a [Test]) -> Option<&'a Text>
    ensures { option_copied result
        ≡ first_failing test decl.now (flat_map item_uses (map (λ t. t.item) having.now)) }
{
    let mut left = having;
    'tests: while let [asked, rest @ ..] = left {
        if let Some(name) = failing_item(test, decl, &asked.item) {
            return Some(name);
        }
        left = rest;
    }
    None
}

fn failing_in_order<'a>(test: ColumnTest, decl: &Decl, order: &'a [Key]) -> Option<&'a Text>
    ensures { option_copied result
        ≡ first_failing test decl.now (flat_map item_uses (map (λ k. k.item) order.now)) }
{
    let mut left = order;
    'keys: while let [key, rest @ ..] = left {
        if let Some(name) = failing_item(test, decl, &key.item) {
            return Some(name);
        }
        left = rest;
    }
    None
}

/// The leftmost column of a statement whose use fails a test.
pub(crate) fn failing_column<'a>(
    test: ColumnTest,
    decl: &Decl,
    statement: &'a Statement,
) -> Option<&'a Text>
    ensures { option_copied result ≡ first_failing test decl.now (column_uses statement.now) }
{
    if let Some(name) = failing_in_items(test, decl, items_of(statement)) {
        return Some(name);
    }
    if let Some(name) = failing_in_conds(test, decl, conds_of(statement)) {
        return Some(name);
    }
    if let Some(name) = failing_in_group(test, decl, group_of(statement)) {
        return Some(name);
    }
    if let Some(name) = failing_in_having(test, decl, having_of(statement)) {
        return Some(name);
    }
    failing_in_order(test, decl, order_of(statement))
}
