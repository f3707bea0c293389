//! The items of a query: plain ones that it does not group by, and those that HAVING and ORDER BY may not ask
//! for.

ghost use Rattle.std.specs.Prelude.{◌≡◌, not, map, filter_map, find, option_copied};
ghost use Rattle.std.specs.List.{list_any};
ghost use Rattle.std.specs.Option.{option_or};
ghost use Rattle.std.specs.Str.{bytes_eq};
ghost use Rattle.cube_language.specs.Misfits.{plain_name, not_grouped, not_an_item, is_avg, bad_having, is_extreme, not_watchable};
ghost use Rattle.cube_language.specs.SameItems.{item_eq};

use crate::names::{is_among, same_name};
use crate::parts::{group_of, having_of, items_of, order_of};
use cube_language::{Item, Key, Statement, Test};
use cube_values::Text;

fn not_grouped_in<'a>(items: &'a [Item], group: &[Text]) -> Option<&'a Text>
    ensures { option_copied result
        ≡ find (λ name. not (list_any (bytes_eq name) group.now))
        (filter_map plain_name items.now) }
{
    let mut left = items;
    'items: while let [item, rest @ ..] = left {
        if let Item::Plain(name) = item {
            if !is_among(name, group) {
                return Some(name);
            }
        }
        left = rest;
    }
    None
}

/// The leftmost plain item that the query does not group by.
pub(crate) fn not_grouped(statement: &Statement) -> Option<&Text>
    ensures { option_copied result ≡ not_grouped statement.now }
{
    not_grouped_in(items_of(statement), group_of(statement))
}

/// Whether two items are one.
pub fn same_item(a: &Item, b: &Item) -> bool
    ensures { result ≡ item_eq a.now b.now }
{
    match (a, b) {
        (Item::Plain(x), Item::Plain(y)) => same_name(x, y),
        (Item::Sum(x), Item::Sum(y)) => same_name(x, y),
        (Item::Min(x), Item::Min(y)) => same_name(x, y),
        (Item::Max(x), Item::Max(y)) => same_name(x, y),
        (Item::Avg(x), Item::Avg(y)) => same_name(x, y),
        (Item::CountAll, Item::CountAll) => true,
        _ => false,
    }
}

fn is_item(item: &Item, items: &[Item]) -> bool
    ensures { result ≡ list_any (item_eq item.now) items.now }
{
    items.iter().any(|other| same_item(item, other))
}

fn strange_in_having<'a>(items: &[Item], having: &'a [Test]) -> Option<&'a Item>
    ensures { option_copied result
        ≡ find (λ item. not (list_any (item_eq item) items.now)) (map (λ t. t.item) having.now) }
{
    let mut left = having;
    'tests: while let [test, rest @ ..] = left {
        if !is_item(&test.item, items) {
            return Some(&test.item);
        }
        left = rest;
    }
    None
}

fn strange_in_order<'a>(items: &[Item], order: &'a [Key]) -> Option<&'a Item>
    ensures { option_copied result
        ≡ find (λ item. not (list_any (item_eq item) items.now)) (map (λ k. k.item) order.now) }
{
    let mut left = order;
    'keys: while let [key, rest @ ..] = left {
        if !is_item(&key.item, items) {
            return Some(&key.item);
        }
        left = rest;
    }
    None
}

/// The leftmost item of HAVING or ORDER BY that is none of the query's.
pub(crate) fn not_an_item(statement: &Statement) -> Option<&Item>
    ensures { option_copied result ≡ not_an_item statement.now }
{
    let items = items_of(statement);
    if let Some(item) = strange_in_having(items, having_of(statement)) {
        return Some(item);
    }
    strange_in_order(items, order_of(statement))
}

fn is_avg(item: &Item) -> bool
    ensures { result ≡ is_avg item.now }
{
    match item {
        Item::Avg(_) => true,
        _ => false,
    }
}

fn avg_in_having(having: &[Test]) -> Option<&Item>
    ensures { option_copied result ≡ find is_avg (map (λ t. t.item) having.now) }
{
    let mut left = having;
    'tests: while let [test, rest @ ..] = left {
        if is_avg(&test.item) {
            return Some(&test.item);
        }
        left = rest;
    }
    None
}

/// The leftmost average in HAVING.
pub(crate) fn bad_having(statement: &Statement) -> Option<&Item>
    ensures { option_copied result ≡ bad_having statement.now }
{
    avg_in_having(having_of(statement))
}

fn is_extreme(item: &Item) -> bool
    ensures { result ≡ is_extreme item.now }
{
    match item {
        Item::Min(_) | Item::Max(_) => true,
        _ => false,
    }
}

fn first_extreme(items: &[Item]) -> Option<&Item>
    ensures { option_copied result ≡ find is_extreme items.now }
{
    items.iter().find(|item| is_extreme(item))
}

/// The leftmost least or greatest value of a WATCH.
pub(crate) fn not_watchable(statement: &Statement) -> Option<&Item>
    ensures { option_copied result ≡ not_watchable statement.now }
{
    match statement {
        Statement::Watch { items, .. } => first_extreme(items.as_slice()),
        _ => None,
    }
}
