//! The parts of statements that ask for something, which the other statements do not have.

ghost use Rattle.std.specs.Prelude.{◌≡◌, map};
ghost use Rattle.cube_language.specs.StatementParts.{items_of, conds_of, group_of, tested_items, ordered_items};
ghost use Rattle.statement_check.specs.OwnParts.{deleted_conds, inserted_rows};

use cube_language::{Cond, Item, Key, Statement, Test};
use cube_values::{Text, Values};

/// The items of a query.
pub fn items_of(statement: &Statement) -> &[Item]
    ensures { result.now ≡ items_of statement.now }
{
    match statement {
        Statement::Select { items, .. } => items.as_slice(),
        Statement::Watch { items, .. } => items.as_slice(),
        _ => &[],
    }
}

/// The conditions on rows.
pub fn conds_of(statement: &Statement) -> &[Cond]
    ensures { result.now ≡ conds_of statement.now }
{
    match statement {
        Statement::Select { conds, .. } => conds.as_slice(),
        Statement::Watch { conds, .. } => conds.as_slice(),
        Statement::Delete { conds, .. } => conds.as_slice(),
        _ => &[],
    }
}

/// The columns by which a query groups.
pub fn group_of(statement: &Statement) -> &[Text]
    ensures { result.now ≡ group_of statement.now }
{
    match statement {
        Statement::Select { group, .. } => group.as_slice(),
        Statement::Watch { group, .. } => group.as_slice(),
        _ => &[],
    }
}

/// The tests of HAVING.
pub(crate) fn having_of(statement: &Statement) -> &[Test]
    ensures { map (λ test. test.item) result.now ≡ tested_items statement.now }
{
    match statement {
        Statement::Select { having, .. } => having.as_slice(),
        _ => &[],
    }
}

/// The keys of ORDER BY.
pub(crate) fn order_of(statement: &Statement) -> &[Key]
    ensures { map (λ key. key.item) result.now ≡ ordered_items statement.now }
{
    match statement {
        Statement::Select { order, .. } => order.as_slice(),
        _ => &[],
    }
}

/// The conditions of a deletion.
pub(crate) fn deleted_conds(statement: &Statement) -> &[Cond]
    ensures { result.now ≡ deleted_conds statement.now }
{
    match statement {
        Statement::Delete { conds, .. } => conds.as_slice(),
        _ => &[],
    }
}

/// The rows of an INSERT.
pub fn inserted_rows(statement: &Statement) -> &[Values]
    ensures { result.now ≡ inserted_rows statement.now }
{
    match statement {
        Statement::Insert { rows, .. } => rows.as_slice(),
        _ => &[],
    }
}
