//! What HAVING, ORDER BY and LIMIT ask of the lines of a table.

ghost use Rattle.std.specs.Prelude.{◌≡◌, filter_map, IfOk};
ghost use Rattle.cube_language.specs.ResolvedNames.{resolved_test, resolved_key, resolved_plan};

use crate::places::item_place;
use condition_spans::{append, narrow};
use cube_language::{Key, Statement, Test};
use cube_values::{Bound, BoundKey, BoundKeys, BoundTest, BoundTests, TopPlan};
use std::alloc::{AllocError, Global};

fn copy_bound(bound: &Bound) -> Result<Bound, AllocError>
    ensures { IfOk result (λ b. b ≡ bound.now) }
{
    bound.clone()
}

/// A test on the field of its item.
fn resolved_test(statement: &Statement, test: &Test) -> Result<Option<BoundTest>, AllocError>
    ensures { IfOk result (λ found. found ≡ resolved_test statement.now test.now) }
{
    let Some(place) = item_place(statement, &test.item) else {
        return Ok(None);
    };
    Ok(Some(BoundTest {
        place: narrow(place)?,
        bound: copy_bound(&test.bound)?,
    }))
}

fn resolved_tests(
    alloc: Global,
    statement: &Statement,
    tests: &[Test],
) -> Result<BoundTests, AllocError>
    ensures { IfOk result (λ found. found ≡ filter_map (resolved_test statement.now) tests.now) }
{
    let mut found = Vec::new(alloc);
    let mut left = tests;
    'tests: while let [test, rest @ ..] = left {
        append(&mut found, resolved_test(statement, test)?)?;
        left = rest;
    }
    Ok(BoundTests::from_vec(found))
}

/// A key on the field of its item.
fn resolved_key(statement: &Statement, key: &Key) -> Result<Option<BoundKey>, AllocError>
    ensures { IfOk result (λ found. found ≡ resolved_key statement.now key.now) }
{
    let Some(place) = item_place(statement, &key.item) else {
        return Ok(None);
    };
    Ok(Some(BoundKey {
        place: narrow(place)?,
        desc: key.desc,
    }))
}

fn resolved_keys(
    alloc: Global,
    statement: &Statement,
    keys: &[Key],
) -> Result<BoundKeys, AllocError>
    ensures { IfOk result (λ found. found ≡ filter_map (resolved_key statement.now) keys.now) }
{
    let mut found = Vec::new(alloc);
    let mut left = keys;
    'keys: while let [key, rest @ ..] = left {
        append(&mut found, resolved_key(statement, key)?)?;
        left = rest;
    }
    Ok(BoundKeys::from_vec(found))
}

/// What a SELECT asks of the lines of its table: each test of HAVING and each key of ORDER BY by the place of
/// the first item that is the same, and the limit. Of a statement that `bind_select` binds each has its
/// place, as `bindings_have_all_parts` says. Every other statement asks for nothing.
pub fn bind_top(alloc: Global, statement: &Statement) -> Result<TopPlan, AllocError>
    ensures { IfOk result (λ plan. plan ≡ resolved_plan statement.now) }
{
    match statement {
        Statement::Select {
            having,
            order,
            limit,
            ..
        } => Ok(TopPlan {
            having: resolved_tests(alloc, statement, having.as_slice())?,
            keys: resolved_keys(alloc, statement, order.as_slice())?,
            limit: *limit,
        }),
        _ => Ok(TopPlan {
            having: BoundTests::new(alloc),
            keys: BoundKeys::new(alloc),
            limit: None,
        }),
    }
}
