//! Each test asks one history, and compares the whole answer with its lines.

ghost use Rattle.std.specs.Prelude.{IfOk};
ghost use Rattle.cube_values.specs.Visible.{RisesByEpoch};

use super::transactions::{
    all_of, cell, does, does_nothing, inserts, men, one, part_of, put, reader, two, visit, writer,
};
use crate::fields::is_table;
use cube_values::{
    BoundItem, EpochList, Operation, Query, Sequence, Snapshot, StoredRow, Table, Transaction,
    Value, ValueTest,
};
use plain_history::{answer, region_has, visible_rows};
use std::alloc::{AllocError, Global};

/// The answer over all rows of a cube that a snapshot sees.
fn ask(
    alloc: Global,
    snapshot: &Snapshot,
    transactions: &[Transaction],
    query: &Query,
) -> Result<Table, AllocError>
    requires { RisesByEpoch transactions.now }
{
    let rows = visible_rows(alloc, snapshot, transactions)?;
    answer(alloc, query, rows.as_slice())
}

/// Whether the answer has the lines of a text.
fn is_answer(
    alloc: Global,
    snapshot: &Snapshot,
    transactions: &[Transaction],
    query: &Query,
    wanted: &str,
) -> Result<bool, AllocError>
    requires { RisesByEpoch transactions.now }
{
    let table = ask(alloc, snapshot, transactions, query)?;
    Ok(is_table(&table, wanted))
}

fn query(
    alloc: Global,
    cube: &str,
    group: &[u32],
    items: &[BoundItem],
) -> Result<Query, AllocError> {
    let region = all_of(alloc, cube)?;
    let group = Sequence::from_vec(group.to_vec(alloc)?);
    let items = Sequence::from_vec(items.to_vec(alloc)?);
    Ok(Query {
        region,
        group,
        items,
    })
}

/// Whether COUNT over `visits` is this for a snapshot.
fn counts(
    alloc: Global,
    snapshot: &Snapshot,
    transactions: &[Transaction],
    wanted: &str,
) -> Result<bool, AllocError>
    requires { RisesByEpoch transactions.now }
{
    let count = query(alloc, "visits", &[], &[BoundItem::Count])?;
    is_answer(alloc, snapshot, transactions, &count, wanted)
}

/// Whether this is the answer over no rows.
fn is_answer_of_none(
    alloc: Global,
    group: &[u32],
    items: &[BoundItem],
    wanted: &str,
) -> Result<bool, AllocError> {
    let query = query(alloc, "visits", group, items)?;
    is_answer(alloc, &reader(0), &[], &query, wanted)
}

#[test]
fn no_rows(rt: HostRuntime) {
    let items = [BoundItem::Sum(0), BoundItem::Count, BoundItem::Max(0)];
    assert!(rt; is_answer_of_none(rt.alloc(), &[], &items, "NULL 0 NULL") == Ok(true));
    assert!(rt; is_answer_of_none(rt.alloc(), &[0], &[BoundItem::Count], "") == Ok(true));
}

fn pending_is_hidden(alloc: Global) -> Result<bool, AllocError> {
    let committed = one(alloc, inserts(alloc, 2, "NY", "F", [5, 0])?)?;
    counts(alloc, &reader(0), committed.as_slice(), "0")
}

#[test]
fn pending_hides_its_own_rows(rt: HostRuntime) {
    assert!(rt; pending_is_hidden(rt.alloc()) == Ok(true));
}

/// Two transactions that put a row each.
fn two_inserts(alloc: Global) -> Result<Vec<Transaction>, AllocError>
    ensures { IfOk result (λ ts. RisesByEpoch ts.items) }
{
    let first = inserts(alloc, 1, "CA", "M", [3, 1])?;
    let second = inserts(alloc, 2, "NY", "F", [5, 0])?;
    two(alloc, first, second)
}

fn both_are_seen(alloc: Global) -> Result<bool, AllocError> {
    let both = two_inserts(alloc)?;
    counts(alloc, &reader(2), both.as_slice(), "2")
}

#[test]
fn both_seen_once_committed(rt: HostRuntime) {
    assert!(rt; both_are_seen(rt.alloc()) == Ok(true));
}

/// A transaction that puts a row, and one that does nothing.
fn insert_and_nothing(alloc: Global) -> Result<Vec<Transaction>, AllocError>
    ensures { IfOk result (λ ts. RisesByEpoch ts.items) }
{
    let first = inserts(alloc, 1, "CA", "M", [3, 1])?;
    two(alloc, first, does_nothing(alloc, 2))
}

fn deps_are_hidden(alloc: Global) -> Result<bool, AllocError> {
    let history = insert_and_nothing(alloc)?;
    let mut deps = EpochList::new();
    deps.push(1);
    counts(alloc, &writer(2, deps), history.as_slice(), "0")
}

fn finished_is_seen(alloc: Global) -> Result<bool, AllocError> {
    let history = insert_and_nothing(alloc)?;
    counts(alloc, &writer(3, EpochList::new()), history.as_slice(), "1")
}

#[test]
fn deps_of_a_writer(rt: HostRuntime) {
    assert!(rt; deps_are_hidden(rt.alloc()) == Ok(true));
    assert!(rt; finished_is_seen(rt.alloc()) == Ok(true));
}

/// A transaction that puts the row of a man, and one that deletes those of men.
fn birth_and_delete(alloc: Global) -> Result<Vec<Transaction>, AllocError>
    ensures { IfOk result (λ ts. RisesByEpoch ts.items) }
{
    let birth = inserts(alloc, 1, "CA", "M", [3, 1])?;
    let delete = does(alloc, 2, Operation::Drop(men(alloc)?))?;
    two(alloc, birth, delete)
}

/// Whether a reader counts so many rows of these.
fn is_born_for(alloc: Global, epoch: u64, wanted: &str) -> Result<bool, AllocError> {
    let history = birth_and_delete(alloc)?;
    counts(alloc, &reader(epoch), history.as_slice(), wanted)
}

#[test]
fn delete_before_birth(rt: HostRuntime) {
    assert!(rt; is_born_for(rt.alloc(), 2, "0") == Ok(true));
    assert!(rt; is_born_for(rt.alloc(), 1, "1") == Ok(true));
}

/// Puts a row, deletes all and puts another.
fn put_drop_put(alloc: Global) -> Result<Transaction, AllocError> {
    let mut operations = Vec::new(alloc);
    operations.push(put(alloc, visit(alloc, "CA", "M", [3, 1])?)?)?;
    operations.push(Operation::Drop(all_of(alloc, "visits")?))?;
    operations.push(put(alloc, visit(alloc, "CA", "M", [4, 0])?)?)?;
    let operations = Sequence::from_vec(operations);
    Ok(Transaction {
        epoch: 1,
        operations,
    })
}

/// Whether SUM is that of the row which was put last.
fn sums_last_row(alloc: Global, snapshot: &Snapshot) -> Result<bool, AllocError> {
    let sum = query(alloc, "visits", &[], &[BoundItem::Sum(0)])?;
    let history = one(alloc, put_drop_put(alloc)?)?;
    is_answer(alloc, snapshot, history.as_slice(), &sum, "4")
}

#[test]
fn delete_in_a_transaction(rt: HostRuntime) {
    assert!(rt; sums_last_row(rt.alloc(), &writer(1, EpochList::new())) == Ok(true));
    assert!(rt; sums_last_row(rt.alloc(), &reader(1)) == Ok(true));
}

/// Rows of four visits in one transaction.
fn four_visits(alloc: Global) -> Result<Vec<StoredRow>, AllocError> {
    let mut rows = Vec::new(alloc);
    rows.push(visit(alloc, "TX", "M", [7, 2])?)?;
    rows.push(visit(alloc, "CA", "M", [3, 1])?)?;
    rows.push(visit(alloc, "NY", "F", [5, 0])?)?;
    rows.push(visit(alloc, "CA", "F", [2, 4])?)?;
    Ok(rows)
}

fn put_all(alloc: Global, rows: Vec<StoredRow>) -> Result<Transaction, AllocError> {
    does(alloc, 1, Operation::Put(Sequence::from_vec(rows)))
}

/// The region, SUM and COUNT of likes, MIN and MAX of comments.
fn query_by_region(alloc: Global) -> Result<Query, AllocError> {
    let items = [
        BoundItem::Group(0),
        BoundItem::Sum(0),
        BoundItem::Count,
        BoundItem::Min(1),
        BoundItem::Max(1),
    ];
    query(alloc, "visits", &[0], &items)
}

const REGIONS: &str = "\
'CA' 5 2 1 4
'NY' 5 1 0 0
'TX' 7 1 2 2";

fn is_parted(alloc: Global) -> Result<bool, AllocError> {
    let query = query_by_region(alloc)?;
    let history = one(alloc, put_all(alloc, four_visits(alloc)?)?)?;
    is_answer(alloc, &reader(1), history.as_slice(), &query, REGIONS)
}

#[test]
fn parted_by_region(rt: HostRuntime) {
    assert!(rt; is_parted(rt.alloc()) == Ok(true));
}

/// Rows of a cube with these values of m, one each.
fn cells(alloc: Global, numbers: &[i64]) -> Result<Vec<StoredRow>, AllocError> {
    let mut rows = Vec::new(alloc);
    for m in numbers {
        rows.push(cell(alloc, 0, *m)?)?;
    }
    Ok(rows)
}

/// Whether these are SUM and AVG over a cube with these values of m, one row each.
fn has_sum_and_average(alloc: Global, numbers: &[i64], wanted: &str) -> Result<bool, AllocError> {
    let history = one(alloc, put_all(alloc, cells(alloc, numbers)?)?)?;
    let both = query(alloc, "t", &[], &[BoundItem::Sum(0), BoundItem::Avg(0)])?;
    is_answer(alloc, &reader(1), history.as_slice(), &both, wanted)
}

#[test]
fn whole_sums(rt: HostRuntime) {
    let largest = "27670116110564327421 9223372036854775807.0000";
    assert!(rt; has_sum_and_average(rt.alloc(), &[i64::MAX; 3], largest) == Ok(true));
    assert!(rt; has_sum_and_average(rt.alloc(), &[-1, 0], "-1 -0.5000") == Ok(true));
}

fn is_near_zero(alloc: Global) -> Result<bool, AllocError> {
    let mut numbers = vec![in alloc; 0; 99_999]?;
    numbers.push(-1)?;
    has_sum_and_average(alloc, numbers.as_slice(), "-1 0.0000")
}

#[test]
fn average_near_zero(rt: HostRuntime) {
    assert!(rt; is_near_zero(rt.alloc()) == Ok(true));
}

/// Whether the row x = 3 of `t` is among the rows of a cube whose value at a place passes a test.
fn has_three(alloc: Global, cube: &str, place: u32, test: ValueTest) -> Result<bool, AllocError> {
    let row = cell(alloc, 3, 0)?;
    let region = part_of(alloc, cube, place, test)?;
    Ok(region_has(&region, &row))
}

fn one_and_three(alloc: Global) -> Result<ValueTest, AllocError> {
    let mut values = Vec::new(alloc);
    values.push(Value::Int(1))?;
    values.push(Value::Int(3))?;
    Ok(ValueTest::OneOf(Sequence::from_vec(values)))
}

fn between(low: i64, high: i64) -> ValueTest {
    ValueTest::Between(Value::Int(low), Value::Int(high))
}

fn is(number: i64) -> ValueTest {
    ValueTest::Equal(Value::Int(number))
}

/// Whether 3 passes the tests that it should pass.
fn three_passes(alloc: Global) -> Result<bool, AllocError> {
    Ok(has_three(alloc, "t", 0, between(3, 3))? && has_three(alloc, "t", 0, one_and_three(alloc)?)?)
}

/// Whether it passes none that asks for other numbers, and none of another place or cube.
fn three_fails(alloc: Global) -> Result<bool, AllocError> {
    Ok(
        !has_three(alloc, "t", 0, between(4, 9))?
            && !has_three(alloc, "t", 0, is(4))?
            && !has_three(alloc, "t", 1, is(3))?
            && !has_three(alloc, "visits", 0, is(3))?,
    )
}

#[test]
fn tests_of_a_region(rt: HostRuntime) {
    assert!(rt; three_passes(rt.alloc()) == Ok(true));
    assert!(rt; three_fails(rt.alloc()) == Ok(true));
}
