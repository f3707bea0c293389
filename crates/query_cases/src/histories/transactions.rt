//! Rows and transactions for the tests.

ghost use Rattle.std.specs.Prelude.{◌≡◌, ◌<◌, IfOk};
ghost use Rattle.cube_values.specs.Visible.{RisesByEpoch};

use cube_values::{
    Condition, Conditions, EpochList, Operation, Operations, Region, Row, Sequence, Snapshot,
    StoredRow, Text, Transaction, Value, ValueTest, Values,
};
use std::alloc::{AllocError, Global};

fn two_texts(alloc: Global, first: &str, second: &str) -> Result<Values, AllocError> {
    let mut values = Vec::new(alloc);
    values.push(Value::Text(Text::new(alloc, first)?))?;
    values.push(Value::Text(Text::new(alloc, second)?))?;
    Ok(Sequence::from_vec(values))
}

/// A row of the cube `visits`: region and gender, and the metrics likes and comments.
pub fn visit(
    alloc: Global,
    region: &str,
    gender: &str,
    metrics: [i64; 2],
) -> Result<StoredRow, AllocError> {
    let dims = two_texts(alloc, region, gender)?;
    let metrics = Sequence::from_vec(metrics.to_vec(alloc)?);
    let row = Row { dims, metrics };
    let cube = Text::new(alloc, "visits")?;
    Ok(StoredRow { cube, row })
}

/// A row of the cube `t`: the dimension x and the metric m.
pub fn cell(alloc: Global, x: i64, m: i64) -> Result<StoredRow, AllocError> {
    let mut values = Vec::new(alloc);
    values.push(Value::Int(x))?;
    let dims = Sequence::from_vec(values);
    let metrics = Sequence::from_vec([m].to_vec(alloc)?);
    let row = Row { dims, metrics };
    let cube = Text::new(alloc, "t")?;
    Ok(StoredRow { cube, row })
}

pub fn put(alloc: Global, row: StoredRow) -> Result<Operation, AllocError> {
    let mut rows = Vec::new(alloc);
    rows.push(row)?;
    Ok(Operation::Put(Sequence::from_vec(rows)))
}

/// All rows of a cube.
pub fn all_of(alloc: Global, cube: &str) -> Result<Region, AllocError> {
    let conditions: Conditions = Sequence::new(alloc);
    let cube = Text::new(alloc, cube)?;
    Ok(Region { cube, conditions })
}

/// The rows of a cube whose value at a place passes a test.
pub fn part_of(
    alloc: Global,
    cube: &str,
    place: u32,
    test: ValueTest,
) -> Result<Region, AllocError> {
    let mut conditions = Vec::new(alloc);
    conditions.push(Condition { place, test })?;
    let cube = Text::new(alloc, cube)?;
    let conditions = Sequence::from_vec(conditions);
    Ok(Region { cube, conditions })
}

/// The rows of men.
pub fn men(alloc: Global) -> Result<Region, AllocError> {
    let test = ValueTest::Equal(Value::Text(Text::new(alloc, "M")?));
    part_of(alloc, "visits", 1, test)
}

/// A transaction of one operation.
pub fn does(alloc: Global, epoch: u64, operation: Operation) -> Result<Transaction, AllocError>
    ensures { IfOk result (λ t. t.epoch ≡ epoch) }
{
    let mut operations = Vec::new(alloc);
    operations.push(operation)?;
    let operations = Sequence::from_vec(operations);
    Ok(Transaction { epoch, operations })
}

/// A transaction that puts one row of `visits`.
pub fn inserts(
    alloc: Global,
    epoch: u64,
    region: &str,
    gender: &str,
    metrics: [i64; 2],
) -> Result<Transaction, AllocError>
    ensures { IfOk result (λ t. t.epoch ≡ epoch) }
{
    let row = visit(alloc, region, gender, metrics)?;
    does(alloc, epoch, put(alloc, row)?)
}

/// A transaction that does nothing.
pub fn does_nothing(alloc: Global, epoch: u64) -> Transaction
    ensures { result.epoch ≡ epoch }
{
    let operations: Operations = Sequence::new(alloc);
    Transaction { epoch, operations }
}

pub fn one(alloc: Global, first: Transaction) -> Result<Vec<Transaction>, AllocError>
    ensures { IfOk result (λ ts. RisesByEpoch ts.items) }
{
    let mut list = Vec::new(alloc);
    list.push(first)?;
    Ok(list)
}

pub fn two(
    alloc: Global,
    first: Transaction,
    second: Transaction,
) -> Result<Vec<Transaction>, AllocError>
    requires { first.epoch < second.epoch }
    ensures { IfOk result (λ ts. RisesByEpoch ts.items) }
{
    let mut list = Vec::new(alloc);
    list.push(first)?;
    list.push(second)?;
    Ok(list)
}

pub fn reader(epoch: u64) -> Snapshot {
    let deps = EpochList::new();
    let own = false;
    Snapshot { epoch, deps, own }
}

pub fn writer(epoch: u64, deps: EpochList) -> Snapshot {
    let own = true;
    Snapshot { epoch, deps, own }
}
