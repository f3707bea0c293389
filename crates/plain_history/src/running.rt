//! The rows that a snapshot sees, by running the transactions that it sees one after the other.

ghost use Rattle.std.specs.Prelude.{◌≡◌, ◌++◌, not, map, filter, fold, IfOk};
ghost use Rattle.cube_values.specs.Regions.{region_has};
ghost use Rattle.cube_values.specs.Sees.{sees};
ghost use Rattle.cube_values.specs.Visible.{visible_rows, RisesByEpoch};
ghost use Rattle.cube_values.specs.Running.{after_operation, after_transaction, rows_left_by};

use crate::regions::region_has;
use cube_values::{
    Operation, Region, Snapshot, StoredRow, Transaction, visible_is_what_running_leaves,
};
use std::alloc::{AllocError, Global};

/// The rows that a snapshot sees, in the order of epoch, place and index. No row is copied. The
/// transactions rise by epoch. The only error is that memory runs out.
pub fn visible_rows<'a>(
    alloc: Global,
    snapshot: &Snapshot,
    transactions: &'a [Transaction],
) -> Result<Vec<&'a StoredRow>, AllocError>
    requires { RisesByEpoch transactions.now }
    ensures { IfOk result (λ rows. map (λ r. r.now) rows.items
        ≡ visible_rows snapshot.now transactions.now) }
{
    visible_is_what_running_leaves();
    rows_left_by(alloc, snapshot, transactions)
}

/// What the transactions that a snapshot sees leave, run one after the other.
fn rows_left_by<'a>(
    alloc: Global,
    snapshot: &Snapshot,
    transactions: &'a [Transaction],
) -> Result<Vec<&'a StoredRow>, AllocError>
    ensures { IfOk result (λ rows. map (λ r. r.now) rows.items
        ≡ rows_left_by (filter (λ t. sees snapshot.now t.epoch) transactions.now)) }
{
    let mut rows = Vec::new(alloc);
    for transaction in transactions {
        if snapshot.sees(transaction.epoch) {
            rows = after_transaction(alloc, rows, transaction.operations.as_slice())?;
        }
    }
    Ok(rows)
}

/// The rows after the operations of a transaction.
fn after_transaction<'a>(
    alloc: Global,
    rows: Vec<&'a StoredRow>,
    operations: &'a [Operation],
) -> Result<Vec<&'a StoredRow>, AllocError>
    ensures { IfOk result (λ after. map (λ r. r.now) after.items
        ≡ fold after_operation (map (λ r. r.now) rows.entry.items) operations.now) }
{
    let mut after = rows;
    for operation in operations {
        after = after_operation(alloc, after, operation)?;
    }
    Ok(after)
}

/// The rows after an operation.
fn after_operation<'a>(
    alloc: Global,
    rows: Vec<&'a StoredRow>,
    operation: &'a Operation,
) -> Result<Vec<&'a StoredRow>, AllocError>
    ensures { IfOk result (λ after. map (λ r. r.now) after.items
        ≡ after_operation (map (λ r. r.now) rows.entry.items) operation.now) }
{
    match operation {
        Operation::Put(new) => with_rows(rows, new.as_slice()),
        Operation::Drop(region) => outside(alloc, region, rows.as_slice()),
    }
}

/// Rows, and then new ones.
fn with_rows<'a>(
    rows: Vec<&'a StoredRow>,
    new: &'a [StoredRow],
) -> Result<Vec<&'a StoredRow>, AllocError>
    ensures { IfOk result (λ after. map (λ r. r.now) after.items
        ≡ map (λ r. r.now) rows.entry.items ++ new.now) }
{
    let mut after = rows;
    for row in new {
        after.push(row)?;
    }
    Ok(after)
}

/// The rows outside a region.
fn outside<'a>(
    alloc: Global,
    region: &Region,
    rows: &[&'a StoredRow],
) -> Result<Vec<&'a StoredRow>, AllocError>
    ensures { IfOk result (λ after. map (λ r. r.now) after.items
        ≡ filter (λ row. not (region_has region.now row)) (map (λ r. r.now) rows.now)) }
{
    let mut after = Vec::new(alloc);
    for row in rows {
        if !region_has(region, row) {
            after.push(*row)?;
        }
    }
    Ok(after)
}
