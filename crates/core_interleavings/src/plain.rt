//! The plain program: transactions with their operations, and what a snapshot sees of them, by lists alone.
use crate::sessions::TakenStep;
use core_steps::{Step, StepAnswer, Totals};
use cube_core::FlushAnswer;
use cube_values::EpochList;
use std::alloc::{AllocError, Global};

/// An operation of a transaction.
#[derive(Clone, Copy)]
pub(crate) enum PlainOperation {
    Put { row: PlainRow },
    Delete { low: u32, high: u32 },
}

/// A row.
#[derive(Clone, Copy)]
pub(crate) struct PlainRow {
    coord: u32,
    metric: i64,
}

/// A transaction that committed.
#[derive(Drop)]
pub(crate) struct PlainTransaction {
    epoch: u64,
    operations: Vec<PlainOperation>,
}

/// A query, and what it found. A reader has no deps and no operations of its own.
#[derive(Drop)]
pub(crate) struct PlainQuery {
    epoch: u64,
    deps: EpochList,
    own: Vec<PlainOperation>,
    is_writer: bool,
    low: u32,
    high: u32,
    pub(crate) totals: Totals,
}

impl PlainQuery {
    /// Whether its snapshot has deps.
    pub(crate) fn has_deps(&self) -> bool {
        !self.deps.as_slice().is_empty()
    }
}

/// What all sessions did.
#[derive(Drop)]
pub(crate) struct PlainRun {
    transactions: Vec<PlainTransaction>,
    pub(crate) queries: Vec<PlainQuery>,
    pub(crate) rounds: u64,
    pub(crate) purges: u64,
    pub(crate) rollbacks: u64,
}

// The transaction in which a session is, if any.
#[derive(Drop)]
struct PlainWriter {
    deps: EpochList,
    is_open: bool,
    operations: Vec<PlainOperation>,
}

// The operation that a step is. Other steps are none.
fn operation_of(step: Step) -> Option<PlainOperation> {
    match step {
        Step::Put { coord, metric } => Some(PlainOperation::Put {
            row: PlainRow { coord, metric },
        }),
        Step::Delete { low, high } => Some(PlainOperation::Delete { low, high }),
        _ => None,
    }
}

fn operations_of(alloc: Global, step: Step) -> Result<Vec<PlainOperation>, AllocError> {
    let mut operations = Vec::new(alloc);
    if let Some(operation) = operation_of(step) {
        operations.push(operation)?;
    }
    Ok(operations)
}

impl PlainWriter {
    // No transaction.
    fn none(alloc: Global) -> PlainWriter {
        PlainWriter {
            deps: EpochList::new(),
            is_open: false,
            operations: Vec::new(alloc),
        }
    }

    // Its operations, which it gives away.
    fn take(&mut self, alloc: Global) -> Vec<PlainOperation> {
        self.is_open = false;
        self.deps = EpochList::new();
        std::mem::replace(&mut self.operations, Vec::new(alloc))
    }
}

impl PlainRun {
    /// Nothing was done.
    pub(crate) fn new(alloc: Global) -> PlainRun {
        PlainRun {
            transactions: Vec::new(alloc),
            queries: Vec::new(alloc),
            rounds: 0,
            purges: 0,
            rollbacks: 0,
        }
    }

    // One more transaction that committed.
    fn commit(&mut self, epoch: u64, operations: Vec<PlainOperation>) -> Result<(), AllocError> {
        self.transactions
            .push(PlainTransaction { epoch, operations })?;
        Ok(())
    }

    /// What a session did.
    pub(crate) fn take(&mut self, alloc: Global, steps: &[TakenStep]) -> Result<(), AllocError> {
        let mut writer = PlainWriter::none(alloc);
        for taken in steps {
            self.take_step(alloc, &mut writer, taken)?;
        }
        Ok(())
    }

    fn take_step(
        &mut self,
        alloc: Global,
        writer: &mut PlainWriter,
        taken: &TakenStep,
    ) -> Result<(), AllocError> {
        match &taken.answer {
            StepAnswer::Begun(begun) => {
                writer.take(alloc);
                writer.is_open = true;
                writer.deps = begun.deps.copy();
                Ok(())
            }
            StepAnswer::Written => {
                if let Some(operation) = operation_of(taken.step) {
                    writer.operations.push(operation)?;
                }
                Ok(())
            }
            StepAnswer::Stored { epoch } => {
                let operations = operations_of(alloc, taken.step)?;
                self.commit(*epoch, operations)
            }
            StepAnswer::Found { epoch, totals } => {
                self.take_query(alloc, writer, taken.step, *epoch, *totals)
            }
            StepAnswer::Committed { epoch } => {
                let operations = writer.take(alloc);
                self.commit(*epoch, operations)
            }
            StepAnswer::RolledBack { epoch: _ } => {
                writer.take(alloc);
                self.rollbacks = self.rollbacks.wrapping_add(1);
                Ok(())
            }
            StepAnswer::Purged { epoch } => {
                if *epoch > 0 {
                    self.purges = self.purges.wrapping_add(1);
                }
                Ok(())
            }
            StepAnswer::Flushed(end) => {
                if *end == FlushAnswer::Done {
                    self.rounds = self.rounds.wrapping_add(1);
                }
                Ok(())
            }
            StepAnswer::NoStep => Ok(()),
        }
    }

    fn take_query(
        &mut self,
        alloc: Global,
        writer: &PlainWriter,
        step: Step,
        epoch: u64,
        totals: Totals,
    ) -> Result<(), AllocError> {
        let Step::Query { low, high } = step else {
            return Ok(());
        };
        let own = Vec::from_slice(alloc, writer.operations.as_slice())?;
        self.queries.push(PlainQuery {
            epoch,
            deps: writer.deps.copy(),
            own,
            is_writer: writer.is_open,
            low,
            high,
            totals,
        })?;
        Ok(())
    }

    // The operations of the transaction of an epoch. There are none where it has not committed.
    fn operations_at(&self, epoch: u64) -> &[PlainOperation] {
        for transaction in self.transactions.as_slice() {
            if transaction.epoch == epoch {
                return transaction.operations.as_slice();
            }
        }
        &[]
    }

    /// All rows that a query's snapshot sees: the transactions run one after the other, in the order of their epochs, and
    /// then the own operations of a writer. Where `with` says so deletions are left out, or the deps are seen.
    fn rows_of(
        &self,
        alloc: Global,
        query: &PlainQuery,
        with: PlainWish,
    ) -> Result<Vec<PlainRow>, AllocError> {
        let mut rows = Vec::new(alloc);
        for epoch in 1..=query.epoch {
            let is_own = query.is_writer && epoch == query.epoch;
            let is_dep = query.deps.contains(epoch) && with != PlainWish::Deps;
            if !is_own && !is_dep {
                run(&mut rows, self.operations_at(epoch), with)?;
            }
        }
        run(&mut rows, query.own.as_slice(), with)?;
        Ok(rows)
    }

    /// What a query finds.
    pub(crate) fn totals_of(
        &self,
        alloc: Global,
        query: &PlainQuery,
        with: PlainWish,
    ) -> Result<Totals, AllocError> {
        let rows = self.rows_of(alloc, query, with)?;
        let mut found = Totals { rows: 0, sum: None };
        for row in rows.as_slice() {
            if query.low <= row.coord && row.coord <= query.high {
                found = with_row(found, row.metric);
            }
        }
        Ok(found)
    }

    /// A number that tells runs apart by the epochs of their transactions and by what was found.
    pub(crate) fn mark(&self) -> u64 {
        let mut mark: u64 = 1;
        for transaction in self.transactions.as_slice() {
            mark = mixed(mark, transaction.epoch);
        }
        for query in self.queries.as_slice() {
            mark = mixed(mark, query.epoch);
            mark = mixed(mark, u64::try_from(query.totals.rows).unwrap_or(0));
        }
        mark
    }
}

// One row more.
fn with_row(totals: Totals, metric: i64) -> Totals {
    Totals {
        rows: totals.rows.wrapping_add(1),
        sum: Some(totals.sum.unwrap_or(0).wrapping_add(i128::from(metric))),
    }
}

fn mixed(mark: u64, number: u64) -> u64 {
    mark.wrapping_mul(6_364_136_223_846_793_005)
        .wrapping_add(number)
        .wrapping_add(1)
}

/// What a look is for: the answer, or what it would be if deletions were left out, or if deps were seen.
#[derive(Clone, Copy, PartialEq, Eq)]
pub(crate) enum PlainWish {
    Answer,
    NoDeletions,
    Deps,
}

// Runs operations: a row comes, or the rows between two coordinates go.
fn run(
    rows: &mut Vec<PlainRow>,
    operations: &[PlainOperation],
    with: PlainWish,
) -> Result<(), AllocError> {
    for operation in operations {
        match operation {
            PlainOperation::Put { row } => rows.push(*row)?,
            PlainOperation::Delete { low, high } => {
                if with != PlainWish::NoDeletions {
                    rows.retain(|row| row.coord < *low || *high < row.coord);
                }
            }
        }
    }
    Ok(())
}
