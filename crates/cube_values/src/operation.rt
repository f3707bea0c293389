//! What a transaction does, and which rows a deletion or a query is about.

use crate::row::StoredRows;
use crate::sequence::Sequence;
use crate::text::Text;
use crate::value::{Value, Values};

/// A test on the value of a dimension.
#[derive(Clone, Debug, Drop)]
pub enum ValueTest {
    /// The value is this one.
    Equal(Value),
    /// The value is one of these.
    OneOf(Values),
    /// The value is a number, not below the first and not above the second.
    Between(Value, Value),
}

/// A test on the value at a place.
#[derive(Clone, Debug, Drop)]
pub struct Condition {
    /// The place of the dimension in its cube, from 0.
    pub place: u32,
    pub test: ValueTest,
}

/// Conditions that all have to hold.
pub type Conditions = Sequence<Condition>;

/// The rows of one cube for which every condition holds.
#[derive(Clone, Debug, Drop)]
pub struct Region {
    /// The name of the cube.
    pub cube: Text,
    pub conditions: Conditions,
}

/// An operation of a transaction.
#[derive(Clone, Debug, Drop)]
pub enum Operation {
    /// Appends rows.
    Put(StoredRows),
    /// Deletes the rows of a region.
    Drop(Region),
}

/// Operations in order. The place of an operation is its index.
pub type Operations = Sequence<Operation>;

/// A transaction.
#[derive(Clone, Debug, Drop)]
pub struct Transaction {
    pub epoch: u64,
    pub operations: Operations,
}

/// Transactions by rising epoch.
pub type Transactions = Sequence<Transaction>;
