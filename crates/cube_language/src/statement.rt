//! A statement of a script.

use crate::decl::{Decl, Names};
use cube_values::{Bound, Sequence, Text, Value, Values};

/// A column of the answer to a query.
#[derive(Clone, Debug, PartialEq, Eq, Drop)]
pub enum Item {
    /// A dimension by its name.
    Plain(Text),
    /// `SUM(metric)`
    Sum(Text),
    /// `MIN(metric)`
    Min(Text),
    /// `MAX(metric)`
    Max(Text),
    /// `AVG(metric)`
    Avg(Text),
    /// `COUNT(*)`
    CountAll,
}

/// Items in order.
pub type Items = Sequence<Item>;

/// A condition on the values of a dimension.
#[derive(Clone, Debug, PartialEq, Eq, Drop)]
pub enum Cond {
    /// `name = value`
    Equal(Text, Value),
    /// `name IN (values)`
    In(Text, Values),
    /// `name BETWEEN value AND value`
    Between(Text, Value, Value),
}

/// Conditions in order.
pub type Conds = Sequence<Cond>;

/// Rows of values, as an INSERT has them.
pub type Tuples = Sequence<Values>;

/// A test of HAVING, on the value that an item has in a line of the answer.
#[derive(Clone, Debug, PartialEq, Eq, Drop)]
pub struct Test {
    pub item: Item,
    pub bound: Bound,
}

/// Tests that all have to be passed.
pub type Tests = Sequence<Test>;

/// A key of ORDER BY.
#[derive(Clone, Debug, PartialEq, Eq, Drop)]
pub struct Key {
    pub item: Item,
    /// Whether the greatest value comes first. Else the least does.
    pub desc: bool,
}

/// Keys, of which each orders the lines that are alike by those before it.
pub type Keys = Sequence<Key>;

/// What a session does next.
#[derive(Clone, Debug, PartialEq, Eq, Drop)]
pub enum Statement {
    /// `SELECT items FROM cube WHERE conds GROUP BY group HAVING having ORDER BY order LIMIT limit`
    Select {
        items: Items,
        cube: Text,
        conds: Conds,
        group: Names,
        having: Tests,
        order: Keys,
        limit: Option<u64>,
    },
    /// `INSERT INTO cube VALUES rows`
    Insert {
        cube: Text,
        rows: Tuples,
    },
    /// `LOAD cube FROM path REJECT reject`
    Load {
        cube: Text,
        path: Text,
        reject: u64,
    },
    /// `DELETE FROM cube WHERE conds`
    Delete {
        cube: Text,
        conds: Conds,
    },
    Begin,
    Commit,
    Rollback,
    Flush,
    Purge,
    /// `SHOW EPOCHS`
    ShowEpochs,
    /// `CREATE CUBE name (columns)`
    CreateCube {
        decl: Decl,
    },
    /// `WATCH SELECT items FROM cube WHERE conds GROUP BY group`
    Watch {
        items: Items,
        cube: Text,
        conds: Conds,
        group: Names,
    },
    /// `SHOW WATCH`
    ShowWatch,
}
