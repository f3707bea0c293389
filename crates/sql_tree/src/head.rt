//! What a statement is read by: the symbols that say nothing but themselves, and the words that choose a form.

use cube_language::{Conds, Items, Keyword, Names};
use cube_values::Text;

/// A symbol that says nothing but itself.
#[derive(Clone, Copy, PartialEq, Eq)]
pub(crate) enum Sign {
    Keyword(Keyword),
    Open,
    Close,
    Comma,
    Star,
}

/// The word that an item begins with which is no name.
#[derive(Clone, Copy)]
pub(crate) enum Aggregate {
    Sum,
    Min,
    Max,
    Avg,
    Count,
}

/// How a condition goes on behind its name.
#[derive(Clone, Copy)]
pub(crate) enum Operator {
    Equal,
    In,
    Between,
}

/// The word that a statement begins with.
#[derive(Clone, Copy)]
pub(crate) enum Verb {
    Select,
    Insert,
    Load,
    Delete,
    Begin,
    Commit,
    Rollback,
    Flush,
    Purge,
    Show,
    Create,
    Watch,
}

/// What a SHOW shows.
#[derive(Clone, Copy)]
pub(crate) enum Shown {
    Epochs,
    Watch,
}

/// The word that a column of a cube begins with.
#[derive(Clone, Copy)]
pub(crate) enum ColumnHead {
    Dim,
    Metric,
}

/// What a SELECT asks for before HAVING, ORDER BY and LIMIT.
#[derive(Drop)]
pub(crate) struct Selection {
    pub items: Items,
    pub cube: Text,
    pub conds: Conds,
    pub group: Names,
}
