//! Why a statement cannot be done on its cube.

use crate::bad_row::BadRow;
use crate::statement::Item;
use cube_values::Text;
use thiserror::Error;

/// Why a statement cannot be done on its cube, the first that applies in this order.
#[derive(Clone, Debug, PartialEq, Eq, Drop, Error)]
pub enum Misfit {
    /// The leftmost column of the statement that the cube lacks.
    #[error("UnknownColumn {name}")]
    UnknownColumn { name: Text },
    /// The leftmost column that is used against its kind.
    #[error("WrongKind {name}")]
    WrongKind { name: Text },
    /// The leftmost plain item that the query does not group by.
    #[error("NotGrouped {name}")]
    NotGrouped { name: Text },
    /// The leftmost item of HAVING or ORDER BY that the query does not ask for.
    #[error("NotAnItem {item}")]
    NotAnItem { item: Item },
    /// The leftmost average in HAVING.
    #[error("BadHaving {item}")]
    BadHaving { item: Item },
    /// The leftmost least or greatest value that a WATCH asks for.
    #[error("NotWatchable {item}")]
    NotWatchable { item: Item },
    /// The first dimension of the cube of which a deletion cuts a range.
    #[error("CutsBrick {name}")]
    CutsBrick { name: Text },
    /// The row of this number, counted from 1, is the first that cannot be stored.
    #[error("BadRow row {row} {why}")]
    BadRow { row: u64, why: BadRow },
}
