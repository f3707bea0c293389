//! Why a statement is refused.

ghost use Rattle.std.specs.Prelude.{◌≡◌};
ghost use Rattle.cube_journal.specs.Refusals.{code, of_misfit};

use cube_language::{BadRow, Item, Misfit, SchemaFault, Syntax};
use cube_values::Text;

/// Why a statement was not done, by rising numbers. Those from 28 on are of a plan of nodes, and
/// `ReadOnly` is of a follower.
#[derive(Clone, Debug, PartialEq, Eq, Drop)]
pub enum Refusal {
    /// The text spells no statement.
    Syntax(Syntax),
    /// No cube has the name.
    UnknownCube { name: Text },
    /// The cube has no column of the name.
    UnknownColumn { name: Text },
    /// The column is used against its kind.
    WrongKind { name: Text },
    /// A plain item does not stand in GROUP BY.
    NotGrouped { name: Text },
    /// The deletion cuts a range of the dimension.
    CutsBrick { name: Text },
    /// A row of an INSERT, counted from 1, cannot be stored.
    BadRow { row: u64, why: BadRow },
    /// The file of a LOAD is not there.
    NoSuchFile,
    /// The file of a LOAD is too long.
    FileTooLong { size: u64 },
    /// One record more than is allowed is bad.
    TooManyRejected { rejected: u64, allowed: u64 },
    /// The file could not be read.
    ReadFault,
    /// The session has a transaction open.
    TransactionOpen,
    /// The session has no transaction.
    NoTransaction,
    /// The session's transaction was aborted.
    TransactionAborted,
    /// The dictionary is full and lacks the text.
    DictionaryFull { name: Text },
    /// Memory ran out.
    NoMemory,
    /// A round was lost to the disk.
    StoreFailed,
    /// The shard, which holds so many rows, has no place for those of the statement.
    ShardFull { shard: u32, rows: u64 },
    /// A cube has the name already.
    CubeExists { name: Text },
    /// The cube cannot be stored.
    BadCube { fault: SchemaFault },
    /// There are as many cubes as there can be.
    TooManyCubes,
    /// A follower runs a SELECT alone.
    ReadOnly,
    /// The session has a watch.
    WatchOpen,
    /// The session has no watch.
    NoWatch,
    /// A watch cannot keep up a MIN or MAX.
    NotWatchable { item: Item },
    /// An item of HAVING or ORDER BY does not stand among those of the SELECT.
    NotAnItem { item: Item },
    /// An average is tested by HAVING.
    BadHaving { item: Item },
    /// The epoch is not open at the node.
    NoSuchOpen { epoch: u64 },
    /// There is no such entry to be delivered.
    NoSuchEntry,
    /// The node has as many open epochs as it can have.
    TooManyOpen,
    /// The node's counter would pass its limit.
    Spent { counter: u64 },
}

impl Refusal {
    /// The refusal of a statement that does not fit its cube. It takes no memory.
    pub fn of_misfit(misfit: Misfit) -> Refusal
        ensures { result ≡ of_misfit misfit }
    {
        match misfit {
            Misfit::UnknownColumn { name } => Refusal::UnknownColumn { name },
            Misfit::WrongKind { name } => Refusal::WrongKind { name },
            Misfit::NotGrouped { name } => Refusal::NotGrouped { name },
            Misfit::NotAnItem { item } => Refusal::NotAnItem { item },
            Misfit::BadHaving { item } => Refusal::BadHaving { item },
            Misfit::NotWatchable { item } => Refusal::NotWatchable { item },
            Misfit::CutsBrick { name } => Refusal::CutsBrick { name },
            Misfit::BadRow { row, why } => Refusal::BadRow { row, why },
        }
    }

    /// The number by which replies and the journal tell it.
    pub fn code(&self) -> u32
        ensures { result ≡ code self.now }
    {
        match self {
            Refusal::Syntax(_) => 1,
            Refusal::UnknownCube { .. } => 2,
            Refusal::UnknownColumn { .. } => 3,
            Refusal::WrongKind { .. } => 4,
            Refusal::NotGrouped { .. } => 5,
            Refusal::CutsBrick { .. } => 6,
            Refusal::BadRow { .. } => 7,
            Refusal::NoSuchFile => 8,
            Refusal::FileTooLong { .. } => 9,
            Refusal::TooManyRejected { .. } => 10,
            Refusal::ReadFault => 11,
            Refusal::TransactionOpen => 12,
            Refusal::NoTransaction => 13,
            Refusal::TransactionAborted => 14,
            Refusal::DictionaryFull { .. } => 15,
            Refusal::NoMemory => 16,
            Refusal::StoreFailed => 17,
            Refusal::ShardFull { .. } => 18,
            Refusal::CubeExists { .. } => 19,
            Refusal::BadCube { .. } => 20,
            Refusal::TooManyCubes => 21,
            Refusal::ReadOnly => 22,
            Refusal::WatchOpen => 23,
            Refusal::NoWatch => 24,
            Refusal::NotWatchable { .. } => 25,
            Refusal::NotAnItem { .. } => 26,
            Refusal::BadHaving { .. } => 27,
            Refusal::NoSuchOpen { .. } => 28,
            Refusal::NoSuchEntry => 29,
            Refusal::TooManyOpen => 30,
            Refusal::Spent { .. } => 31,
        }
    }
}
