//! What a session keeps of its watch.

use cube_journal::Reply;
use cube_language::Statement;
use cube_schema::Schema;
use cube_values::Table;
use watched_queries::SessionWatch;

/// A session's watch between two of its statements.
#[derive(Drop)]
pub struct CoreWatch {
    pub watch: SessionWatch,
    /// The WATCH that set it up.
    pub asked: Statement,
    /// The cube that it watches.
    pub cube: Schema,
}

/// A watch with its table.
#[derive(Drop)]
pub struct ShownWatch {
    pub watch: SessionWatch,
    pub table: Table,
}

/// A WATCH that is done: what it is answered, and what the session keeps.
#[derive(Drop)]
pub struct Watching {
    pub reply: Reply,
    pub kept: CoreWatch,
}
