//! The calls on a shard.

ghost use Rattle.cube_core.specs.declared.shard.ShardAnswer.{ShardAnswer};
ghost use Rattle.cube_core.specs.declared.shard.ShardCall.{ShardCall};

use crate::answered::AnsweredCall;
use agg_fold::Partial;
use cube_rounds::RoundBricks;
use cube_values::{Boxed, BoxedQuery, CodedRows, SharedShape, Snapshot, Span};
use standing_query::Change;

/// A call on a shard. One that speaks of a cube bears the cube's shape.
#[derive(Drop)]
pub enum ShardCall {
    /// A transaction puts rows.
    Append {
        cube: u32,
        shape: SharedShape,
        epoch: u64,
        rows: Boxed<CodedRows>,
    },
    /// A transaction deletes the rows of a box.
    DropBox {
        cube: u32,
        shape: SharedShape,
        epoch: u64,
        span: Span,
    },
    /// The rows of a query that a snapshot sees.
    Scan {
        shape: SharedShape,
        query: BoxedQuery,
        snapshot: Boxed<Snapshot>,
    },
    /// The rows of a query that came and went from one reader to another.
    Delta {
        shape: SharedShape,
        query: BoxedQuery,
        from: u64,
        to: u64,
    },
    /// What a transaction wrote is taken back.
    Rollback {
        epoch: u64,
    },
    /// What no snapshot needs is taken out.
    Purge {
        epoch: u64,
    },
    /// What a round has of the shard.
    CopyRound {
        from: u64,
        to: u64,
    },
}

/// What a shard answers.
#[derive(Drop)]
pub enum ShardAnswer {
    Done,
    /// The shard has so many rows, and those of the call are too many besides; nothing changed.
    ShardFull { rows: u64 },
    Scanned(Boxed<Partial>),
    Changed(Boxed<Change>),
    Copied(RoundBricks),
    /// Memory ran out; nothing changed.
    NoMemory,
}

/// What keeps a shard's bricks.
pub trait ShardCell {
    /// The shard can take the call.
    ghost can: { Self → ShardCall → Type 0 };

    /// The shard before a call, the call, its answer, and the shard that it leaves.
    ghost step: { Self → ShardCall → ShardAnswer → Self → Type 0 };

    /// Makes the call, which is handed back with its answer.
    fn call(&mut self, call: ShardCall) -> AnsweredCall
        requires { can self.old call }
        ensures { step self.old call result self.new };
}
