//! What a shard has to be so that calls on it are events of the core.

ghost use Rattle.std.specs.Prelude.{ℕ};
ghost use Rattle.cube_core.specs.BoardCells.{IsShardLinked};
ghost use Rattle.core_events.specs.Events.{Opening};
ghost use Rattle.core_events.specs.Jobs.{CoreJob, JobOutcome};
ghost use Rattle.core_events.specs.ShardView.{ShardView};
ghost use Rattle.cube_core.specs.declared.shard.ShardAnswer.{ShardAnswer};
ghost use Rattle.cube_core.specs.declared.shard.ShardCall.{ShardCall};

use crate::shard::ShardCell;

/// A shard whose calls are events of the core.
pub trait LinkedShard: ShardCell {
    /// A call fits the shard of a number: it bears the shape of its cube, and rows of the shard.
    ghost fits: { Opening → ℕ → ShardCall → Type 0 };

    /// A shard, by its number, is what a view shows of its bricks to whoever does not tell the epochs up to
    /// the second number apart, which is LSE.
    ghost stands: { Opening → ℕ → ℕ → Self → ShardView → Type 0 };

    /// The outcomes of a job for which an answer stands.
    ghost says: { CoreJob → ShardAnswer → JobOutcome → Type 0 };

    /// A call that fits is a step of the shard's bricks.
    ghost linked: { IsShardLinked Self.can Self.step fits stands says };
}
