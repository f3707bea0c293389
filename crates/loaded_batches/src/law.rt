//! The law of the calls by which the records of a LOAD come to their shards.

ghost use Rattle.std.specs.Prelude.{ℕ, List, []};
ghost use Rattle.core_cubes.specs.StatementCalls.{SpeaksFor};
ghost use Rattle.core_program.specs.CoreFits.{CoreEntry};
ghost use Rattle.core_states.specs.LeftBehind.{AddsEntries, GoOnByCalls, LeavesReaders};
ghost use Rattle.cube_core.specs.declared.cell.CoreCell.{CoreCell};
ghost use Rattle.cube_language.specs.declared.statement.Statement.{Statement};
ghost use Rattle.linked_shards.specs.CellShards.{CoreShardStands};
ghost use Rattle.shard_events.specs.ShardsInRuns.{FitsShard, ShardAnswerSays};
ghost use Rattle.linked_shards.specs.declared.cell.CoreShard.{CoreShard};
ghost use Rattle.posted_pasts.specs.PostsAdded.{AddsAtEpoch, LearnsThat};
ghost use Rattle.loaded_batches.specs.LoadingCalls.{GoesOnLoading};

/// Such calls leave no entry, speak for whatever statement makes them, neither open nor close a reader, and change
/// no rows but at the epoch.
pub fn load_calls_change_rows_alone()
    ensures entries { (cells : List (CoreCell CoreShard)) (caller session cube epoch : ℕ)
        (own now : List CoreEntry) → GoesOnLoading cells caller session cube epoch own now
        → AddsEntries FitsShard CoreShardStands ShardAnswerSays cells caller session own now [] }
    ensures speaks { (cells : List (CoreCell CoreShard))
        (caller session cube epoch number : ℕ) (s : Statement) (own now : List CoreEntry)
        → GoesOnLoading cells caller session cube epoch own now
        → GoOnByCalls FitsShard CoreShardStands ShardAnswerSays cells caller session
        (SpeaksFor number s) own now }
    ensures readers { (cells : List (CoreCell CoreShard)) (caller session cube epoch : ℕ)
        (own now : List CoreEntry) → GoesOnLoading cells caller session cube epoch own now
        → GoOnByCalls FitsShard CoreShardStands ShardAnswerSays cells caller session
        LeavesReaders own now }
    ensures epoch { (cells : List (CoreCell CoreShard)) (caller session cube epoch : ℕ)
        (own now : List CoreEntry) → GoesOnLoading cells caller session cube epoch own now
        → LearnsThat FitsShard CoreShardStands ShardAnswerSays (AddsAtEpoch epoch) cells caller
        session own now }
{}
