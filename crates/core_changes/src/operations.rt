//! The law of what calls one after the other add to the operations of a session's transactions.

ghost use Rattle.std.specs.Prelude.{ℕ, List, ◌++◌};
ghost use mathlib.Core.List.{IsPrefix};
ghost use Rattle.core_events.specs.Serial.{CubeOperation};
ghost use Rattle.core_program.specs.CoreFits.{CoreEntry};
ghost use Rattle.cube_core.specs.declared.cell.CoreCell.{CoreCell};
ghost use Rattle.cube_journal.specs.declared.journal_entry.JournalEntry.{JournalEntry};
ghost use Rattle.linked_shards.specs.CellShards.{CoreShardStands};
ghost use Rattle.linked_shards.specs.declared.cell.CoreShard.{CoreShard};
ghost use Rattle.posted_pasts.specs.PostsAdded.{AddsAtEpoch, AddsNoOperation, AddsOperations, LearnsThat};
ghost use Rattle.shard_events.specs.ShardsInRuns.{FitsShard, ShardAnswerSays};
ghost use Rattle.shard_statements.specs.OverShards.{LeavesOverShards};

/// Plain calls add no operation. What calls add stays so with calls before or after them that add none; and operations
/// of a cube at an epoch are all at this epoch.
pub fn operations_of_changes_add_up()
    ensures plain { (cells : List (CoreCell CoreShard)) (caller session : ℕ) (own now : List CoreEntry)
        (added : List JournalEntry) → LeavesOverShards cells caller session own now added
        → LearnsThat FitsShard CoreShardStands ShardAnswerSays AddsNoOperation cells caller session own now }
    ensures none { (cells : List (CoreCell CoreShard)) (caller session : ℕ) (own mid now : List CoreEntry)
        → IsPrefix mid now
        → LearnsThat FitsShard CoreShardStands ShardAnswerSays AddsNoOperation cells caller session own mid
        → LearnsThat FitsShard CoreShardStands ShardAnswerSays AddsNoOperation cells caller session mid now
        → LearnsThat FitsShard CoreShardStands ShardAnswerSays AddsNoOperation cells caller session own now }
    ensures none_then { (cells : List (CoreCell CoreShard)) (caller session cube epoch : ℕ)
        (operations : List CubeOperation) (own mid now : List CoreEntry) → IsPrefix mid now
        → LearnsThat FitsShard CoreShardStands ShardAnswerSays AddsNoOperation cells caller session own mid
        → LearnsThat FitsShard CoreShardStands ShardAnswerSays (AddsOperations cube epoch operations) cells caller
        session mid now
        → LearnsThat FitsShard CoreShardStands ShardAnswerSays (AddsOperations cube epoch operations) cells caller
        session own now }
    ensures then_none { (cells : List (CoreCell CoreShard)) (caller session cube epoch : ℕ)
        (operations : List CubeOperation) (own mid now : List CoreEntry) → IsPrefix mid now
        → LearnsThat FitsShard CoreShardStands ShardAnswerSays (AddsOperations cube epoch operations) cells caller
        session own mid
        → LearnsThat FitsShard CoreShardStands ShardAnswerSays AddsNoOperation cells caller session mid now
        → LearnsThat FitsShard CoreShardStands ShardAnswerSays (AddsOperations cube epoch operations) cells caller
        session own now }
    ensures more { (cells : List (CoreCell CoreShard)) (caller session cube epoch : ℕ)
        (first later : List CubeOperation) (own mid now : List CoreEntry) → IsPrefix mid now
        → LearnsThat FitsShard CoreShardStands ShardAnswerSays (AddsOperations cube epoch first) cells caller session
        own mid
        → LearnsThat FitsShard CoreShardStands ShardAnswerSays (AddsOperations cube epoch later) cells caller session
        mid now
        → LearnsThat FitsShard CoreShardStands ShardAnswerSays (AddsOperations cube epoch (later ++ first)) cells
        caller session own now }
    ensures at_epoch { (cells : List (CoreCell CoreShard)) (caller session cube epoch : ℕ)
        (operations : List CubeOperation) (own now : List CoreEntry)
        → LearnsThat FitsShard CoreShardStands ShardAnswerSays (AddsOperations cube epoch operations) cells caller
        session own now
        → LearnsThat FitsShard CoreShardStands ShardAnswerSays (AddsAtEpoch epoch) cells caller session own now }
    ensures none_at_epoch { (cells : List (CoreCell CoreShard)) (caller session epoch : ℕ) (own now : List CoreEntry)
        → LearnsThat FitsShard CoreShardStands ShardAnswerSays AddsNoOperation cells caller session own now
        → LearnsThat FitsShard CoreShardStands ShardAnswerSays (AddsAtEpoch epoch) cells caller session own now }
    ensures epoch { (cells : List (CoreCell CoreShard)) (caller session epoch : ℕ) (own mid now : List CoreEntry)
        → IsPrefix mid now
        → LearnsThat FitsShard CoreShardStands ShardAnswerSays (AddsAtEpoch epoch) cells caller session own mid
        → LearnsThat FitsShard CoreShardStands ShardAnswerSays (AddsAtEpoch epoch) cells caller session mid now
        → LearnsThat FitsShard CoreShardStands ShardAnswerSays (AddsAtEpoch epoch) cells caller session own now }
{}
