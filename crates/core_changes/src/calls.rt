//! The laws of the calls of a statement that changes rows.

ghost use Rattle.std.specs.Prelude.{ℕ, List, [], ◌++◌};
ghost use mathlib.Core.List.{IsPrefix};
ghost use Rattle.core_cubes.specs.StatementCalls.{IsCallFor};
ghost use Rattle.core_program.specs.CoreFits.{CoreEntry};
ghost use Rattle.core_states.specs.LeftBehind.{AddsEntries, GoOnByCalls};
ghost use Rattle.cube_core.specs.declared.cell.CoreCell.{CoreCell};
ghost use Rattle.cube_core.specs.declared.shard.ShardCall.{ShardCall};
ghost use Rattle.cube_journal.specs.declared.journal_entry.JournalEntry.{JournalEntry};
ghost use Rattle.cube_language.specs.declared.statement.Statement.{Statement};
ghost use Rattle.cube_values.specs.declared.row.CodedRow.{CodedRow};
ghost use Rattle.cube_values.specs.declared.shape.CubeShape.{CubeShape};
ghost use Rattle.linked_shards.specs.CellShards.{CoreShardStands};
ghost use Rattle.linked_shards.specs.declared.cell.CoreShard.{CoreShard};
ghost use Rattle.core_changes.specs.CallsOfChanges.{LeavesByJobs, LeavesForChange};
ghost use Rattle.scripted_pasts.specs.Served.{LeavesItsWatch};
ghost use Rattle.session_batches.specs.PutRows.{LearnsOfRows};
ghost use Rattle.session_batches.specs.declared.answers.PutEnd.{PutEnd};
ghost use Rattle.session_groups.specs.ShardGroups.{HasAskedAll};
ghost use Rattle.shard_events.specs.ShardsInRuns.{FitsShard, ShardAnswerSays};
ghost use Rattle.shard_statements.specs.OverShards.{LeavesOverShards};

/// Plain calls may be those of a statement that changes rows, and so may the calls by which it looks for its cube. Such
/// calls go on by more of them, and leave the session's watch as it is.
pub fn calls_of_changes_go_on()
    ensures none { (cells : List (CoreCell CoreShard)) (caller session number : ℕ) (s : Statement)
        (own : List CoreEntry) → LeavesForChange cells caller session number s own own [] }
    ensures plain { (cells : List (CoreCell CoreShard)) (caller session number : ℕ) (s : Statement)
        (own now : List CoreEntry) (added : List JournalEntry)
        → LeavesOverShards cells caller session own now added
        → LeavesForChange cells caller session number s own now added }
    ensures search { (cells : List (CoreCell CoreShard)) (caller session number : ℕ) (s : Statement)
        (own now : List CoreEntry) (added : List JournalEntry) → IsPrefix own now
        → AddsEntries FitsShard CoreShardStands ShardAnswerSays cells caller session own now added
        → GoOnByCalls FitsShard CoreShardStands ShardAnswerSays cells caller session (IsCallFor number s) own now
        → LeavesForChange cells caller session number s own now added }
    ensures further { (cells : List (CoreCell CoreShard)) (caller session number : ℕ) (s : Statement)
        (own mid now : List CoreEntry) (added more : List JournalEntry)
        → LeavesForChange cells caller session number s own mid added
        → LeavesForChange cells caller session number s mid now more
        → LeavesForChange cells caller session number s own now (added ++ more) }
    ensures watch { (cells : List (CoreCell CoreShard)) (caller session number : ℕ) (s : Statement)
        (own now : List CoreEntry) (added : List JournalEntry)
        → LeavesForChange cells caller session number s own now added
        → LeavesItsWatch cells caller session own now }
{}

/// A group of jobs leaves no entry and asks for no text's code, and its calls may be those of a statement
/// that changes
/// rows: where each shard was asked by a call, and where rows were put.
pub fn groups_are_calls_of_changes()
    ensures asked { (cells : List (CoreCell CoreShard)) (caller session number shards : ℕ) (s : Statement)
        (call : ShardCall) (own now : List CoreEntry)
        → HasAskedAll cells caller session shards call own now
        → LeavesByJobs cells caller session number s own now }
    ensures put { (cells : List (CoreCell CoreShard)) (caller session number shards cube epoch : ℕ) (s : Statement)
        (shape : CubeShape) (rows : List CodedRow) (told : PutEnd) (own now : List CoreEntry)
        → IsPrefix own now
        → LearnsOfRows cells caller session shards cube shape epoch rows told own now
        → LeavesByJobs cells caller session number s own now }
{}
