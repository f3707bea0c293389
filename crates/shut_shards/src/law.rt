//! Laws of the shards in the cells that a run leaves.

ghost use Rattle.std.specs.Prelude.{◌≡◌, ℕ, ◌%◌, true, List, slice_get, Some};
ghost use Rattle.std.specs.List.{AllByRecursion};
ghost use Rattle.cube_values.specs.Visible.{visible_rows};
ghost use Rattle.cube_language.specs.declared.decl.Decl.{Decl};
ghost use Rattle.cube_run.specs.RunRecords.{catalog_of};
ghost use Rattle.cube_run.specs.RunTransactions.{run_transactions};
ghost use Rattle.condition_spans.specs.Codes.{lists_at};
ghost use Rattle.one_session.specs.Changes.{rows_in_cube};
ghost use Rattle.core_agreements.specs.ScriptedRuns.{IsScriptedRun};
ghost use Rattle.core_records.specs.CoreRecords.{RunScripts, record_of};
ghost use Rattle.core_events.specs.Clients.{reader_up_to};
ghost use Rattle.final_shards.specs.FinalShards.{AllIsSafe, HasPurgedToLse, lse_of};
ghost use Rattle.core_events.specs.Events.{Opening, CoreEvent};
ghost use Rattle.core_events.specs.Runs.{IsCoreRun};
ghost use Rattle.core_events.specs.ShardView.{ShardView, rows_appended};
ghost use Rattle.core_program.specs.CoreFits.{CoreEntry};
ghost use Rattle.cube_core.specs.BoardCells.{IsEntryEvent, cell_of_shard};
ghost use Rattle.cube_core.specs.CoreSteps.{CoreStep};
ghost use Rattle.cube_core.specs.Links.{AreEventsOf};
ghost use Rattle.cube_core.specs.declared.cell.CoreCell.{CoreCell};
ghost use Rattle.linked_shards.specs.CellShards.{CoreShardStands, CoreShardStep};
ghost use Rattle.linked_shards.specs.declared.cell.CoreShard.{CoreShard};
ghost use Rattle.shard_cell.specs.Shards.{ShardState, shard_brick};
ghost use Rattle.shard_events.specs.ShardsInRuns.{FitsShard, ShardAnswerSays, StandsInRun};
ghost use Rattle.turn_board.specs.History.{LeadsTo, of_cell};
ghost use Rattle.final_shards.specs.PurgedBricks.{HasNoMark, rows_held_up_to, was_purged};
ghost use Rattle.shut_shards.specs.ShutShards.{
  CellHasNoMarksUpTo,
  CellsStand,
  HasNoMarksUpTo,
  IsRunEntry,
  ShardsHoldRowsFor,
  rows_in_shard,
  rows_in_shard_up_to,
};

/// Of each brick of its own a shard holds just the rows of the view that it is taken for, and of the epochs
/// up to LSE just those that this holds up to it.
pub fn shut_shards_hold_their_views()
    ensures all { (o : Opening) (number lse cube brick : ℕ) (shard : ShardState) (view : ShardView)
        → StandsInRun o number lse shard view → brick % o.shards ≡ number
        → rows_in_shard shard cube brick ≡ rows_appended (view cube brick) }
    ensures safe { (o : Opening) (number lse cube brick : ℕ) (shard : ShardState) (view : ShardView)
        → StandsInRun o number lse shard view → brick % o.shards ≡ number
        → rows_in_shard_up_to lse shard cube brick ≡ rows_held_up_to lse (view cube brick) }
{}

/// Where a purge was made on a shard in a run, the shard that the history leaves in its cell has no mark up
/// to the purge's epoch.
pub fn purged_shards_have_no_old_marks()
    ensures { (o : Opening) (number epoch : ℕ) (log : List CoreEntry) (es : List CoreEvent)
        (opening left : CoreCell CoreShard)
        → AreEventsOf (IsEntryEvent FitsShard CoreShardStands ShardAnswerSays o) log es
        → IsCoreRun o es
        → LeadsTo (CoreStep CoreShardStep) opening (of_cell (cell_of_shard number) log) left
        → was_purged number es epoch ≡ true → CellHasNoMarksUpTo epoch left }
{}

/// Where such a shard is taken for a view without marks, none of its bricks has any.
pub fn purged_shards_have_no_marks()
    ensures { (o : Opening) (number lse cube brick : ℕ) (shard : ShardState) (view : ShardView)
        → StandsInRun o number lse shard view → brick % o.shards ≡ number
        → HasNoMark (view cube brick) → HasNoMarksUpTo lse shard
        → AllByRecursion IsRunEntry (shard_brick shard cube brick).entries }
{}

/// At the end of a run in which a client has had all shards purge up to LSE, what the shards in the cells
/// hold of a cube up to LSE stands for what a reader at LSE sees of the record, each row as often: each row
/// is in the brick of its coordinates, on its shard and no other. Where nothing is above LSE this is all
/// that they hold.
pub fn shut_shards_hold_the_record()
    ensures safe { (o : Opening) (given : RunScripts) (es : List CoreEvent) (client cube : ℕ)
        (d : Decl) (cells : List (CoreCell CoreShard)) → IsScriptedRun o given es
        → CellsStand o cells es → HasPurgedToLse o es client
        → slice_get (catalog_of (record_of o given es)).cubes cube ≡ Some d
        → ShardsHoldRowsFor (rows_in_shard_up_to (lse_of o es)) o cells d
        (lists_at (record_of o given es).names cube) cube (rows_in_cube d.name
        (visible_rows (reader_up_to (lse_of o es)) (run_transactions (record_of o given es)))) }
    ensures all { (o : Opening) (given : RunScripts) (es : List CoreEvent) (client cube : ℕ)
        (d : Decl) (cells : List (CoreCell CoreShard)) → IsScriptedRun o given es
        → CellsStand o cells es → HasPurgedToLse o es client
        → slice_get (catalog_of (record_of o given es)).cubes cube ≡ Some d → AllIsSafe o es
        → ShardsHoldRowsFor rows_in_shard o cells d (lists_at (record_of o given es).names cube) cube
        (rows_in_cube d.name
        (visible_rows (reader_up_to (lse_of o es)) (run_transactions (record_of o given es)))) }
{}
