//! Laws of shards that have purged, over every run of the core.

ghost use Rattle.std.specs.Prelude.{◌≡◌, ℕ, ◌%◌, ◌<◌, true, List, slice_get, Some};
ghost use Rattle.std.specs.List.Sorted.{IsPermutation};
ghost use Rattle.cube_values.specs.Visible.{visible_rows};
ghost use Rattle.cube_language.specs.declared.decl.Decl.{Decl};
ghost use Rattle.cube_run.specs.RunRecords.{catalog_of};
ghost use Rattle.cube_run.specs.RunTransactions.{run_transactions};
ghost use Rattle.condition_spans.specs.Codes.{lists_at};
ghost use Rattle.one_session.specs.Changes.{rows_in_cube};
ghost use Rattle.core_agreements.specs.ScriptedRuns.{IsScriptedRun};
ghost use Rattle.core_records.specs.CoreRecords.{RunScripts, record_of};
ghost use Rattle.core_serial.specs.Copies.{rows_committed_up_to};
ghost use Rattle.final_shards.specs.FinalShards.{AllIsSafe, HasPurgedToLse, HoldRowsFor, lse_of};
ghost use Rattle.core_events.specs.Cells.{rows_of_brick, shard_view_of};
ghost use Rattle.core_events.specs.Clients.{client_state, reader_up_to};
ghost use Rattle.core_events.specs.Events.{Opening, CoreEvent};
ghost use Rattle.core_events.specs.Runs.{IsCoreRun};
ghost use Rattle.core_events.specs.ShardView.{
  BrickEntry,
  EpochSet,
  brick_rows_seen,
  entries_after_purge,
  rows_appended,
};
ghost use Rattle.final_shards.specs.PurgedBricks.{
  HasNoMark,
  HasNoMarkUpTo,
  HasPurgedShards,
  rows_held_up_to,
  was_purged,
};

/// A purge leaves no mark up to its epoch, and of a brick without such marks a reader at that epoch sees
/// just the rows up to it that the brick holds.
pub fn purged_bricks_hold_what_is_seen()
    ensures marks { (epochs : EpochSet) (epoch : ℕ) (entries : List BrickEntry)
        → HasNoMarkUpTo epoch (entries_after_purge epochs epoch entries) }
    ensures rows { (epoch : ℕ) (entries : List BrickEntry) → HasNoMarkUpTo epoch entries
        → brick_rows_seen (reader_up_to epoch) entries ≡ rows_held_up_to epoch entries }
{}

/// A purge whose answer was fetched was made, and behind one that was made no brick of its shard has a mark
/// up to its epoch, whatever the sessions post and the shards do since. So once a client has had all shards
/// purge up to an epoch, no brick has one.
pub fn purges_leave_no_marks()
    ensures made { (o : Opening) (es : List CoreEvent) (client epoch shard : ℕ) → IsCoreRun o es
        → HasPurgedShards o.shards epoch (client_state o client es).group → shard < o.shards
        → was_purged shard es epoch ≡ true }
    ensures marks { (o : Opening) (es : List CoreEvent) (shard epoch cube brick : ℕ) → IsCoreRun o es
        → brick % o.shards ≡ shard → was_purged shard es epoch ≡ true
        → HasNoMarkUpTo epoch (shard_view_of o es cube brick) }
    ensures all { (o : Opening) (es : List CoreEvent) (client epoch cube brick : ℕ) → IsCoreRun o es
        → HasPurgedShards o.shards epoch (client_state o client es).group
        → HasNoMarkUpTo epoch (shard_view_of o es cube brick) }
{}

/// Where a client has had all shards purge up to the LSE at which a run ends, each brick holds, of the
/// epochs up to LSE, just its rows among those that the committed transactions up to LSE leave, each as
/// often.
pub fn purged_shards_hold_committed_rows()
    ensures { (o : Opening) (es : List CoreEvent) (client cube brick : ℕ) → IsCoreRun o es
        → HasPurgedToLse o es client
        → IsPermutation (rows_held_up_to (lse_of o es) (shard_view_of o es cube brick))
        (rows_of_brick o cube brick (rows_committed_up_to o es cube (lse_of o es))) }
{}

/// Where nothing is above LSE besides, no brick has a mark, and it holds no other rows.
pub fn purged_shards_hold_nothing_else()
    ensures marks { (o : Opening) (es : List CoreEvent) (client cube brick : ℕ) → IsCoreRun o es
        → HasPurgedToLse o es client → AllIsSafe o es → HasNoMark (shard_view_of o es cube brick) }
    ensures rows { (o : Opening) (es : List CoreEvent) (cube brick : ℕ) → IsCoreRun o es
        → AllIsSafe o es
        → rows_appended (shard_view_of o es cube brick)
        ≡ rows_held_up_to (lse_of o es) (shard_view_of o es cube brick) }
{}

/// What the bricks of a cube then hold up to LSE stands for what a reader at LSE sees of the record, each
/// row as often.
pub fn purged_shards_hold_the_record()
    ensures { (o : Opening) (given : RunScripts) (es : List CoreEvent) (client cube : ℕ) (d : Decl)
        → IsScriptedRun o given es → HasPurgedToLse o es client
        → slice_get (catalog_of (record_of o given es)).cubes cube ≡ Some d
        → HoldRowsFor o d (lists_at (record_of o given es).names cube) cube (lse_of o es)
        (shard_view_of o es) (rows_in_cube d.name
        (visible_rows (reader_up_to (lse_of o es)) (run_transactions (record_of o given es)))) }
{}
