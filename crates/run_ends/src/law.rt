//! Laws of runs on threads that main ends by a purge.

ghost use Rattle.std.specs.Prelude.{◌≡◌, ℕ, ◌%◌, ◌<◌, List, slice_get, Some};
ghost use Rattle.std.specs.List.{AllByRecursion};
ghost use Rattle.condition_spans.specs.Codes.{lists_at};
ghost use Rattle.core_agreements.specs.ScriptedRuns.{IsScriptedRun};
ghost use Rattle.core_events.specs.Cells.{counters_of_run};
ghost use Rattle.core_events.specs.Clients.{reader_up_to};
ghost use Rattle.core_events.specs.Events.{Opening, CoreEvent};
ghost use Rattle.core_program.specs.CoreFits.{CoreEntry};
ghost use Rattle.core_records.specs.CoreRecords.{RunScripts, record_of};
ghost use Rattle.cube_journal.specs.Counters.{counters_in};
ghost use Rattle.cube_journal.specs.declared.counters.Counters.{Counters};
ghost use Rattle.cube_language.specs.declared.decl.Decl.{Decl};
ghost use Rattle.cube_run.specs.Merge.{IsMerge};
ghost use Rattle.cube_run.specs.RunRecords.{catalog_of};
ghost use Rattle.cube_run.specs.RunTransactions.{run_transactions};
ghost use Rattle.cube_values.specs.Visible.{visible_rows};
ghost use Rattle.final_shards.specs.FinalShards.{HasPurgedToLse};
ghost use Rattle.linked_shards.specs.declared.cell.CoreShard.{CoreShard};
ghost use Rattle.one_session.specs.Changes.{rows_in_cube};
ghost use Rattle.core_serial.specs.Journals.{journal_of};
ghost use Rattle.flush_loop.specs.declared.round_result.RoundResult.{RoundResult};
ghost use Rattle.last_rounds.specs.SavedEpochs.{HasSaved, last_saved};
ghost use Rattle.run_ends.specs.RunEnds.{FlushesLast, IsEndedRun, ShowAllSafe};
ghost use Rattle.run_threads.specs.CoreWorks.{OpeningCells};
ghost use Rattle.shard_cell.specs.Shards.{shard_brick};
ghost use Rattle.shut_shards.specs.ShutShards.{
  HasNoMarksUpTo,
  IsRunEntry,
  IsShardIn,
  ShardsHoldRowsFor,
  rows_in_shard,
  rows_in_shard_up_to,
};

/// Where main ends a run by a purge, behind the last calls of the sessions and of the flusher, the counters
/// that it read are those at which the run ends, and all shards have purged up to their LSE.
pub fn runs_end_purged_up_to_lse()
    ensures counters { (o : Opening) (counters : Counters) (callers : ℕ)
        (opening cells : OpeningCells) (log : List CoreEntry) (es : List CoreEvent)
        → IsEndedRun o counters callers opening cells log es
        → counters ≡ counters_in (counters_of_run o es) }
    ensures purged { (o : Opening) (counters : Counters) (callers : ℕ)
        (opening cells : OpeningCells) (log : List CoreEntry) (es : List CoreEvent)
        → IsEndedRun o counters callers opening cells log es → HasPurgedToLse o es 0 }
{}

/// No shard that such a run leaves has a mark up to LSE. Where nothing is above LSE no brick of it has any.
pub fn shards_end_without_marks()
    ensures safe { (o : Opening) (counters : Counters) (callers number : ℕ)
        (opening cells : OpeningCells) (log : List CoreEntry) (es : List CoreEvent) (s : CoreShard)
        → IsEndedRun o counters callers opening cells log es → number < o.shards
        → IsShardIn cells number s → HasNoMarksUpTo counters.lse s.shard }
    ensures all { (o : Opening) (counters : Counters) (callers number cube brick : ℕ)
        (opening cells : OpeningCells) (log : List CoreEntry) (es : List CoreEvent) (s : CoreShard)
        → IsEndedRun o counters callers opening cells log es → ShowAllSafe counters
        → number < o.shards → IsShardIn cells number s → brick % o.shards ≡ number
        → AllByRecursion IsRunEntry (shard_brick s.shard cube brick).entries }
{}

/// What the shards that such a run leaves hold of a cube up to LSE stands for what a reader at LSE sees of
/// the record, each row as often. Where nothing is above LSE it is all that they hold.
pub fn shards_end_with_the_record()
    ensures safe { (o : Opening) (counters : Counters) (callers : ℕ)
        (opening cells : OpeningCells) (log : List CoreEntry) (es : List CoreEvent)
        (given : RunScripts) (cube : ℕ) (d : Decl)
        → IsEndedRun o counters callers opening cells log es → IsScriptedRun o given es
        → slice_get (catalog_of (record_of o given es)).cubes cube ≡ Some d
        → ShardsHoldRowsFor (rows_in_shard_up_to counters.lse) o cells d
        (lists_at (record_of o given es).names cube) cube (rows_in_cube d.name
        (visible_rows (reader_up_to counters.lse) (run_transactions (record_of o given es)))) }
    ensures all { (o : Opening) (counters : Counters) (callers : ℕ)
        (opening cells : OpeningCells) (log : List CoreEntry) (es : List CoreEvent)
        (given : RunScripts) (cube : ℕ) (d : Decl)
        → IsEndedRun o counters callers opening cells log es → IsScriptedRun o given es
        → slice_get (catalog_of (record_of o given es)).cubes cube ≡ Some d → ShowAllSafe counters
        → ShardsHoldRowsFor rows_in_shard o cells d (lists_at (record_of o given es).names cube) cube
        (rows_in_cube d.name
        (visible_rows (reader_up_to counters.lse) (run_transactions (record_of o given es)))) }
{}

/// Where the sessions have ended whole besides, so that the journal is a merge of their scripts with their
/// ends, and the flusher's last round ended as Safe or Idle, the last Safe or Idle of the journal has the
/// LCE that main read, which is that of the run's end, and nothing is above LSE.
pub fn runs_end_with_all_saved()
    ensures saved { (o : Opening) (how : RoundResult) (counters : Counters) (callers epoch : ℕ)
        (opening cells : OpeningCells) (log : List CoreEntry) (es : List CoreEvent)
        (given : RunScripts) → IsEndedRun o counters callers opening cells log es
        → FlushesLast o how opening log → IsScriptedRun o given es → IsMerge (record_of o given es)
        → HasSaved epoch how → last_saved (journal_of o es) ≡ Some counters.lce }
    ensures epoch { (o : Opening) (how : RoundResult) (counters : Counters) (callers epoch : ℕ)
        (opening cells : OpeningCells) (log : List CoreEntry) (es : List CoreEvent)
        (given : RunScripts) → IsEndedRun o counters callers opening cells log es
        → FlushesLast o how opening log → IsScriptedRun o given es → IsMerge (record_of o given es)
        → HasSaved epoch how → epoch ≡ counters.lce }
    ensures all { (o : Opening) (how : RoundResult) (counters : Counters) (callers epoch : ℕ)
        (opening cells : OpeningCells) (log : List CoreEntry) (es : List CoreEvent)
        (given : RunScripts) → IsEndedRun o counters callers opening cells log es
        → FlushesLast o how opening log → IsScriptedRun o given es → IsMerge (record_of o given es)
        → HasSaved epoch how → ShowAllSafe counters }
{}
