//! The law of sessions whose scripts have ended, over every run of the core.

ghost use Rattle.std.specs.Prelude.{◌≡◌, ℕ, List, length};
ghost use Rattle.core_events.specs.Events.{Opening, CoreEvent};
ghost use Rattle.core_events.specs.Runs.{IsCoreRun};
ghost use Rattle.core_records.specs.CoreRecords.{RunScripts, record_of};
ghost use Rattle.cube_run.specs.Merge.{IsMerge};
ghost use Rattle.last_rounds.specs.SavedEpochs.{SessionsHoldNothing};

/// Where the journal of a run is a merge of its sessions' scripts, each with its end, no session holds a
/// snapshot in the end: a transaction that was open is rolled back, and the reader of a watch is closed.
pub fn merged_scripts_leave_nothing_held()
    ensures { (o : Opening) (given : RunScripts) (es : List CoreEvent) → IsCoreRun o es
        → length given.scripts ≡ o.sessions → IsMerge (record_of o given es)
        → SessionsHoldNothing o es }
{}
