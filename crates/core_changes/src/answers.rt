//! The laws of how statements that change rows are answered, and of what they have done, by their writers.

ghost use Rattle.std.specs.Prelude.{◌≡◌, ◌≤◌, ◌<◌, ℕ, true, List, None, Result, length, map, take};
ghost use Rattle.core_records.specs.CoreRecords.{RunScripts};
ghost use Rattle.core_states.specs.declared.session.CoreSession.{CoreSession};
ghost use Rattle.cube_journal.specs.declared.journal_entry.AbortCause.{AbortCause};
ghost use Rattle.cube_journal.specs.declared.journal_entry.AbortCause.TheVariants as abort;
ghost use Rattle.cube_journal.specs.declared.journal_entry.JournalEntry.{JournalEntry};
ghost use Rattle.cube_journal.specs.declared.refusal.Refusal.TheVariants as refusal;
ghost use Rattle.cube_journal.specs.declared.reply.Reply.TheVariants as reply;
ghost use Rattle.cube_language.specs.ResolvedNames.{resolved_region};
ghost use Rattle.cube_language.specs.declared.bad_row.BadRow.{BadRow};
ghost use Rattle.cube_language.specs.declared.decl.Decl.{Decl};
ghost use Rattle.cube_language.specs.declared.statement.Cond.{Cond};
ghost use Rattle.cube_language.specs.declared.statement.Statement.{Statement};
ghost use Rattle.cube_language.specs.declared.statement.Statement.TheVariants.{Delete, Insert, Load};
ghost use Rattle.cube_run.specs.LoadedRows.{first_without_place, rejections_among, row_of_values, rows_among};
ghost use Rattle.cube_run.specs.RunRecords.{LoadedFile, RunRecord};
ghost use Rattle.cube_run.specs.RunText.{IsReply, shown_rejections};
ghost use Rattle.cube_run.specs.RunTransactions.{rows_of_cube};
ghost use Rattle.cube_run.specs.SessionStates.{Open};
ghost use Rattle.cube_run.specs.SessionSteps.{SessionStep};
ghost use Rattle.cube_run.specs.StatementEntries.{is_change};
ghost use Rattle.cube_values.specs.declared.operation.Operation.TheVariants.{Drop, Put};
ghost use Rattle.cube_values.specs.declared.row.Row.{Row};
ghost use Rattle.cube_values.specs.declared.snapshot.Snapshot.{Snapshot};
ghost use Rattle.cube_values.specs.declared.value.Value.{Value};
ghost use Rattle.core_changes.specs.ChangeEnds.{Failed, Finished, IsWriterFor};
ghost use Rattle.core_changes.specs.ChangesInRuns.{IsStepOfChange};
ghost use Rattle.core_changes.specs.StepsByWriters.{HasFailedBy, IsDoneBy};
ghost use Rattle.posted_pasts.specs.DoneChanges.{DoesOperation};
ghost use Rattle.session_replies.specs.Modes.{mode_of};
ghost use Rattle.session_replies.specs.RowSteps.{FitsItsCube, GivesRecords, IsOnCube, final_names};

/// The step of a statement that has ended so is one by its writer.
pub fn changes_are_steps_by_writers()
    ensures done { (s : Statement) (file : LoadedFile) (old : CoreSession) (writer : Snapshot)
        (round : List JournalEntry) (given : RunScripts) (run : RunRecord) (step : SessionStep)
        → IsStepOfChange s file old (Finished writer round) given step
        → IsWriterFor (mode_of old.mode) writer → given.round_every ≡ run.round_every
        → IsDoneBy run step s writer }
    ensures failed { (s : Statement) (file : LoadedFile) (old : CoreSession) (writer : Snapshot)
        (cause : AbortCause) (given : RunScripts) (step : SessionStep)
        → IsStepOfChange s file old (Failed writer cause) given step
        → IsWriterFor (mode_of old.mode) writer → HasFailedBy step s writer cause }
{}

/// A statement that is done by its writer has put its rows or dropped its region, at the writer's epoch.
pub fn done_changes_are_operations()
    ensures inserted { (run : RunRecord) (step : SessionStep) (cube : List ℕ) (rows : List (List Value)) (d : Decl)
        (writer : Snapshot) → IsDoneBy run step (Insert cube rows) writer
        → IsOnCube run step (Insert cube rows) d
        → DoesOperation run step writer.epoch (Put (rows_of_cube d.name (map (row_of_values d) rows))) }
    ensures loaded { (run : RunRecord) (step : SessionStep) (cube path : List ℕ) (reject : ℕ) (d : Decl)
        (looked : List (Result Row BadRow)) (writer : Snapshot)
        → IsDoneBy run step (Load cube path reject) writer → IsOnCube run step (Load cube path reject) d
        → GivesRecords run step d reject looked
        → DoesOperation run step writer.epoch (Put (rows_of_cube d.name (rows_among looked))) }
    ensures deleted { (run : RunRecord) (step : SessionStep) (cube : List ℕ) (conds : List Cond) (d : Decl)
        (writer : Snapshot) → IsDoneBy run step (Delete cube conds) writer
        → IsOnCube run step (Delete cube conds) d
        → DoesOperation run step writer.epoch (Drop (resolved_region d conds)) }
{}

/// A statement that fits its cube and is done by its writer is answered so.
pub fn done_changes_are_answered()
    ensures inserted { (run : RunRecord) (step : SessionStep) (cube : List ℕ) (rows : List (List Value)) (d : Decl)
        (writer : Snapshot) → IsDoneBy run step (Insert cube rows) writer
        → FitsItsCube run step (Insert cube rows) d → first_without_place d (final_names run d) rows ≡ None
        → IsReply run step (reply.Stored (length rows) writer.epoch) }
    ensures loaded { (run : RunRecord) (step : SessionStep) (cube path : List ℕ) (reject : ℕ) (d : Decl)
        (looked : List (Result Row BadRow)) (writer : Snapshot)
        → IsDoneBy run step (Load cube path reject) writer → FitsItsCube run step (Load cube path reject) d
        → GivesRecords run step d reject looked → length (rejections_among looked) ≤ reject
        → IsReply run step
        (reply.Loaded (length (rows_among looked)) (length (rejections_among looked))
        (take shown_rejections (rejections_among looked)) writer.epoch) }
    ensures deleted { (run : RunRecord) (step : SessionStep) (cube : List ℕ) (conds : List Cond) (d : Decl)
        (writer : Snapshot) → IsDoneBy run step (Delete cube conds) writer
        → FitsItsCube run step (Delete cube conds) d → IsReply run step (reply.Dropped writer.epoch) }
{}

/// A statement that fails once its writer is open is answered with the refusal: want of memory whatever it says, a full
/// shard where it stores rows, and its file's faults where it loads them. A file that cannot be read ends an open
/// transaction alone.
pub fn failed_changes_are_answered()
    ensures no_memory { (run : RunRecord) (step : SessionStep) (s : Statement) (writer : Snapshot)
        → HasFailedBy step s writer abort.NoMemory → is_change s ≡ true
        → IsReply run step (reply.Refused refusal.NoMemory) }
    ensures insert_full { (run : RunRecord) (step : SessionStep) (cube : List ℕ) (rows : List (List Value))
        (d : Decl) (writer : Snapshot) (shard count : ℕ)
        → HasFailedBy step (Insert cube rows) writer (abort.ShardFull shard count)
        → FitsItsCube run step (Insert cube rows) d → first_without_place d (final_names run d) rows ≡ None
        → IsReply run step (reply.Refused (refusal.ShardFull shard count)) }
    ensures load_full { (run : RunRecord) (step : SessionStep) (cube path : List ℕ) (reject : ℕ) (d : Decl)
        (looked : List (Result Row BadRow)) (writer : Snapshot) (shard count : ℕ)
        → HasFailedBy step (Load cube path reject) writer (abort.ShardFull shard count)
        → FitsItsCube run step (Load cube path reject) d → GivesRecords run step d reject looked
        → length (rejections_among looked) ≤ reject
        → IsReply run step (reply.Refused (refusal.ShardFull shard count)) }
    ensures load_rejected { (run : RunRecord) (step : SessionStep) (cube path : List ℕ) (reject : ℕ) (d : Decl)
        (looked : List (Result Row BadRow)) (writer : Snapshot)
        → HasFailedBy step (Load cube path reject) writer abort.TooManyRejected
        → FitsItsCube run step (Load cube path reject) d → GivesRecords run step d reject looked
        → reject < length (rejections_among looked)
        → IsReply run step (reply.Refused (refusal.TooManyRejected (length (rejections_among looked)) reject)) }
    ensures load_unread { (run : RunRecord) (step : SessionStep) (cube path : List ℕ) (reject : ℕ) (d : Decl)
        (writer : Snapshot) → HasFailedBy step (Load cube path reject) writer abort.ReadFault
        → step.state.mode ≡ Open writer → FitsItsCube run step (Load cube path reject) d
        → IsReply run step (reply.Refused refusal.ReadFault) }
{}
