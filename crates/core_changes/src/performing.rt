//! The laws of the ends of a statement that changes rows.

ghost use Rattle.std.specs.Prelude.{◌≡◌, ℕ, false, true, List, None, Some};
ghost use Rattle.core_program.specs.CoreFits.{CoreEntry};
ghost use Rattle.core_records.specs.CoreRecords.{RunScripts};
ghost use Rattle.core_states.specs.declared.session.CoreSession.{CoreSession};
ghost use Rattle.cube_core.specs.declared.cell.CoreCell.{CoreCell};
ghost use Rattle.cube_journal.specs.declared.journal_entry.JournalEntry.{JournalEntry};
ghost use Rattle.cube_journal.specs.declared.reply.Reply.{Reply};
ghost use Rattle.cube_language.specs.declared.statement.Statement.{Statement};
ghost use Rattle.cube_run.specs.RunRecords.{LoadedFile, RunRecord, Says, catalog_of};
ghost use Rattle.cube_run.specs.RunTransactions.{operation_asked};
ghost use Rattle.cube_run.specs.SessionStates.{Mode};
ghost use Rattle.cube_run.specs.SessionSteps.{SessionStep};
ghost use Rattle.cube_run.specs.StatementEntries.{is_aborted, is_change};
ghost use Rattle.cube_run.specs.StepOutcomes.{refused_by_mode};
ghost use Rattle.cube_values.specs.declared.operation.Operation.{Operation};
ghost use Rattle.cube_values.specs.declared.snapshot.Snapshot.{Snapshot};
ghost use Rattle.linked_shards.specs.declared.cell.CoreShard.{CoreShard};
ghost use Rattle.core_changes.specs.ChangeEnds.{ChangeEnd, Finished, IsWriterFor};
ghost use Rattle.core_changes.specs.ChangesInRuns.{HasEndedSo, IsStepOfChange};
ghost use Rattle.posted_pasts.specs.DoneChanges.{DoesOperation};
ghost use Rattle.scripted_pasts.specs.Performed.{WhateverFile};
ghost use Rattle.scripted_pasts.specs.Served.{PerformsWatchedOverShards};
ghost use Rattle.session_replies.specs.Modes.{mode_of};

/// A session that may execute a statement that changes rows has no aborted transaction.
pub fn changes_need_a_mode()
    ensures { (mode : Mode) (s : Statement) → is_change s ≡ true → refused_by_mode mode s ≡ None
        → is_aborted mode ≡ false }
{}

/// Where it is done, it has done at its writer's epoch what it asks for.
pub fn changes_do_what_they_ask()
    ensures { (s : Statement) (file : LoadedFile) (old : CoreSession) (writer : Snapshot)
        (round : List JournalEntry) (given : RunScripts) (run : RunRecord) (step : SessionStep)
        (operation : Operation)
        → IsStepOfChange s file old (Finished writer round) given step
        → IsWriterFor (mode_of old.mode) writer
        → operation_asked (catalog_of run) file (Says s) ≡ Some operation
        → DoesOperation run step writer.epoch operation }
{}

/// A statement that has ended so is performed, with its file if it is a LOAD.
pub fn changes_are_performed()
    ensures whatever { (s : Statement) (file : LoadedFile) (old new : CoreSession) (end : ChangeEnd)
        (cells : List (CoreCell CoreShard)) (caller : ℕ) (own now : List CoreEntry) (said : Reply)
        → HasEndedSo s file old end cells caller own now new said
        → PerformsWatchedOverShards cells caller WhateverFile s old own new now said }
    ensures of_file { (s : Statement) (file : LoadedFile) (old new : CoreSession) (end : ChangeEnd)
        (cells : List (CoreCell CoreShard)) (caller : ℕ) (own now : List CoreEntry) (said : Reply)
        → HasEndedSo s file old end cells caller own now new said
        → PerformsWatchedOverShards cells caller (λ loaded. loaded ≡ file) s old own new now said }
{}
