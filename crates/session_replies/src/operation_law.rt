//! What the entries of a statement on rows tell that it has done to rows, in any run and at any session.

ghost use Rattle.std.specs.Prelude.{◌≡◌, ℕ, true, List, [], Some, None, Result, map};
ghost use Rattle.cube_values.specs.declared.operation.Operation.TheVariants.{Put, Drop};
ghost use Rattle.cube_values.specs.declared.row.Row.{Row};
ghost use Rattle.cube_values.specs.declared.snapshot.Snapshot.{Snapshot};
ghost use Rattle.cube_values.specs.declared.value.Value.{Value};
ghost use Rattle.cube_language.specs.ResolvedNames.{resolved_region};
ghost use Rattle.cube_language.specs.declared.bad_row.BadRow.{BadRow};
ghost use Rattle.cube_language.specs.declared.decl.Decl.{Decl};
ghost use Rattle.cube_language.specs.declared.statement.Cond.{Cond};
ghost use Rattle.cube_language.specs.declared.statement.Statement.{Statement};
ghost use Rattle.cube_language.specs.declared.statement.Statement.TheVariants.{Insert, Load, Delete};
ghost use Rattle.cube_journal.specs.declared.journal_entry.AbortCause.{AbortCause};
ghost use Rattle.cube_journal.specs.declared.journal_entry.JournalEntry.{JournalEntry};
ghost use Rattle.cube_run.specs.LoadedRows.{row_of_values, rows_among};
ghost use Rattle.cube_run.specs.RunRecords.{RunRecord, Says, Sentence, catalog_of};
ghost use Rattle.cube_run.specs.RunTransactions.{DoneOperation, operation_done, rows_of_cube};
ghost use Rattle.cube_run.specs.SessionStates.{Mode, Idle, Open};
ghost use Rattle.cube_run.specs.SessionSteps.{SessionStep};
ghost use Rattle.cube_run.specs.StatementEntries.{is_select};
ghost use Rattle.session_replies.specs.RowEntries.{lone_refusal, open_abort, own_abort, own_commit};
ghost use Rattle.session_replies.specs.RowSteps.{IsOnCube, GivesRecords};
ghost use Rattle.session_replies.specs.StepParts.{IsStep};

/// An INSERT that is done puts its rows, a LOAD the rows among the records that it looks at, and a DELETE drops its region:
/// at the epoch of its own transaction, or of the one that is open.
pub fn changes_are_told()
    ensures inserted_alone { (run : RunRecord) (step : SessionStep) (cube : List ℕ)
        (rows : List (List Value)) (d : Decl) (epoch : ℕ) (deps : List ℕ)
        (round : List JournalEntry)
        → IsStep step Idle (Says (Insert cube rows)) (own_commit step epoch deps round)
        → IsOnCube run step (Insert cube rows) d
        → operation_done (catalog_of run) step ≡ Some (record {
          number = step.number;
          epoch = epoch;
          operation = Put (rows_of_cube d.name (map (row_of_values d) rows));
        }) }
    ensures inserted_inside { (run : RunRecord) (step : SessionStep) (cube : List ℕ)
        (rows : List (List Value)) (d : Decl) (writer : Snapshot)
        → IsStep step (Open writer) (Says (Insert cube rows)) []
        → IsOnCube run step (Insert cube rows) d
        → operation_done (catalog_of run) step ≡ Some (record {
          number = step.number;
          epoch = writer.epoch;
          operation = Put (rows_of_cube d.name (map (row_of_values d) rows));
        }) }
    ensures loaded_alone { (run : RunRecord) (step : SessionStep) (cube path : List ℕ) (reject : ℕ)
        (d : Decl) (looked : List (Result Row BadRow)) (epoch : ℕ) (deps : List ℕ)
        (round : List JournalEntry)
        → IsStep step Idle (Says (Load cube path reject)) (own_commit step epoch deps round)
        → IsOnCube run step (Load cube path reject) d → GivesRecords run step d reject looked
        → operation_done (catalog_of run) step ≡ Some (record {
          number = step.number;
          epoch = epoch;
          operation = Put (rows_of_cube d.name (rows_among looked));
        }) }
    ensures loaded_inside { (run : RunRecord) (step : SessionStep) (cube path : List ℕ) (reject : ℕ)
        (d : Decl) (looked : List (Result Row BadRow)) (writer : Snapshot)
        → IsStep step (Open writer) (Says (Load cube path reject)) []
        → IsOnCube run step (Load cube path reject) d → GivesRecords run step d reject looked
        → operation_done (catalog_of run) step ≡ Some (record {
          number = step.number;
          epoch = writer.epoch;
          operation = Put (rows_of_cube d.name (rows_among looked));
        }) }
    ensures deleted_alone { (run : RunRecord) (step : SessionStep) (cube : List ℕ)
        (conds : List Cond) (d : Decl) (epoch : ℕ) (deps : List ℕ) (round : List JournalEntry)
        → IsStep step Idle (Says (Delete cube conds)) (own_commit step epoch deps round)
        → IsOnCube run step (Delete cube conds) d
        → operation_done (catalog_of run) step ≡ Some (record {
          number = step.number;
          epoch = epoch;
          operation = Drop (resolved_region d conds);
        }) }
    ensures deleted_inside { (run : RunRecord) (step : SessionStep) (cube : List ℕ)
        (conds : List Cond) (d : Decl) (writer : Snapshot)
        → IsStep step (Open writer) (Says (Delete cube conds)) []
        → IsOnCube run step (Delete cube conds) d
        → operation_done (catalog_of run) step ≡ Some (record {
          number = step.number;
          epoch = writer.epoch;
          operation = Drop (resolved_region d conds);
        }) }
{}

/// A statement that leaves nothing but a refusal, or that ends its transaction, has done nothing to rows, and no SELECT has.
pub fn others_do_nothing_to_rows()
    ensures refused { (run : RunRecord) (step : SessionStep) (mode : Mode) (sentence : Sentence)
        (code : ℕ)
        → IsStep step mode sentence (lone_refusal step code)
        → operation_done (catalog_of run) step ≡ None }
    ensures ended_alone { (run : RunRecord) (step : SessionStep) (sentence : Sentence) (epoch : ℕ)
        (deps : List ℕ) (cause : AbortCause)
        → IsStep step Idle sentence (own_abort step epoch deps cause)
        → operation_done (catalog_of run) step ≡ None }
    ensures ended_inside { (run : RunRecord) (step : SessionStep) (sentence : Sentence)
        (writer : Snapshot) (cause : AbortCause)
        → IsStep step (Open writer) sentence (open_abort step writer.epoch cause)
        → operation_done (catalog_of run) step ≡ None }
    ensures selected { (run : RunRecord) (step : SessionStep) (s : Statement)
        → step.sentence ≡ Says s → is_select s ≡ true
        → operation_done (catalog_of run) step ≡ None }
{}
