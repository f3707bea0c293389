//! The law of a statement's calls.

ghost use Rattle.std.specs.Prelude.{◌≡◌, ℕ, List, ◌++◌, Some};
ghost use Rattle.std.specs.List.{AllByRecursion};
ghost use Rattle.core_cubes.specs.StatementCalls.{IsCallFor};
ghost use Rattle.core_events.specs.Events.{ClientCall, Opening};
ghost use Rattle.core_records.specs.ScriptedCalls.{SpeaksByScript, statement_in};
ghost use Rattle.core_serial.specs.OwnOperations.{operations_by_calls};
ghost use Rattle.cube_language.specs.declared.statement.Statement.{Statement};
ghost use Rattle.cube_run.specs.RunRecords.{Sentence};

/// Calls of a statement that makes them without a change of rows add no operation to its session's
/// transactions, and where its script has the statement by its number, they speak by the script.
pub fn statement_calls_change_no_rows()
    ensures operations { (o : Opening) (session cube epoch number : ℕ) (s : Statement)
        (added past : List ClientCall) → AllByRecursion (IsCallFor number s) added
        → operations_by_calls o session cube (added ++ past) epoch
        ≡ operations_by_calls o session cube past epoch }
    ensures speaks { (script : List Sentence) (number : ℕ) (s : Statement)
        (added past : List ClientCall) → statement_in script number ≡ Some s
        → AllByRecursion (IsCallFor number s) added
        → AllByRecursion (SpeaksByScript script) past
        → AllByRecursion (SpeaksByScript script) (added ++ past) }
{}
