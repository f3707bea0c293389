//! Laws of the dictionaries in the end, over every run in which the sessions follow their scripts.

ghost use Rattle.std.specs.Prelude.{◌≡◌, ℕ, true, List, length, drop, All, Some, slice_get};
ghost use Rattle.std.specs.List.{list_any};
ghost use Rattle.condition_spans.specs.Codes.{lists_at};
ghost use Rattle.core_agreements.specs.PostsForOperations.{StandForAll};
ghost use Rattle.core_agreements.specs.ScriptedRuns.{IsScriptedRun};
ghost use Rattle.core_events.specs.Clients.{calls_of};
ghost use Rattle.core_events.specs.Events.{CoreEvent, IsSession, Opening};
ghost use Rattle.core_records.specs.CoreRecords.{RunScripts, record_of};
ghost use Rattle.core_records.specs.OwnEntries.{entries_by_calls};
ghost use Rattle.cube_language.specs.declared.decl.Decl.{Decl};
ghost use Rattle.cube_language.specs.declared.decl.DimDecl.{DimDecl};
ghost use Rattle.cube_run.specs.FinalNames.{FinalNamesFit, HasDimension, HasItsName, IsDictionary, names_at};
ghost use Rattle.cube_run.specs.RunRecords.{script_of};
ghost use Rattle.cube_run.specs.RunTransactions.{is_commit_of, operations_at, session_operations};
ghost use Rattle.cube_values.specs.Visible.{rows_put};
ghost use Rattle.cube_values.specs.declared.row.CodedRow.{CodedRow};
ghost use Rattle.cube_values.specs.declared.row.StoredRow.{StoredRow};
ghost use Rattle.scripted_pasts.specs.AskedTexts.{IsAskedForIn};
ghost use Rattle.scripted_pasts.specs.NamesStand.{NamesStand};
ghost use Rattle.one_session.specs.Changes.{rows_in_cube};

/// Each dictionary in the end is one of its dimension, and begins with the names that were kept.
pub fn final_dictionaries_are_of_their_dimensions()
    ensures { (o : Opening) (given : RunScripts) (es : List CoreEvent) (cube place : ℕ) (d : Decl)
        (dim : DimDecl) → IsScriptedRun o given es
        → HasDimension (record_of o given es) cube place d dim
        → IsDictionary dim (names_at (record_of o given es).kept_names cube place)
        (names_at (record_of o given es).names cube place) }
{}

/// Each name behind those that were kept is a text for whose code a session has asked.
pub fn names_come_by_sessions()
    ensures { (o : Opening) (given : RunScripts) (es : List CoreEvent) (cube place : ℕ) (d : Decl)
        (dim : DimDecl) → IsScriptedRun o given es
        → HasDimension (record_of o given es) cube place d dim
        → All (IsAskedForIn o es cube place)
        (drop (length (names_at (record_of o given es).kept_names cube place))
        (names_at (record_of o given es).names cube place)) }
{}

/// Rows of values for which rows by coordinates stand have the names of their cube.
pub fn rows_that_stand_are_named()
    ensures { (d : Decl) (names : List (List (List (List ℕ)))) (cube place : ℕ)
        (rows : List CodedRow) (stored : List StoredRow)
        → StandForAll d (lists_at names cube) rows (rows_in_cube d.name stored)
        → All (HasItsName d.name place (names_at names cube place)) stored }
{}

/// Each text of a kept row has its name.
pub fn kept_rows_are_named()
    ensures { (o : Opening) (given : RunScripts) (es : List CoreEvent) (cube place : ℕ) (d : Decl)
        (dim : DimDecl) → IsScriptedRun o given es
        → HasDimension (record_of o given es) cube place d dim
        → All (HasItsName d.name place (names_at (record_of o given es).names cube place))
        (record_of o given es).kept }
{}

/// So has each text of a row that a statement has put whose transaction its session committed.
pub fn committed_rows_are_named()
    ensures { (o : Opening) (given : RunScripts) (es : List CoreEvent) (session epoch cube place : ℕ)
        (d : Decl) (dim : DimDecl) → IsScriptedRun o given es → IsSession o session
        → HasDimension (record_of o given es) cube place d dim
        → list_any (is_commit_of epoch) (entries_by_calls o session (calls_of session es)) ≡ true
        → All (λ operation. All (HasItsName d.name place
        (names_at (record_of o given es).names cube place)) (rows_put operation))
        (operations_at epoch (session_operations (record_of o given es) session
        (script_of (record_of o given es) session))) }
{}

/// The dictionaries in the end fit the run, where each session's calls ask for no text but those that are offered, and
/// what its statements have done is named, also by a transaction that was not committed.
pub fn runs_end_with_fitting_names()
    ensures { (o : Opening) (given : RunScripts) (es : List CoreEvent) → IsScriptedRun o given es
        → ((session : ℕ) → IsSession o session → NamesStand (record_of o given es) session
        (script_of (record_of o given es) session) (calls_of session es))
        → FinalNamesFit (record_of o given es) }
{}
