//! Laws of the record, over every run of the core.

ghost use Rattle.std.specs.Prelude.{
  ◌≡◌,
  ℕ,
  true,
  List,
  ◌++◌,
  length,
  filter,
  slice_get,
  Some,
  None,
};
ghost use Rattle.std.specs.List.{list_all};
ghost use Rattle.aosi_desk.specs.Desks.{decl_names};
ghost use Rattle.core_events.specs.Cells.{desk_of, dictionary_of};
ghost use Rattle.core_events.specs.Clients.{calls_of};
ghost use Rattle.core_events.specs.Events.{CoreEvent, IsSession, Opening};
ghost use Rattle.core_events.specs.Runs.{IsCoreRun};
ghost use Rattle.core_serial.specs.Journals.{journal_of};
ghost use Rattle.core_records.specs.CoreRecords.{RunScripts, record_of};
ghost use Rattle.core_records.specs.OpeningNames.{OpensWithNames};
ghost use Rattle.core_records.specs.OwnEntries.{entries_by_calls};
ghost use Rattle.core_records.specs.ScriptedCalls.{FollowScripts};
ghost use Rattle.cube_language.specs.Cubes.{first_repeated};
ghost use Rattle.cube_language.specs.declared.decl.Decl.{Decl};
ghost use Rattle.cube_language.specs.declared.decl.DimDecl.{DimDecl};
ghost use Rattle.cube_run.specs.FinalNames.{HasDimension, names_at};
ghost use Rattle.cube_run.specs.Merge.{has_owner};
ghost use Rattle.cube_run.specs.RunRecords.{IsLegalRun, catalog_of, cubes_at};
ghost use Rattle.cube_run.specs.SessionSteps.{entries_of, is_of_statement, session_part};
ghost use Rattle.one_session.specs.Changes.{AreNamedApart};
ghost use Rattle.one_session.specs.Pasts.{EndsWithMore};

/// A session's part of the journal is what its own calls left, and so the entries of a statement
/// are those that its own calls left with the statement's number.
pub fn entries_are_of_own_calls()
    ensures session { (o : Opening) (es : List CoreEvent) (session : ℕ) → IsCoreRun o es
        → IsSession o session
        → session_part session (journal_of o es)
        ≡ entries_by_calls o session (calls_of session es) }
    ensures statement { (o : Opening) (es : List CoreEvent) (session statement : ℕ)
        → IsCoreRun o es → IsSession o session
        → entries_of session statement (journal_of o es)
        ≡ filter (is_of_statement statement) (entries_by_calls o session (calls_of session es)) }
{}

/// Each entry of the journal is the flusher's, or one of a session that has a script.
pub fn entries_have_owners()
    ensures { (o : Opening) (given : RunScripts) (es : List CoreEvent) → IsCoreRun o es
        → length given.scripts ≡ o.sessions
        → list_all (has_owner (record_of o given es)) (journal_of o es) ≡ true }
{}

/// The record of a run is legal, where the calls speak of the cubes of which the scripts speak.
pub fn records_are_legal()
    ensures { (o : Opening) (given : RunScripts) (es : List CoreEvent) → IsCoreRun o es
        → FollowScripts o given es → IsLegalRun (record_of o given es) }
{}

/// The cubes on record at each moment are the desk's. Each stays at its place, and where those of
/// the opening are named apart, so are all.
pub fn records_have_the_cubes()
    ensures at { (o : Opening) (given : RunScripts) (later es : List CoreEvent) → IsCoreRun o es
        → FollowScripts o given es
        → cubes_at (record_of o given (later ++ es)) (journal_of o es) ≡ (desk_of o es).cubes }
    ensures all { (o : Opening) (given : RunScripts) (es : List CoreEvent) → IsCoreRun o es
        → FollowScripts o given es
        → (catalog_of (record_of o given es)).cubes ≡ (desk_of o es).cubes }
    ensures stay { (o : Opening) (given : RunScripts) (later es : List CoreEvent) (cube : ℕ)
        (d : Decl) → IsCoreRun o (later ++ es) → FollowScripts o given (later ++ es)
        → slice_get (desk_of o es).cubes cube ≡ Some d
        → slice_get (catalog_of (record_of o given (later ++ es))).cubes cube ≡ Some d }
    ensures apart { (o : Opening) (given : RunScripts) (es : List CoreEvent) → IsCoreRun o es
        → FollowScripts o given es → first_repeated (decl_names o.cubes) ≡ None
        → AreNamedApart (catalog_of (record_of o given es)).cubes }
{}

/// The dictionaries on record are those that the calls left. They begin with the kept ones, are
/// distinct, short and not too long, and a number that a name has at any moment stays its number.
pub fn dictionaries_are_on_record()
    ensures are { (o : Opening) (given : RunScripts) (es : List CoreEvent) (cube place : ℕ)
        (d : Decl) (dim : DimDecl) → IsCoreRun o es → FollowScripts o given es
        → HasDimension (record_of o given es) cube place d dim
        → names_at (record_of o given es).names cube place
        ≡ (dictionary_of o cube place es).names }
    ensures end { (o : Opening) (given : RunScripts) (es : List CoreEvent) → IsCoreRun o es
        → FollowScripts o given es → OpensWithNames o (desk_of o es).cubes
        → EndsWithMore (record_of o given es) (record_of o given es).kept_names }
    ensures numbers { (o : Opening) (given : RunScripts) (later es : List CoreEvent)
        (cube place n : ℕ) (d : Decl) (dim : DimDecl) (name : List ℕ)
        → IsCoreRun o (later ++ es) → FollowScripts o given (later ++ es)
        → HasDimension (record_of o given (later ++ es)) cube place d dim
        → slice_get (dictionary_of o cube place es).names n ≡ Some name
        → slice_get (names_at (record_of o given (later ++ es)).names cube place) n ≡ Some name }
{}
