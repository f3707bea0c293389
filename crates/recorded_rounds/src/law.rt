//! Laws of what a store keeps, over every run in which the sessions follow their scripts.

ghost use Rattle.std.specs.Prelude.{◌≡◌, ℕ, List, slice_get, Some};
ghost use Rattle.condition_spans.specs.Codes.{lists_at};
ghost use Rattle.core_agreements.specs.PostsForOperations.{StandForAll};
ghost use Rattle.core_agreements.specs.ScriptedRuns.{IsScriptedRun};
ghost use Rattle.core_events.specs.Events.{CoreEvent, Opening};
ghost use Rattle.core_records.specs.CoreRecords.{RunScripts, record_of};
ghost use Rattle.cube_language.specs.declared.decl.Decl.{Decl};
ghost use Rattle.cube_rounds.specs.Stands.{Kept};
ghost use Rattle.cube_run.specs.RunRecords.{catalog_of};
ghost use Rattle.cube_schema.specs.Schemas.{cube_of};
ghost use Rattle.kept_data.specs.KeptFiles.{IsKeptByFile};
ghost use Rattle.opened_core.specs.KeptShards.{kept_in_cube};
ghost use Rattle.recorded_rounds.specs.RecordedRounds.{KeepRowsFor};
ghost use Rattle.run_ends.specs.AllSafeEnds.{rows_on_record};
ghost use Rattle.rows_of_rounds.specs.RowsOfRounds.{HasRowsOfRun};

use kept_data::{kept_data_are_sound, kept_rounds_lie_in_their_cubes};

/// Rounds that have the rows of a run keep of each of its cubes rows that stand for what a reader at their
/// epoch sees of the record, each as often.
pub fn kept_rows_stand_for_the_record()
    ensures { (o : Opening) (given : RunScripts) (es : List CoreEvent) (kept : Kept) (cube : ℕ)
        (d : Decl) → IsScriptedRun o given es → HasRowsOfRun o es kept
        → slice_get (catalog_of (record_of o given es)).cubes cube ≡ Some d
        → KeepRowsFor o d (lists_at (record_of o given es).names cube) cube kept
        (rows_on_record (record_of o given es) kept.epoch d.name) }
{}

/// Where a file keeps them, all rows of the cube, brick by brick, stand so.
pub fn what_a_file_keeps_stands_for_the_record()
    ensures { (o : Opening) (given : RunScripts) (es : List CoreEvent) (kept : Kept) (cube : ℕ)
        (d : Decl) → IsKeptByFile kept → IsScriptedRun o given es → HasRowsOfRun o es kept
        → ((c : Decl) → slice_get kept.cubes cube ≡ Some c → o.shapes cube ≡ cube_of c)
        → slice_get (catalog_of (record_of o given es)).cubes cube ≡ Some d
        → StandForAll d (lists_at (record_of o given es).names cube) (kept_in_cube kept cube)
        (rows_on_record (record_of o given es) kept.epoch d.name) }
{
    kept_data_are_sound();
    kept_rounds_lie_in_their_cubes();
}
