//! The law of a cube that was found.

ghost use Rattle.std.specs.Prelude.{◌≡◌, ◌<◌, ℕ, List, None, Some};
ghost use mathlib.Core.List.{IsPrefix};
ghost use Rattle.aosi_desk.specs.Desks.{decl_names};
ghost use Rattle.core_program.specs.Knowing.{IsLaterRun};
ghost use Rattle.core_cubes.specs.StandingCubes.{StandsBefore};
ghost use Rattle.core_events.specs.Events.{CoreEvent, Opening};
ghost use Rattle.core_states.specs.CorePasts.{CorePast, last_number};
ghost use Rattle.core_program.specs.CoreFits.{CoreEntry};
ghost use Rattle.core_records.specs.CoreRecords.{RunScripts, record_of};
ghost use Rattle.core_records.specs.ScriptedCalls.{FollowScripts};
ghost use Rattle.core_states.specs.StandingInCore.{StandsInCore};
ghost use Rattle.cube_core.specs.declared.cell.CoreCell.{CoreCell};
ghost use Rattle.cube_language.specs.Cubes.{first_repeated};
ghost use Rattle.cube_language.specs.declared.decl.Decl.{Decl};
ghost use Rattle.cube_language.specs.declared.statement.Statement.{Statement};
ghost use Rattle.cube_run.specs.RunRecords.{cube_needed};
ghost use Rattle.cube_run.specs.SessionSteps.{SessionStep};
ghost use Rattle.found_cubes.specs.CubesOnRecord.{HasCubeAt};

use cube_core::LinkedShard;

/// Where a session found the cube of the name that its statement needs, each run with cubes named apart that goes on
/// from there has it on record: before the statement's step and in the end.
pub fn found_cubes_are_on_record<S: LinkedShard>()
    ensures { (cells : List (CoreCell S)) (caller session number : ℕ) (own mid now : List CoreEntry)
        (name : List ℕ) (place : ℕ) (d : Decl) (past : CorePast) (o : Opening) (given : RunScripts)
        (log : List CoreEntry) (events : List CoreEvent) (step : SessionStep) (s : Statement)
        → StandsBefore S.fits S.stands S.says cells caller session number own mid name place d
        → IsPrefix mid now → StandsInCore S.fits S.stands S.says cells caller session own past
        → last_number past < number
        → IsLaterRun S.fits S.stands S.says cells o caller now log events → FollowScripts o given events
        → first_repeated (decl_names o.cubes) ≡ None → step.session ≡ session → step.number ≡ number
        → cube_needed s ≡ Some name → HasCubeAt (record_of o given events) step s place d }
{}
