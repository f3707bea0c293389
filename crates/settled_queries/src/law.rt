//! Laws of what a writer finds and of the moment after own calls, over every run of the core.

ghost use Rattle.std.specs.Prelude.{◌≡◌, ℕ, true, List, ◌++◌};
ghost use Rattle.core_program.specs.Knowing.{IsClientOf, IsLaterRun};
ghost use Rattle.core_events.specs.Clients.{calls_of, client_state};
ghost use Rattle.core_events.specs.Events.{CoreEvent, Opening};
ghost use Rattle.core_events.specs.Runs.{IsCoreRun};
ghost use Rattle.core_program.specs.CoreFits.{CoreEntry};
ghost use Rattle.core_serial.specs.CubeRows.{rows_of_serial_run};
ghost use Rattle.core_serial.specs.HeldSnapshots.{HoldsAtRest};
ghost use Rattle.core_serial.specs.OwnOperations.{operations_by_calls};
ghost use Rattle.cube_core.specs.declared.cell.CoreCell.{CoreCell};
ghost use Rattle.cube_values.specs.declared.snapshot.Snapshot.{Snapshot};
ghost use Rattle.settled_queries.specs.Moments.{PassesMoment};
ghost use Rattle.settled_queries.specs.OwnSoFar.{rows_with_own};

use cube_core::LinkedShard;

/// What a writer that is held finds in the whole of a cube is settled: whatever comes later, it finds the
/// same with the operations that its session had posted. (Of a reader `open_snapshots_are_settled` of
/// `core_settled` says so.)
pub fn writers_find_what_is_settled()
    ensures { (o : Opening) (later es : List CoreEvent) (client cube : ℕ) (s : Snapshot)
        → IsCoreRun o (later ++ es) → HoldsAtRest o client (client_state o client es) s
        → s.own ≡ true
        → rows_with_own o (later ++ es) cube s
        (operations_by_calls o client cube (calls_of client es) s.epoch)
        ≡ rows_of_serial_run o es cube s }
{}

/// Each later run of a client passes the moment right after its own calls.
pub fn later_runs_pass_the_moment<S: LinkedShard>()
    ensures { (cells : List (CoreCell S)) (caller client : ℕ) (own log : List CoreEntry)
        (o : Opening) (run : List CoreEvent)
        → IsClientOf S.fits S.stands S.says cells caller client
        → IsLaterRun S.fits S.stands S.says cells o caller own log run
        → PassesMoment S.fits S.stands S.says cells o caller client own run }
{}
