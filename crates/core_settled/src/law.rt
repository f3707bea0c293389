//! Laws of settled epochs, over every run of the core.

ghost use Rattle.std.specs.Prelude.{◌≡◌, ◌≢◌, ℕ, ◌≤◌, true, List, [], ◌++◌, Some};
ghost use Rattle.cube_values.specs.Sees.{sees};
ghost use Rattle.cube_values.specs.declared.snapshot.Snapshot.{Snapshot};
ghost use Rattle.cube_journal.specs.Counters.{held_by};
ghost use Rattle.core_events.specs.Cells.{counters_of_run};
ghost use Rattle.core_events.specs.Events.{CoreEvent, Opening};
ghost use Rattle.core_events.specs.Runs.{IsCoreRun};
ghost use Rattle.core_events.specs.Serial.{has_committed, operations_of};
ghost use Rattle.core_serial.specs.CubeRows.{rows_of_serial_run};
ghost use Rattle.core_settled.specs.SettledEpochs.{IsSettledEpoch};

/// Of an epoch that is settled nothing more comes: no transaction of it is committed later, and
/// none does anything more to a cube. The epochs that are kept at the opening are settled.
pub fn settled_epochs_stay()
    ensures settled { (o : Opening) (later es : List CoreEvent) (epoch : ℕ)
        → IsCoreRun o (later ++ es)
        → IsSettledEpoch o es epoch → IsSettledEpoch o (later ++ es) epoch }
    ensures commits { (o : Opening) (later es : List CoreEvent) (epoch : ℕ)
        → IsCoreRun o (later ++ es) → IsSettledEpoch o es epoch
        → has_committed o (later ++ es) epoch ≡ has_committed o es epoch }
    ensures operations { (o : Opening) (later es : List CoreEvent) (cube epoch : ℕ)
        → IsCoreRun o (later ++ es) → IsSettledEpoch o es epoch
        → operations_of o cube (later ++ es) epoch ≡ operations_of o cube es epoch }
    ensures kept { (o : Opening) (epoch : ℕ) → epoch ≤ o.safe → IsSettledEpoch o [] epoch }
{}

/// The epochs that an open snapshot sees are settled, but for its own. So what it sees of a cube by
/// serial execution is the same in each run that goes on, as long as its own transaction does no
/// more to the cube.
pub fn open_snapshots_are_settled()
    ensures epochs { (o : Opening) (es : List CoreEvent) (number epoch : ℕ) (s : Snapshot)
        → IsCoreRun o es → held_by (counters_of_run o es).snapshots number ≡ Some s
        → sees s epoch ≡ true → (s.own ≡ true → s.epoch ≢ epoch) → IsSettledEpoch o es epoch }
    ensures rows { (o : Opening) (later es : List CoreEvent) (cube number : ℕ) (s : Snapshot)
        → IsCoreRun o (later ++ es) → held_by (counters_of_run o es).snapshots number ≡ Some s
        → (s.own ≡ true
        → operations_of o cube (later ++ es) s.epoch ≡ operations_of o cube es s.epoch)
        → rows_of_serial_run o (later ++ es) cube s ≡ rows_of_serial_run o es cube s }
{}
