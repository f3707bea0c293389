//! Laws of rows, over every run of the core.

ghost use Rattle.std.specs.Prelude.{ℕ, List, [], All};
ghost use Rattle.cube_values.specs.declared.snapshot.Snapshot.{Snapshot};
ghost use Rattle.core_events.specs.Events.{Opening, CoreEvent};
ghost use Rattle.core_events.specs.Runs.{IsCoreRun};
ghost use Rattle.core_rows.specs.RowsOfCubes.{IsCubeRow};
ghost use Rattle.core_serial.specs.CubeRows.{rows_of_serial_run};

/// The rows that the transactions that count for a snapshot leave in a cube are rows of that cube,
/// and the names of their texts are there, where this holds of the kept rows.
pub fn rows_are_of_their_cube()
    ensures { (o : Opening) (es : List CoreEvent) (cube : ℕ) (s : Snapshot) → IsCoreRun o es
        → All (IsCubeRow o [] cube) (o.rows cube)
        → All (IsCubeRow o es cube) (rows_of_serial_run o es cube s) }
{}
