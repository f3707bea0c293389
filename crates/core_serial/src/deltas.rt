//! Laws of deltas, over every run of the core.

ghost use Rattle.std.specs.Prelude.{◌≡◌, ℕ, List};
ghost use Rattle.cube_values.specs.declared.query.BoundQuery.{BoundQuery};
ghost use Rattle.core_events.specs.Clients.{client_state, reader_up_to};
ghost use Rattle.core_events.specs.Events.{Opening, CoreEvent};
ghost use Rattle.core_events.specs.Runs.{IsCoreRun};
ghost use Rattle.core_serial.specs.Deltas.{HasCompared, IsDifference, came_by, went_by};
ghost use Rattle.core_serial.specs.CubeRows.{rows_to_find};

/// A delta between two readers is the difference of what the two see: by the rows that went and
/// those that came, fetched from all shards, the rows that serial execution leaves for the first
/// reader become those that it leaves for the second, each as often.
pub fn deltas_are_between_readers()
    ensures { (o : Opening) (es : List CoreEvent) (client : ℕ) (query : BoundQuery) (from to : ℕ)
        → IsCoreRun o es → HasCompared o.shards query from to (client_state o client es).group
        → IsDifference (rows_to_find o es query (reader_up_to from))
        (came_by (client_state o client es).group.answers)
        (went_by (client_state o client es).group.answers)
        (rows_to_find o es query (reader_up_to to)) }
{}
