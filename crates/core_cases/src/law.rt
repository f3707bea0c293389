//! That there are runs.

ghost use Rattle.std.specs.Prelude.{◌≡◌, [], ◌∷◌};
ghost use Rattle.core_cases.specs.SmallRun.{
  small_opening,
  small_events,
  small_query,
  small_reader,
  small_row,
};
ghost use Rattle.core_cases.specs.WholeRun.{whole_opening, whole_reader, whole_events};
ghost use Rattle.core_events.specs.Cells.{counters_of_run};
ghost use Rattle.core_events.specs.Clients.{client_state};
ghost use Rattle.core_events.specs.Runs.{IsCoreRun};
ghost use Rattle.core_serial.specs.Queries.{HasAnswered, rows_fetched};

/// The small run is a run of the core: a session puts a row and commits, and reads it with a query that every
/// shard has answered.
pub fn a_small_run_fits()
    ensures run { IsCoreRun small_opening small_events }
    ensures answered { HasAnswered 1 small_query small_reader
        (client_state small_opening 1 small_events).group }
    ensures rows { rows_fetched (client_state small_opening 1 small_events).group.answers
        ≡ small_row ∷ [] }
{}

/// A run in which a session makes a cube, keeps a watch, writes, has a round saved, purges and reads
/// is a run of the core. The query has the row, and the round has made its epoch the safe one.
pub fn a_whole_run_fits()
    ensures run { IsCoreRun whole_opening whole_events }
    ensures answered { HasAnswered 1 small_query whole_reader
        (client_state whole_opening 1 whole_events).group }
    ensures rows { rows_fetched (client_state whole_opening 1 whole_events).group.answers
        ≡ small_row ∷ [] }
    ensures safe { (counters_of_run whole_opening whole_events).lse ≡ 2 }
{}
