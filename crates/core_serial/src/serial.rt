//! Laws of queries over a whole cube, over every run of the core.

ghost use Rattle.std.specs.Prelude.{◌≡◌, ℕ, true, List, map};
ghost use Rattle.std.specs.List.Sorted.{IsPermutation};
ghost use Rattle.cube_values.specs.Answer.{table_of};
ghost use Rattle.cube_values.specs.declared.query.BoundQuery.{BoundQuery};
ghost use Rattle.cube_values.specs.declared.snapshot.Snapshot.{Snapshot};
ghost use Rattle.cube_values.specs.declared.table.Field.{Field};
ghost use Rattle.agg_fold.specs.Coded.{row_for};
ghost use Rattle.agg_fold.specs.Standing.{StandsFor, IsTable};
ghost use Rattle.agg_fold.specs.declared.groups.Groups.{Groups};
ghost use Rattle.core_events.specs.Cells.{rows_of_brick, shard_view_of};
ghost use Rattle.core_events.specs.Clients.{calls_of, client_state};
ghost use Rattle.core_events.specs.ShardView.{brick_rows_seen};
ghost use Rattle.core_events.specs.Events.{Opening, CoreEvent};
ghost use Rattle.core_events.specs.Runs.{IsCoreRun};
ghost use Rattle.core_serial.specs.Queries.{HasAnswered, rows_fetched};
ghost use Rattle.core_serial.specs.OwnOperations.{operations_by_calls};
ghost use Rattle.core_events.specs.Serial.{operations_of};
ghost use Rattle.core_serial.specs.PostedEntries.{has_opened};
ghost use Rattle.core_serial.specs.HeldSnapshots.{HoldsAtRest};
ghost use Rattle.core_serial.specs.CubeRows.{rows_of_serial_run, rows_to_find};

/// What a session's snapshot sees of each brick, while it waits for no job, is, each as often, the
/// brick's part of what the transactions that count for the snapshot leave in the whole cube, run
/// one after the other in the order of their epochs.
pub fn snapshots_see_serial_runs()
    ensures { (o : Opening) (es : List CoreEvent) (client cube brick : ℕ) (s : Snapshot)
        → IsCoreRun o es → HoldsAtRest o client (client_state o client es) s
        → IsPermutation (brick_rows_seen s (shard_view_of o es cube brick))
        (rows_of_brick o cube brick (rows_of_serial_run o es cube s)) }
{}

/// Serial execution: the rows that a query has fetched from all shards are, each as often, those
/// that the transactions that count for its snapshot leave in the whole cube, run one after the
/// other in the order of their epochs.
pub fn queries_run_serially()
    ensures { (o : Opening) (es : List CoreEvent) (client : ℕ) (query : BoundQuery) (s : Snapshot)
        → IsCoreRun o es → HasAnswered o.shards query s (client_state o client es).group
        → IsPermutation (rows_fetched (client_state o client es).group.answers)
        (rows_to_find o es query s) }
{}

/// The merged answer of a query is the plain fold: where groups stand for the rows that it has
/// fetched from all shards, they stand for those that serial execution leaves, and the table of the
/// groups is the answer over these.
pub fn answers_are_plain_folds()
    ensures stands { (o : Opening) (es : List CoreEvent) (client : ℕ) (query : BoundQuery)
        (s : Snapshot) (groups : Groups)
        → IsCoreRun o es → HasAnswered o.shards query s (client_state o client es).group
        → StandsFor query (rows_fetched (client_state o client es).group.answers) groups
        → StandsFor query (rows_to_find o es query s) groups }
    ensures table { (o : Opening) (es : List CoreEvent) (client : ℕ) (query : BoundQuery)
        (s : Snapshot) (groups : Groups) (lists : List (List (List ℕ))) (table : List (List Field))
        → IsCoreRun o es → HasAnswered o.shards query s (client_state o client es).group
        → StandsFor query (rows_fetched (client_state o client es).group.answers) groups
        → IsTable query lists groups table
        → table
        ≡ table_of query.group query.items (map (row_for lists) (rows_to_find o es query s)) }
{}

/// The operations of a transaction in the whole of a cube are read off the calls of the session
/// that opened it.
pub fn transactions_are_what_their_sessions_posted()
    ensures { (o : Opening) (es : List CoreEvent) (client epoch cube : ℕ) → IsCoreRun o es
        → has_opened epoch (calls_of client es) ≡ true
        → operations_of o cube es epoch
        ≡ operations_by_calls o client cube (calls_of client es) epoch }
{}
