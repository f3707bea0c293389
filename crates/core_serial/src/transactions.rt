//! Laws of the transactions, over every run of the core.

ghost use Rattle.std.specs.Prelude.{◌≡◌, ℕ, ◌+◌, ◌<◌, Bool, true, false, List};
ghost use Rattle.std.specs.List.{count_by};
ghost use Rattle.cube_values.specs.declared.query.BoundQuery.{BoundQuery};
ghost use Rattle.cube_values.specs.declared.row.CodedRow.{CodedRow};
ghost use Rattle.cube_values.specs.declared.snapshot.Snapshot.{Snapshot};
ghost use Rattle.core_events.specs.BrickTransactions.{brick_rows_left, entries_of_epoch};
ghost use Rattle.core_events.specs.Cells.{rows_of_brick};
ghost use Rattle.core_events.specs.Clients.{calls_of, client_state};
ghost use Rattle.core_events.specs.Events.{Opening, CoreEvent};
ghost use Rattle.core_events.specs.Runs.{IsCoreRun, rows_in_span};
ghost use Rattle.core_events.specs.Serial.{counts_for, has_aborted, has_committed};
ghost use Rattle.core_serial.specs.Queries.{HasAnswered, rows_fetched};
ghost use Rattle.core_serial.specs.Told.{rolled_back, told_of};
ghost use Rattle.core_serial.specs.PostedEntries.{has_opened, posted_by_calls, posted_of};

/// What a committed transaction posted was done, on each brick and in that order, and it was rolled
/// back nowhere.
pub fn committed_transactions_are_done()
    ensures done { (o : Opening) (es : List CoreEvent) (epoch cube brick : ℕ) → IsCoreRun o es
        → has_committed o es epoch ≡ true
        → entries_of_epoch epoch (posted_of o es cube brick)
        ≡ entries_of_epoch epoch (told_of o es cube brick) }
    ensures stays { (o : Opening) (es : List CoreEvent) (shard epoch : ℕ) → IsCoreRun o es
        → has_committed o es epoch ≡ true → rolled_back shard es epoch ≡ false }
{}

/// An aborted transaction was rolled back on every shard.
pub fn aborted_transactions_leave_nothing()
    ensures { (o : Opening) (es : List CoreEvent) (shard epoch : ℕ) → IsCoreRun o es
        → shard < o.shards
        → has_aborted es epoch ≡ true → rolled_back shard es epoch ≡ true }
{}

/// Serial execution: brick by brick, the rows that a query has fetched are, counted by any test,
/// those that the transactions that count for its snapshot leave, run one after the other in the
/// order of their epochs: those that it sees and that are committed, and its own. Of each the
/// appends and deletions count that its session posted.
pub fn queries_run_transactions()
    ensures { (o : Opening) (es : List CoreEvent) (client brick : ℕ) (query : BoundQuery)
        (s : Snapshot) (test : CodedRow → Bool)
        → IsCoreRun o es → HasAnswered o.shards query s (client_state o client es).group
        → count_by test (rows_of_brick o query.cube brick
        (rows_fetched (client_state o client es).group.answers))
        ≡ count_by test (rows_in_span query.span (brick_rows_left (s.epoch + 1) (counts_for o es s)
        (posted_of o es query.cube brick))) }
{}

/// A transaction is read off the calls of the session that opened it: what was posted of its epoch is what
/// these calls posted. One client opens an epoch.
pub fn transactions_are_own_calls()
    ensures own { (o : Opening) (es : List CoreEvent) (client epoch cube brick : ℕ) → IsCoreRun o es
        → has_opened epoch (calls_of client es) ≡ true
        → entries_of_epoch epoch (posted_of o es cube brick)
        ≡ entries_of_epoch epoch (posted_by_calls o (calls_of client es) cube brick) }
    ensures one { (o : Opening) (es : List CoreEvent) (client other epoch : ℕ) → IsCoreRun o es
        → has_opened epoch (calls_of client es) ≡ true → has_opened epoch (calls_of other es) ≡ true
        → client ≡ other }
{}
