//! Laws of the bricks and of queries, over every run of the core.

ghost use Rattle.std.specs.Prelude.{◌≡◌, ℕ, ◌+◌, ◌%◌, ◌≤◌, Bool, List, ◌∷◌, Some};
ghost use Rattle.std.specs.List.{count_by};
ghost use Rattle.cube_values.specs.declared.query.BoundQuery.{BoundQuery};
ghost use Rattle.cube_values.specs.declared.row.CodedRow.{CodedRow};
ghost use Rattle.cube_values.specs.declared.snapshot.Snapshot.{Snapshot};
ghost use Rattle.cube_values.specs.Sees.{sees};
ghost use Rattle.cube_journal.specs.Counters.{held_by};
ghost use Rattle.core_events.specs.BrickTransactions.{brick_rows_left};
ghost use Rattle.core_events.specs.Cells.{counters_of_run, rows_of_brick, shard_view_of};
ghost use Rattle.core_events.specs.Clients.{client_state};
ghost use Rattle.core_events.specs.Events.{Opening, CoreEvent, At, Work};
ghost use Rattle.core_events.specs.Jobs.{CoreJob, JobOutcome, Purge};
ghost use Rattle.core_events.specs.Runs.{IsCoreRun, rows_in_span};
ghost use Rattle.core_events.specs.ShardView.{brick_rows_seen, epochs_without, rows_shown_to};
ghost use Rattle.core_serial.specs.Isolation.{IsOfOther};
ghost use Rattle.core_serial.specs.Queries.{HasAnswered, rows_asked, rows_fetched};
ghost use Rattle.core_serial.specs.Told.{rolled_back, told_of};

/// A purge is at an epoch up to LSE, and no client was shown a greater LSE than the desk has.
pub fn purges_stay_safe()
    ensures purge { (o : Opening) (es : List CoreEvent) (mail epoch : ℕ) (answer : JobOutcome)
        → IsCoreRun o (At mail (Work (Purge epoch) answer) ∷ es)
        → epoch ≤ (counters_of_run o es).lse }
    ensures shown { (o : Opening) (es : List CoreEvent) (client : ℕ) → IsCoreRun o es
        → (client_state o client es).lse ≤ (counters_of_run o es).lse }
{}

/// Snapshot isolation: what an open snapshot sees of a brick stays as it is, whatever job of
/// another transaction is done, a purge among them.
pub fn snapshots_are_isolated()
    ensures { (o : Opening) (es : List CoreEvent) (mail cube brick number : ℕ) (job : CoreJob)
        (answer : JobOutcome) (s : Snapshot) → IsCoreRun o (At mail (Work job answer) ∷ es)
        → held_by (counters_of_run o es).snapshots number ≡ Some s → IsOfOther s job
        → brick_rows_seen s (shard_view_of o (At mail (Work job answer) ∷ es) cube brick)
        ≡ brick_rows_seen s (shard_view_of o es cube brick) }
{}

/// Rollbacks and purges take nothing else out: what an open snapshot sees of a brick is what all
/// appends and deletions that were ever done there show it, less those of transactions that were
/// rolled back there.
pub fn bricks_keep_what_they_were_told()
    ensures { (o : Opening) (es : List CoreEvent) (cube brick number : ℕ) (s : Snapshot)
        → IsCoreRun o es
        → held_by (counters_of_run o es).snapshots number ≡ Some s
        → brick_rows_seen s (shard_view_of o es cube brick)
        ≡ rows_shown_to (epochs_without (sees s) (rolled_back (brick % o.shards) es))
        (epochs_without (sees s) (rolled_back (brick % o.shards) es)) (told_of o es cube brick) }
{}

/// The answers of a query, given by the shards at different moments, are of one snapshot: brick by
/// brick they have the rows that it sees when the last of them is fetched, in the order in which
/// they were appended.
pub fn queries_see_one_snapshot()
    ensures { (o : Opening) (es : List CoreEvent) (client brick : ℕ) (query : BoundQuery)
        (s : Snapshot) → IsCoreRun o es → HasAnswered o.shards query s
        (client_state o client es).group
        → rows_of_brick o query.cube brick (rows_fetched (client_state o client es).group.answers)
        ≡ rows_asked o es query s brick }
{}

/// Serial execution: brick by brick, the rows of a query are, counted by any test, those that the
/// transactions which its snapshot sees leave, run one after the other in the order of their
/// epochs. Of the transactions count the appends and deletions that were done on the brick, if they
/// were not rolled back.
pub fn queries_are_serial()
    ensures { (o : Opening) (es : List CoreEvent) (client brick : ℕ) (query : BoundQuery)
        (s : Snapshot) (test : CodedRow → Bool)
        → IsCoreRun o es → HasAnswered o.shards query s (client_state o client es).group
        → count_by test (rows_of_brick o query.cube brick
        (rows_fetched (client_state o client es).group.answers))
        ≡ count_by test (rows_in_span query.span (brick_rows_left (s.epoch + 1)
        (epochs_without (sees s) (rolled_back (brick % o.shards) es))
        (told_of o es query.cube brick))) }
{}
