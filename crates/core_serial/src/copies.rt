//! Laws of the copies of rounds, over every run of the core.

ghost use Rattle.std.specs.Prelude.{◌≡◌, ℕ, Bool, List};
ghost use Rattle.std.specs.List.{count_by};
ghost use Rattle.std.specs.List.Sorted.{IsPermutation};
ghost use Rattle.cube_values.specs.declared.row.CodedRow.{CodedRow};
ghost use Rattle.core_serial.specs.Copies.{
  HasCopied,
  IsOfOpenRound,
  AreRowsAfterRound,
  copies_by,
  rows_committed_up_to,
};
ghost use Rattle.core_events.specs.Cells.{counters_of_run, rows_of_brick};
ghost use Rattle.core_events.specs.Clients.{client_state};
ghost use Rattle.core_events.specs.Events.{Opening, CoreEvent};
ghost use Rattle.core_events.specs.Runs.{IsCoreRun};
ghost use Rattle.core_events.specs.ShardView.{rows_over_kept};

/// The copies of a round, made by the shards at different moments, keep what committed transactions
/// leave: over the rows that those up to the round's first epoch leave they show those that the
/// ones up to its target leave, each as often, brick by brick and in the whole of each cube.
pub fn rounds_keep_committed_transactions()
    ensures round { (o : Opening) (es : List CoreEvent) (client from to : ℕ) → IsCoreRun o es
        → HasCopied o.shards from to (client_state o client es).group
        → IsOfOpenRound from to (counters_of_run o es) }
    ensures bricks { (o : Opening) (es : List CoreEvent) (client from to cube brick : ℕ)
        (test : CodedRow → Bool) → IsCoreRun o es
        → HasCopied o.shards from to (client_state o client es).group
        → count_by test (rows_over_kept from
        (rows_of_brick o cube brick (rows_committed_up_to o es cube from))
        (copies_by o (client_state o client es).group.answers cube brick))
        ≡ count_by test (rows_of_brick o cube brick (rows_committed_up_to o es cube to)) }
    ensures store { (o : Opening) (es : List CoreEvent) (client from to cube : ℕ)
        (kept rows : List CodedRow) → IsCoreRun o es
        → HasCopied o.shards from to (client_state o client es).group
        → IsPermutation kept (rows_committed_up_to o es cube from)
        → AreRowsAfterRound o cube from
        (copies_by o (client_state o client es).group.answers) kept rows
        → IsPermutation rows (rows_committed_up_to o es cube to) }
{}
