//! What a brick shows, counted by any test of rows.

ghost use Rattle.std.specs.Prelude.{◌≡◌, ℕ, ◌+◌, ◌≤◌, Bool, List};
ghost use Rattle.std.specs.List.{count_by};
ghost use Rattle.cube_values.specs.declared.row.CodedRow.{CodedRow};
ghost use Rattle.cube_values.specs.declared.snapshot.Snapshot.{Snapshot};
ghost use Rattle.cube_values.specs.Sees.{sees};
ghost use Rattle.core_events.specs.BrickTransactions.{brick_rows_left};
ghost use Rattle.core_events.specs.Clients.{reader_up_to};
ghost use Rattle.core_events.specs.Runs.{Sight, rows_shown_besides};
ghost use Rattle.core_events.specs.ShardView.{
  BrickEntry,
  brick_rows_seen,
  entries_of_round,
  rows_shown_to,
  rows_over_kept,
};

/// What a snapshot sees of a brick is, row for row, what the transactions that it sees leave, run
/// one after the other in the order of their epochs, in whatever order their runs and marks came.
pub fn bricks_show_serial_execution()
    ensures { (test : CodedRow → Bool) (s : Snapshot) (entries : List BrickEntry)
        → count_by test (brick_rows_seen s entries)
        ≡ count_by test (brick_rows_left (s.epoch + 1) (sees s) entries) }
{}

/// The rows that one sight shows, with those that another shows besides, are as many as the rows
/// that the other shows, with those that the first shows besides.
pub fn deltas_are_differences()
    ensures { (test : CodedRow → Bool) (one other : Sight) (entries : List BrickEntry)
        → count_by test (rows_shown_to other.epochs other.marks entries)
        + count_by test (rows_shown_besides one other entries)
        ≡ count_by test (rows_shown_to one.epochs one.marks entries)
        + count_by test (rows_shown_besides other one entries) }
{}

/// What a round copies of a brick, put over the rows that a reader at its first epoch sees, shows,
/// row for row, what a reader at its target sees.
pub fn copies_restore_bricks()
    ensures { (test : CodedRow → Bool) (from to : ℕ) (entries : List BrickEntry) → from ≤ to
        → count_by test (rows_over_kept from (brick_rows_seen (reader_up_to from) entries)
        (entries_of_round from to entries))
        ≡ count_by test (brick_rows_seen (reader_up_to to) entries) }
{}
