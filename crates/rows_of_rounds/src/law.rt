//! Laws of the rows that a store's rounds keep, over every run of the core.

ghost use Rattle.std.specs.Prelude.{◌≡◌, ◌++◌, ◌≤◌, ℕ, List, [], length};
ghost use Rattle.copied_rounds.specs.CopiedRounds.{IsRoundBehindKept};
ghost use Rattle.copied_rows.specs.CopiedRows.{KeptAreCubeRows};
ghost use Rattle.core_events.specs.Cells.{counters_of_run, rows_of_brick};
ghost use Rattle.core_events.specs.Clients.{reader_up_to};
ghost use Rattle.core_events.specs.Events.{CoreEvent, Opening};
ghost use Rattle.core_events.specs.Runs.{IsCoreRun};
ghost use Rattle.cube_journal.specs.Counters.{lce};
ghost use Rattle.cube_language.specs.declared.decl.Decl.{Decl};
ghost use Rattle.cube_rounds.specs.KeptRows.{kept_rows_of_brick, parts_of_brick};
ghost use Rattle.cube_rounds.specs.Stands.{Kept, kept_of_cubes, kept_with};
ghost use Rattle.cube_rounds.specs.declared.round.Round.{Round};
ghost use Rattle.rows_of_rounds.specs.RowsOfRounds.{AreJoinedUpTo, HasRowsOfRun};

/// Rounds up to the epoch at which a run opens have the rows of the run, where it opens with those that
/// they keep of each brick. So have none, up to epoch 0.
pub fn rounds_have_the_rows_of_an_opening()
    ensures opened { (o : Opening) (es : List CoreEvent) (kept : Kept) → IsCoreRun o es
        → kept.epoch ≡ o.safe → ((cube : ℕ) → length o.cubes ≤ cube → o.rows cube ≡ [])
        → ((cube brick : ℕ) → AreJoinedUpTo kept.epoch (parts_of_brick cube brick kept.rounds))
        → ((cube brick : ℕ) → rows_of_brick o cube brick (o.rows cube)
        ≡ kept_rows_of_brick (reader_up_to kept.epoch) cube brick kept.rounds)
        → HasRowsOfRun o es kept }
    ensures none { (o : Opening) (es : List CoreEvent) (cubes : List Decl) → IsCoreRun o es
        → ((cube : ℕ) → length o.cubes ≤ cube → o.rows cube ≡ [])
        → HasRowsOfRun o es (kept_of_cubes cubes) }
{}

/// Rounds up to an epoch that LCE has reached have the rows of the run at that moment where they have them
/// later, and have them later where they have them then.
pub fn rows_of_rounds_stay()
    ensures later { (o : Opening) (later es : List CoreEvent) (kept : Kept)
        → IsCoreRun o (later ++ es) → kept.epoch ≤ lce (counters_of_run o es)
        → HasRowsOfRun o es kept → HasRowsOfRun o (later ++ es) kept }
    ensures earlier { (o : Opening) (later es : List CoreEvent) (kept : Kept)
        → IsCoreRun o (later ++ es) → kept.epoch ≤ lce (counters_of_run o es)
        → HasRowsOfRun o (later ++ es) kept → HasRowsOfRun o es kept }
{}

/// With a round of the run that begins where they end they have its rows up to the round's epoch.
pub fn rows_of_rounds_grow_by_rounds()
    ensures { (o : Opening) (run : List CoreEvent) (client : ℕ) (kept : Kept) (round : Round)
        → IsCoreRun o run → KeptAreCubeRows o
        → IsRoundBehindKept o run client kept.cubes kept.names round → round.from ≡ kept.epoch
        → HasRowsOfRun o run kept → HasRowsOfRun o run (kept_with kept round) }
{}
