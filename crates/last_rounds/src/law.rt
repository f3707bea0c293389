//! Laws of the last round, over every run of the core.

ghost use Rattle.std.specs.Prelude.{◌≡◌, ℕ, List, [], ◌++◌, Some};
ghost use Rattle.core_events.specs.Cells.{counters_of_run};
ghost use Rattle.core_events.specs.Events.{Opening, CoreEvent};
ghost use Rattle.core_events.specs.Runs.{IsCoreRun};
ghost use Rattle.core_serial.specs.Journals.{journal_of};
ghost use Rattle.cube_journal.specs.Counters.{lce};
ghost use Rattle.final_shards.specs.FinalShards.{AllIsSafe, lse_of};
ghost use Rattle.flush_loop.specs.declared.round_result.RoundResult.{RoundResult};
ghost use Rattle.last_rounds.specs.SavedEpochs.{
  EndsByLastRound,
  HasSaved,
  SessionsHoldNothing,
  last_saved,
};

/// Where no session holds a snapshot none is open, and no epoch is pending.
pub fn sessions_leave_nothing_open()
    ensures snapshots { (o : Opening) (es : List CoreEvent) → IsCoreRun o es → SessionsHoldNothing o es
        → (counters_of_run o es).snapshots ≡ [] }
    ensures pending { (o : Opening) (es : List CoreEvent) → IsCoreRun o es → SessionsHoldNothing o es
        → (counters_of_run o es).pending ≡ [] }
{}

/// Where the last round of a run, behind the last calls of sessions that hold nothing, ended as Safe or
/// Idle, the last Safe or Idle of the journal has the epoch that is LCE in the end. It is LSE, and nothing
/// is above it.
pub fn last_rounds_save_all()
    ensures saved { (o : Opening) (later es : List CoreEvent) (epoch : ℕ) (how : RoundResult)
        → IsCoreRun o (later ++ es) → EndsByLastRound o how later es → HasSaved epoch how
        → last_saved (journal_of o (later ++ es)) ≡ Some epoch }
    ensures committed { (o : Opening) (later es : List CoreEvent) (epoch : ℕ) (how : RoundResult)
        → IsCoreRun o (later ++ es) → EndsByLastRound o how later es → HasSaved epoch how
        → epoch ≡ lce (counters_of_run o (later ++ es)) }
    ensures safe { (o : Opening) (later es : List CoreEvent) (epoch : ℕ) (how : RoundResult)
        → IsCoreRun o (later ++ es) → EndsByLastRound o how later es → HasSaved epoch how
        → lse_of o (later ++ es) ≡ epoch }
    ensures all { (o : Opening) (later es : List CoreEvent) (epoch : ℕ) (how : RoundResult)
        → IsCoreRun o (later ++ es) → EndsByLastRound o how later es → HasSaved epoch how
        → AllIsSafe o (later ++ es) }
{}
