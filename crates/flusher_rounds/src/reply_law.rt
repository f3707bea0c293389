//! Laws of what the flusher may reply to a FLUSH.

ghost use Rattle.std.specs.Prelude.{◌≡◌, ◌≢◌, ℕ, Bool, List, ◌∷◌, ◌++◌, map};
ghost use Rattle.std.specs.List.{AllByRecursion};
ghost use Rattle.cube_journal.specs.declared.journal_entry.LostCause.TheVariants.{Disk};
ghost use Rattle.aosi_desk.specs.declared.answer.RoundAnswer.TheVariants.{Target, Nothing};
ghost use Rattle.aosi_desk.specs.declared.answer.RoundEnd.TheVariants.{Lost, Safe};
ghost use Rattle.core_events.specs.Clients.{client_state};
ghost use Rattle.core_events.specs.Events.{Opening, flusher, RoundOpen, RoundClose, ClientCall, OnDesk, CoreEvent, By};
ghost use Rattle.core_events.specs.Fitting.{AllSaved, FlushSays, NoRound, RoundProgress, progress_after_call, round_progress};
ghost use Rattle.core_events.specs.Jobs.{Done, JobOutcome, OutOfMemory, StoreLost};
ghost use Rattle.flusher_rounds.specs.FlushReplies.{IsWithinRound, LeavesRound, TakesNoFlush};

/// How far the flusher has come since it took a job: all is saved once there was nothing to save, or
/// once a round that it opened since is closed as safe, and stays so. Other calls change nothing.
pub fn rounds_progress_by_calls()
    ensures nothing { (epoch : ℕ) (progress : RoundProgress)
        → progress_after_call (OnDesk (RoundOpen (Nothing epoch))) progress ≡ AllSaved }
    ensures opened { (from epoch : ℕ) (progress : RoundProgress)
        → progress_after_call (OnDesk (RoundOpen (Target from epoch))) progress ≢ NoRound }
    ensures saved { (epoch : ℕ) (progress : RoundProgress) → progress ≢ NoRound
        → progress_after_call (OnDesk (RoundClose epoch Safe)) progress ≡ AllSaved }
    ensures stays { (c : ClientCall) → progress_after_call c AllSaved ≡ AllSaved }
    ensures within { (o : Opening) (a : ℕ) (calls : List ClientCall) (es : List CoreEvent)
        → AllByRecursion IsWithinRound calls
        → round_progress o (map (λ c. By a c) calls ++ es) ≡ round_progress o es }
    ensures leaves { (o : Opening) (later es : List CoreEvent)
        → AllByRecursion (LeavesRound o) later
        → round_progress o (later ++ es) ≡ round_progress o es }
{}

/// The flusher may reply to a FLUSH that it is done, once there was nothing to save or it opened a
/// round and closed it as safe, and took no job since; that the store is lost, once it lost a round
/// to the disk; and always that it was out of memory. What it may reply it may reply later, until
/// it takes another job.
pub fn flushes_are_answered_by_rounds()
    ensures nothing { (o : Opening) (epoch : ℕ) (lost : Bool) (later es : List CoreEvent)
        → AllByRecursion (TakesNoFlush o) later
        → FlushSays (round_progress o
        (later ++ By (flusher o) (OnDesk (RoundOpen (Nothing epoch))) ∷ es)) lost Done }
    ensures saved { (o : Opening) (from epoch : ℕ) (lost : Bool) (later between es : List CoreEvent)
        → AllByRecursion (TakesNoFlush o) later → AllByRecursion (LeavesRound o) between
        → FlushSays (round_progress o
        (later ++ By (flusher o) (OnDesk (RoundClose epoch Safe)) ∷ (between
        ++ By (flusher o) (OnDesk (RoundOpen (Target from epoch))) ∷ es))) lost Done }
    ensures store_lost { (o : Opening) (epoch : ℕ) (progress : RoundProgress)
        (later es : List CoreEvent) → FlushSays progress (client_state o (flusher o)
        (later ++ By (flusher o) (OnDesk (RoundClose epoch (Lost Disk))) ∷ es)).store_lost
        StoreLost }
    ensures no_memory { (progress : RoundProgress) (lost : Bool)
        → FlushSays progress lost OutOfMemory }
    ensures later { (o : Opening) (said : JobOutcome) (later es : List CoreEvent)
        → AllByRecursion (TakesNoFlush o) later
        → FlushSays (round_progress o es) (client_state o (flusher o) es).store_lost said
        → FlushSays (round_progress o (later ++ es))
        (client_state o (flusher o) (later ++ es)).store_lost said }
{}
