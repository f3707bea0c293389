//! Laws of the counters, over every run of the core.

ghost use Rattle.std.specs.Prelude.{
  ◌≡◌,
  ℕ,
  ◌≤◌,
  true,
  false,
  List,
  length,
  ◌∷◌,
  All,
  IfSome,
  Some,
  None,
};
ghost use Rattle.cube_values.specs.declared.snapshot.Snapshot.{Snapshot};
ghost use Rattle.cube_language.specs.declared.decl.Decl.{Decl};
ghost use Rattle.cube_journal.specs.declared.journal_entry.AbortCause.{AbortCause};
ghost use Rattle.cube_journal.specs.Counters.{held_by};
ghost use Rattle.cube_journal.specs.Legal.{HoldsReader, HoldsWriter, MayAskRound};
ghost use Rattle.cube_journal.specs.Order.{IsInOrder};
ghost use Rattle.aosi_desk.specs.declared.answer.RoundAnswer.{RoundAnswer};
ghost use Rattle.aosi_desk.specs.declared.answer.RoundEnd.{RoundEnd};
ghost use Rattle.aosi_desk.specs.declared.cube.CubeAnswer.{CubeAnswer};
ghost use Rattle.core_events.specs.Cells.{counters_of_run, desk_of};
ghost use Rattle.core_events.specs.Clients.{client_state};
ghost use Rattle.core_events.specs.Events.{
  Opening,
  OnDesk,
  OpenWrite,
  OpenRead,
  Commit,
  AbortEnd,
  CloseRead,
  CreateCube,
  RoundOpen,
  RoundClose,
  CoreEvent,
  By,
};
ghost use Rattle.core_events.specs.Runs.{IsCoreRun};
ghost use Rattle.core_events.specs.Serial.{counts_for, has_aborted, has_committed};

/// LSE and the epoch of the open round are above no open snapshot's bound, and bounds never fall in
/// the order of opening.
pub fn bounds_stay_safe()
    ensures order { (o : Opening) (es : List CoreEvent) → IsCoreRun o es
        → IsInOrder (counters_of_run o es) }
    ensures lse { (o : Opening) (es : List CoreEvent) → IsCoreRun o es
        → All (λ s. (counters_of_run o es).lse ≤ s.bound) (counters_of_run o es).snapshots }
    ensures round { (o : Opening) (es : List CoreEvent) → IsCoreRun o es
        → IfSome (counters_of_run o es).round
        (λ epoch. All (λ s. epoch ≤ s.bound) (counters_of_run o es).snapshots) }
{}

/// No epoch is both aborted and committed, and none that was aborted counts for a snapshot that is
/// open.
pub fn nothing_aborted_counts()
    ensures apart { (o : Opening) (es : List CoreEvent) (e : ℕ) → IsCoreRun o es
        → has_aborted es e ≡ true → has_committed o es e ≡ false }
    ensures counts { (o : Opening) (es : List CoreEvent) (number e : ℕ) (s : Snapshot)
        → IsCoreRun o es
        → held_by (counters_of_run o es).snapshots number ≡ Some s → has_aborted es e ≡ true
        → counts_for o es s e ≡ false }
{}

/// What the desk asks of whoever calls it holds of each call that fits: a number that opens a snapshot holds
/// none, the one that ends it holds it, a round is asked for where none is open and the store has not failed,
/// and the round that is closed is the one that is open.
pub fn desk_calls_meet_their_conditions()
    ensures writes { (o : Opening) (a statement epoch : ℕ) (deps : List ℕ) (es : List CoreEvent)
        → IsCoreRun o (By a (OnDesk (OpenWrite statement epoch deps)) ∷ es)
        → held_by (counters_of_run o es).snapshots a ≡ None }
    ensures reads { (o : Opening) (a number statement epoch : ℕ) (es : List CoreEvent)
        → IsCoreRun o (By a (OnDesk (OpenRead number statement epoch)) ∷ es)
        → held_by (counters_of_run o es).snapshots number ≡ None }
    ensures commits { (o : Opening) (a statement epoch : ℕ) (es : List CoreEvent)
        → IsCoreRun o (By a (OnDesk (Commit statement epoch)) ∷ es)
        → HoldsWriter (counters_of_run o es) a epoch }
    ensures aborts { (o : Opening) (a statement epoch : ℕ) (cause : AbortCause)
        (es : List CoreEvent)
        → IsCoreRun o (By a (OnDesk (AbortEnd statement epoch cause)) ∷ es)
        → HoldsWriter (counters_of_run o es) a epoch }
    ensures closes { (o : Opening) (a number statement : ℕ) (es : List CoreEvent)
        → IsCoreRun o (By a (OnDesk (CloseRead number statement)) ∷ es)
        → HoldsReader (counters_of_run o es) number }
    ensures creates { (o : Opening) (a statement : ℕ) (decl : Decl) (answer : CubeAnswer)
        (es : List CoreEvent)
        → IsCoreRun o (By a (OnDesk (CreateCube statement decl answer)) ∷ es)
        → held_by (counters_of_run o es).snapshots a ≡ None }
    ensures rounds { (o : Opening) (a : ℕ) (answer : RoundAnswer) (es : List CoreEvent)
        → IsCoreRun o (By a (OnDesk (RoundOpen answer)) ∷ es) → MayAskRound (counters_of_run o es) }
    ensures ends { (o : Opening) (a epoch : ℕ) (end : RoundEnd) (es : List CoreEvent)
        → IsCoreRun o (By a (OnDesk (RoundClose epoch end)) ∷ es)
        → (counters_of_run o es).round ≡ Some epoch }
{}

/// The cubes that a client was told of are there.
pub fn told_cubes_are_there()
    ensures { (o : Opening) (es : List CoreEvent) (a : ℕ) → IsCoreRun o es
        → (client_state o a es).cubes ≤ length (desk_of o es).cubes }
{}
