//! Laws of the journal, over every run of the core.

ghost use Rattle.std.specs.Prelude.{◌≡◌, ℕ, false, List, ◌∷◌};
ghost use Rattle.aosi_desk.specs.Desks.{cubes_after_all, decl_names, speaks_of_cubes};
ghost use Rattle.aosi_desk.specs.State.{held_epoch};
ghost use Rattle.core_events.specs.Cells.{counters_of_run, desk_of};
ghost use Rattle.core_events.specs.Events.{
  Opening,
  CoreEvent,
  By,
  OnDesk,
  TakeNote,
  Commit,
  AbortEnd,
};
ghost use Rattle.core_events.specs.Runs.{IsCoreRun};
ghost use Rattle.core_serial.specs.Journals.{journal_of, names_spoken};
ghost use Rattle.cube_journal.specs.Entries.{note_entry};
ghost use Rattle.cube_journal.specs.Legal.{CountersAllow, IsLegal};
ghost use Rattle.cube_journal.specs.declared.counters.Counters.{Counters};
ghost use Rattle.cube_journal.specs.declared.journal_entry.AbortCause.{AbortCause};
ghost use Rattle.cube_journal.specs.declared.note.Note.{Note};

/// The journal of a run is legal, with its notes: a Flushed stands only after a round since the
/// session's last entry, a Purged only where its epoch was LSE since then, a Refused with 17 only
/// once a round was lost to the disk. It leads to the cubes that there are.
pub fn journals_are_legal()
    ensures legal { (o : Opening) (es : List CoreEvent) → IsCoreRun o es
        → IsLegal o.safe (decl_names o.cubes) (names_spoken es) (journal_of o es) }
    ensures leads { (o : Opening) (es : List CoreEvent) → IsCoreRun o es
        → cubes_after_all (decl_names o.cubes) (names_spoken es) (journal_of o es)
        ≡ decl_names (desk_of o es).cubes }
{}

/// What the desk asks of who leaves a note holds of each note that fits, and a transaction ends with
/// the epoch that its session holds.
pub fn notes_and_ends_meet_their_conditions()
    ensures notes { (o : Opening) (a : ℕ) (note : Note) (counters : Counters) (es : List CoreEvent)
        → IsCoreRun o (By a (OnDesk (TakeNote note counters)) ∷ es)
        → CountersAllow (desk_of o es).register.safe (desk_of o es).register.journal
        (note_entry note) }
    ensures others { (o : Opening) (a : ℕ) (note : Note) (counters : Counters) (es : List CoreEvent)
        → IsCoreRun o (By a (OnDesk (TakeNote note counters)) ∷ es)
        → speaks_of_cubes (note_entry note) ≡ false }
    ensures commits { (o : Opening) (a statement epoch : ℕ) (es : List CoreEvent)
        → IsCoreRun o (By a (OnDesk (Commit statement epoch)) ∷ es)
        → epoch ≡ held_epoch (counters_of_run o es) a }
    ensures aborts { (o : Opening) (a statement epoch : ℕ) (cause : AbortCause)
        (es : List CoreEvent)
        → IsCoreRun o (By a (OnDesk (AbortEnd statement epoch cause)) ∷ es)
        → epoch ≡ held_epoch (counters_of_run o es) a }
{}
