//! What follows from the definitions, for whoever reasons with them.

ghost use Rattle.std.specs.Prelude.{◌≡◌, ℕ, ◌≤◌, List, [], ◌++◌};
ghost use Rattle.cube_journal.specs.declared.journal_entry.JournalEntry.{JournalEntry};
ghost use Rattle.cube_journal.specs.Counters.{journal_state, lce};
ghost use Rattle.cube_journal.specs.Legal.{CountersAllowAll};
ghost use Rattle.cube_run.specs.Merge.{IsOutcome, IsMerge};
ghost use Rattle.cube_run.specs.RunRecords.{RunRecord};
ghost use Rattle.cube_run.specs.RunText.{IsText};
ghost use Rattle.cube_run.specs.SessionSteps.{SessionStep};
ghost use Rattle.cube_run.specs.StatementEntries.{Outcome};

/// The entries that a statement left tell how it ended: with the scripts, the files and the final
/// dictionaries there is one outcome at most.
pub fn entries_tell_the_outcome()
    ensures { (run : RunRecord) (step : SessionStep) (a b : Outcome)
        → IsOutcome run step a → IsOutcome run step b → a ≡ b }
{}

/// One journal, one text: what is on record of a run decides its text. A run whose journal is a merge of
/// its scripts has a text, and no run has two.
pub fn one_journal_one_text()
    ensures some { (run : RunRecord) → IsMerge run → (text : List ℕ) × IsText run text }
    ensures one { (run : RunRecord) (a b : List ℕ) → IsText run a → IsText run b → a ≡ b }
{}

/// LCE never falls in a legal journal. A snapshot's bound is LCE where it opened, so of two snapshots the
/// one that opened later never has the lower bound, whether they are open still or have ended.
pub fn bounds_never_fall()
    ensures { (safe : ℕ) (before later : List JournalEntry)
        → CountersAllowAll safe [] (before ++ later)
        → lce (journal_state safe before) ≤ lce (journal_state safe (before ++ later)) }
{}
